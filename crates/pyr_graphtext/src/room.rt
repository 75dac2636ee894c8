// The room that a run of the tasks needs.
ghost use Rattle.std.specs.Prelude.{◌≡◌, ◌+◌, ◌*◌, ◌<◌, ◌≤◌, All, length};
ghost use Rattle.pyr_graph.specs.System.{datum_count, datum_numbers};
ghost use Rattle.pyr_graphtext.specs.Running.{HasRoom, lengths_of};

use pyr_graph::Graph;
use pyr_num::{DatumId, Limits, TaskId};

/// For how many lists and words in all a task has room.
#[derive(Clone, Copy)]
pub struct Room {
    /// The lists.
    pub slots: u32,
    /// The words.
    pub words: u32,
}

impl Room {
    /// The room that each task of the graph finds enough.
    pub fn of(graph: &Graph) -> Room
        ensures { HasRoom graph.now result.slots result.words }
    {
        graph.well_formed();
        let mut room = Room { slots: 0, words: 0 };
        for number in 0..graph.task_count() {
            let reads = graph.reads(TaskId(number));
            let writes = graph.writes(TaskId(number));
            let slots = reads.len() as u32 + writes.len() as u32;
            let words = words_together(graph, reads) + words_together(graph, writes);
            room.slots = u32::max(room.slots, slots);
            room.words = u32::max(room.words, words);
        }
        room
    }
}

// The words that these data have together.
fn words_together(graph: &Graph, datums: &[DatumId]) -> u32
    requires known { All (λ d. d.0 < datum_count graph.now) datums.now }
    requires few { length datums.now ≤ Limits.WRITES }
    ensures sum { result ≡ lengths_of graph.now (datum_numbers datums.now) }
    ensures few { result ≤ length datums.now * Limits.LENGTH }
{
    graph.well_formed();
    let mut words = 0;
    for datum in datums {
        words += graph.length(*datum);
    }
    words
}
