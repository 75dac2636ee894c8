// Who sends to a task last.

ghost use Rattle.std.specs.Prelude.{◌≡◌, ◌<◌, ℕ};
ghost use Rattle.pyr_graph.specs.System.{task_count};
ghost use Rattle.pyr_dsc.specs.State.{arrival};
ghost use Rattle.pyr_dsc.specs.Rules.{latest_sender};
ghost use Rattle.pyr_dsc.specs.Progress.{IsProgress, state_of};
ghost use Rattle.pyr_dsc.specs.Heads.{head_with};

use crate::head::{Head, greater};
use crate::progress::Progress;
use pyr_graph::Graph;
use pyr_num::TaskId;

/// The examined predecessor of a task whose data arrive last, and when they do.
pub(crate) fn latest_sender(progress: &Progress, graph: &Graph, task: TaskId) -> Option<Head>
    requires progress { IsProgress graph.now progress.now }
    requires task { task.0 < task_count graph.now }
    ensures { result ≡ head_with (arrival (state_of graph.now progress.now) task.0)
        (latest_sender (state_of graph.now progress.now) task.0) }
{
    let mut latest = None;
    for edge in graph.predecessors(task) {
        if progress.is_examined(graph, edge.task) {
            let key = progress.arrival(graph, *edge, task);
            let number = edge.task.0;
            latest = greater(latest, Head { number, key });
        }
    }
    latest
}
