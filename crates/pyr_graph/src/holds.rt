// The test of what the parts of a graph have to meet.

ghost use Rattle.std.specs.Prelude.{◌↔◌, ◌<◌, IsTrue, All, length};
ghost use Rattle.pyr_graph.specs.System.{system_of, HoldsItsData};

use crate::{DatumParts, TaskParts};
use pyr_num::DatumId;

/// Whether these are all among the data.
fn are_below(count: usize, datums: &[DatumId]) -> bool
    ensures { IsTrue result ↔ All (λ d. d.0 < count) datums.now }
{
    datums.iter().all(|d| (d.0 as usize) < count)
}

/// Whether every datum that the tasks read or write, or that is printed, is one of the data: the
/// test of what `Graph::build` asks.
pub fn holds_its_data(tasks: &[TaskParts], datums: &[DatumParts], prints: &[DatumId]) -> bool
    ensures { IsTrue result ↔ HoldsItsData (system_of tasks.now datums.now prints.now) }
{
    for task in tasks {
        if !are_below(datums.len(), task.reads.as_slice()) {
            return false;
        }
        if !are_below(datums.len(), task.writes.as_slice()) {
            return false;
        }
    }
    are_below(datums.len(), prints)
}
