// Data by rising number.

ghost use Rattle.std.specs.Prelude.{◌≡◌, ◌≢◌, ℕ, ◌<◌, nat_eq, All, AllPairs, IfOk, filter};
ghost use Rattle.std.specs.List.{list_any, range_with_len};
ghost use Rattle.pyr_graph.specs.System.{task_count, datum_count, datum_numbers};
ghost use Rattle.pyr_emit.specs.Emission.{data_read, data_written};

use pyr_graph::Graph;
use pyr_num::{DatumId, TaskId};
use std::alloc::{AllocError, Global};

/// The numbers of these data, rising. No datum stands twice in the list.
fn rising(alloc: Global, datums: &[DatumId]) -> Result<Vec<u32>, AllocError>
    requires { AllPairs (λ d e. d ≢ e) (datum_numbers datums.now) }
    ensures { IfOk result (λ list. (count : ℕ) → All (λ d. d < count) (datum_numbers datums.now)
        → list.items ≡ filter (λ d. list_any (nat_eq d) (datum_numbers datums.now))
        (range_with_len 0 count)) }
{
    let mut list: Vec<u32> = datums.iter().map(|d| d.0).collect(alloc)?;
    list.sort_unstable();
    Ok(list)
}

/// The data that a task reads, by rising number.
pub(crate) fn data_read(alloc: Global, graph: &Graph, task: TaskId) -> Result<Vec<u32>, AllocError>
    requires { task.0 < task_count graph.now }
    ensures list { IfOk result (λ list. list.items ≡ data_read graph.now task.0) }
    ensures below { IfOk result (λ list. All (λ d. d < datum_count graph.now) list.items) }
{
    graph.well_formed();
    let list = rising(alloc, graph.reads(task))?;
    Ok(list)
}

/// The data that a task writes, by rising number.
pub(crate) fn data_written(
    alloc: Global,
    graph: &Graph,
    task: TaskId,
) -> Result<Vec<u32>, AllocError>
    requires { task.0 < task_count graph.now }
    ensures list { IfOk result (λ list. list.items ≡ data_written graph.now task.0) }
    ensures below { IfOk result (λ list. All (λ d. d < datum_count graph.now) list.items) }
{
    graph.well_formed();
    let list = rising(alloc, graph.writes(task))?;
    Ok(list)
}
