// Which data are read on which processor.

ghost use Rattle.std.specs.Prelude.{◌≡◌, ◌<◌, ◌||◌, ℕ, nat_eq, All, IfOk, length, slice_index};
ghost use Rattle.std.specs.List.{list_any};
ghost use Rattle.pyr_graph.specs.System.{task_count, datum_count, datum_numbers, task_numbers};
ghost use Rattle.pyr_graph.specs.Placements.{processor_of};
ghost use Rattle.pyr_rcp.specs.Order.{IsPlaced};
ghost use Rattle.pyr_emit.specs.Marks.{is_marked, AreMarks, AreReaders};

use pyr_graph::{Graph, Placement};
use pyr_num::{DatumId, TaskId};
use sqlite_items::Items;
use std::alloc::{AllocError, Global};

/// The processor of a task.
pub(crate) fn processor_of(placement: &Placement, task: TaskId) -> u32
    requires { task.0 < length placement.now.of }
    ensures { result ≡ processor_of placement.now task.0 }
{
    placement.of.as_slice()[task.0 as usize].0
}

/// Marks these data.
pub(crate) fn mark(marks: &mut [bool], datums: &[DatumId])
    requires { All (λ d. d.0 < length marks.old) datums.now }
    ensures { (d : ℕ) → is_marked marks.new d
        ≡ (list_any (nat_eq d) (datum_numbers datums.now) || is_marked marks.old d) }
{
    for datum in datums {
        marks[datum.0 as usize] = true;
    }
}

/// The data that are read on a processor.
fn marks_on(
    alloc: Global,
    graph: &Graph,
    placement: &Placement,
    order: &[TaskId],
    processor: u32,
) -> Result<Items<bool>, AllocError>
    requires placed { IsPlaced graph.now placement.now }
    requires tasks { All (λ t. t.0 < task_count graph.now) order.now }
    ensures { IfOk result
        (AreMarks graph.now placement.now (task_numbers order.now) processor) }
{
    graph.well_formed();
    let mut marks = vec![in alloc; false; graph.datum_count() as usize]?;
    for task in order {
        if processor_of(placement, *task) == processor {
            mark(&mut marks, graph.reads(*task));
        }
    }
    Ok(Items::from_vec(marks))
}

/// For each processor, the data that are read there. Each row goes once through the tasks: there are
/// few processors.
pub(crate) fn readers_of(
    alloc: Global,
    graph: &Graph,
    placement: &Placement,
    order: &[TaskId],
) -> Result<Items<Items<bool>>, AllocError>
    requires placed { IsPlaced graph.now placement.now }
    requires tasks { All (λ t. t.0 < task_count graph.now) order.now }
    ensures { IfOk result (AreReaders graph.now placement.now (task_numbers order.now)) }
{
    let mut readers = Vec::new(alloc);
    for processor in 0..placement.processors {
        readers.push(marks_on(alloc, graph, placement, order, processor)?)?;
    }
    Ok(Items::from_vec(readers))
}
