// The lists that the generated graph is built of.
ghost use Rattle.std.specs.Prelude.{◌≡◌, ◌≤◌, ◌<◌, IfOk, map};
ghost use Rattle.std.specs.List.{range_with_len};
ghost use Rattle.pyr_make.specs.Layered.{layered_task, layered_datum, layered_reads, layered_prints, as_datums};

use crate::rule::{
    comm_of, cost_of, first_predecessor, is_first_layer, last_layer, second_predecessor,
};
use pyr_graph::{DatumParts, TaskParts};
use pyr_num::{DatumId, Limits};
use sqlite_items::Items;
use std::alloc::{AllocError, Global};

/// All tasks, by number.
pub fn task_list(alloc: Global, tasks: u32) -> Result<Vec<TaskParts>, AllocError>
    requires { tasks ≤ Limits.TASKS }
    ensures { IfOk result (λ list. list.items ≡ map layered_task (range_with_len 0 tasks)) }
{
    let mut list = Vec::with_capacity(alloc, tasks as usize)?;
    for task in 0..tasks {
        list.push(task_parts(alloc, task)?)?;
    }
    Ok(list)
}

// One task.
fn task_parts(alloc: Global, task: u32) -> Result<TaskParts, AllocError>
    requires { task ≤ Limits.TASKS }
    ensures { IfOk result (λ parts. parts ≡ layered_task task) }
{
    Ok(TaskParts {
        cost: cost_of(task),
        reads: reads(alloc, task)?,
        writes: Items::from_slice(alloc, &[DatumId(task)])?,
    })
}

// The data that a task reads, by rising number, and once where both predecessors are one.
fn reads(alloc: Global, task: u32) -> Result<Items<DatumId>, AllocError>
    requires { task ≤ Limits.TASKS }
    ensures { IfOk result (λ reads. reads ≡ as_datums (layered_reads task)) }
{
    if is_first_layer(task) {
        return Ok(Items::new(alloc));
    }
    let a = first_predecessor(task);
    let b = second_predecessor(task);
    if a == b {
        Items::from_slice(alloc, &[DatumId(a)])
    } else {
        Items::from_slice(alloc, &[DatumId(a.min(b)), DatumId(a.max(b))])
    }
}

/// All data, by number.
pub fn datum_list(alloc: Global, datums: u32) -> Result<Vec<DatumParts>, AllocError>
    requires { datums ≤ Limits.TASKS }
    ensures { IfOk result (λ list. list.items ≡ map layered_datum (range_with_len 0 datums)) }
{
    let mut list = Vec::with_capacity(alloc, datums as usize)?;
    for datum in 0..datums {
        list.push(DatumParts {
            length: 1,
            comm: comm_of(datum),
        })?;
    }
    Ok(list)
}

/// The printed data: those of the last layer.
pub fn print_list(alloc: Global, tasks: u32) -> Result<Vec<DatumId>, AllocError>
    requires { 0 < tasks }
    ensures { IfOk result (λ list. list.items ≡ as_datums (layered_prints tasks)) }
{
    let first = last_layer(tasks);
    let mut list = Vec::new(alloc);
    for datum in first..tasks {
        list.push(DatumId(datum))?;
    }
    Ok(list)
}
