// The cycle that is named where the tasks have no order.

ghost use Rattle.std.specs.Prelude.{◌≡◌, ◌^◌, ℕ, ◌<◌, ◌≤◌, [], IfOk, length, slice_index_or};
ghost use Rattle.pyr_graph.specs.System.{task_numbers};
ghost use Rattle.pyr_graph.specs.Removal.{IsLeast, IsStepBack, IsFoundCycle};
ghost use Rattle.pyr_graph.specs.Tables.{Precedes, AreRows, IsWaiting};

use crate::Edge;
use pyr_num::{TaskId, TaskList};
use sqlite_items::Items;
use std::alloc::{AllocError, Global};

/// The smallest task that waits.
fn first_waiting(pending: &[u32]) -> TaskId
    requires few { length pending.now < 2 ^ 32 }
    requires some { (t : ℕ) × IsWaiting pending.now t }
    ensures { IsLeast (IsWaiting pending.now) result.0 }
{
    for (number, left) in pending.iter().enumerate() {
        if *left > 0 {
            return TaskId(number as u32);
        }
    }
    unreachable!()
}

/// The smallest predecessor that waits, of a task of which one does.
fn step_back(predecessors: &[Items<Edge>], pending: &[u32], task: TaskId) -> TaskId
    requires rows { AreRows (length pending.now) predecessors.now }
    requires task { task.0 < length pending.now }
    requires some { (a : ℕ) × IsWaiting pending.now a × Precedes predecessors.now a task.0 }
    ensures { IsStepBack (IsWaiting pending.now) (Precedes predecessors.now) task.0 result.0 }
{
    for edge in predecessors[task.0 as usize].as_slice() {
        if pending[edge.task.0 as usize] > 0 {
            return edge.task;
        }
    }
    unreachable!()
}

/// The cycle that the walk from the smallest waiting task to the smallest waiting predecessor runs
/// into.
pub(crate) fn walk_back(
    alloc: Global,
    predecessors: &[Items<Edge>],
    pending: &[u32],
) -> Result<TaskList, AllocError>
    requires few { length pending.now < 2 ^ 32 }
    requires rows { AreRows (length pending.now) predecessors.now }
    requires some { (t : ℕ) × IsWaiting pending.now t }
    requires stuck { (t : ℕ) → IsWaiting pending.now t
        → (a : ℕ) × IsWaiting pending.now a × Precedes predecessors.now a t }
    ensures { IfOk result (λ cycle.
        IsFoundCycle (IsWaiting pending.now) (Precedes predecessors.now) (task_numbers cycle)) }
{
    let mut places: Vec<Option<usize>> = vec![in alloc; None; pending.len()]?;
    let mut trail = Vec::new(alloc);
    let mut task = first_waiting(pending);
    loop {
        if let Some(first) = places[task.0 as usize] {
            return Ok(Items::from_vec(trail.split_off(first)?));
        }
        places[task.0 as usize] = Some(trail.len());
        trail.push(task)?;
        task = step_back(predecessors, pending, task);
    }
}
