// The order in which the tasks can run.

ghost use Rattle.std.specs.Prelude.{◌≡◌, ◌⊎◌, ◌↔◌, ◌^◌, ℕ, ◌+◌, ◌<◌, ◌≤◌, All, IsTrue, IfOk, OnOk, IfErr, length, map, slice_index};
ghost use Rattle.std.specs.Ordering.{nat_cmp};
ghost use Rattle.std.specs.BTreeSet.{contains};
ghost use Rattle.pyr_graph.specs.System.{task_numbers};
ghost use Rattle.pyr_graph.specs.Removal.{IsSmallestFirst};
ghost use Rattle.pyr_graph.specs.Tables.{AreRows, AreOpposite, AreTakenOut, Precedes, times_in, IsCause};

use crate::cycle::walk_back;
use crate::{Edge, GraphFault};
use pyr_num::{TaskId, TaskList};
use sqlite_items::Items;
use std::alloc::{AllocError, Global};
use std::collections::BTreeSet;

/// How many predecessors each task has.
fn counts_of(alloc: Global, predecessors: &[Items<Edge>]) -> Result<Vec<u32>, AllocError>
    requires { All (λ row. length row < 2 ^ 32) predecessors.now }
    ensures { IfOk result (λ counts. counts.items ≡ map length predecessors.now) }
{
    let mut counts = Vec::with_capacity(alloc, predecessors.len())?;
    for row in predecessors {
        counts.push(row.len() as u32)?;
    }
    Ok(counts)
}

/// The tasks that wait for no predecessor.
fn ready_tasks(alloc: Global, pending: &[u32]) -> Result<BTreeSet<u32>, AllocError>
    requires { length pending.now < 2 ^ 32 }
    ensures { IfOk result (λ ready. (t : ℕ) → IsTrue (contains nat_cmp ready t)
        ↔ ((t < length pending.now) × (slice_index pending.now t ≡ 0))) }
{
    let mut ready = BTreeSet::new(alloc);
    for (number, left) in pending.iter().enumerate() {
        if *left == 0 {
            ready.insert(number as u32)?;
        }
    }
    Ok(ready)
}

/// Lets the successors of a task that is out wait for one predecessor less.
fn release(
    successors: &[Edge],
    pending: &mut [u32],
    ready: &mut BTreeSet<u32>,
) -> Result<(), AllocError>
    requires tasks { All (λ e. e.task.0 < length pending.old) successors.now }
    requires enough { (t : ℕ) → times_in successors.now t ≤ slice_index pending.old t }
    ensures pending { OnOk result ((t : ℕ) → slice_index pending.new t + times_in successors.now t
        ≡ slice_index pending.old t) }
    ensures ready { OnOk result ((t : ℕ) → IsTrue (contains nat_cmp ready.new t)
        ↔ (IsTrue (contains nat_cmp ready.old t)
        ⊎ ((0 < times_in successors.now t) × (slice_index pending.new t ≡ 0)))) }
{
    for edge in successors {
        let at = edge.task.0 as usize;
        pending[at] -= 1;
        if pending[at] == 0 {
            ready.insert(edge.task.0)?;
        }
    }
    Ok(())
}

/// Takes out the smallest task that waits for none, again and again, until no such task is left.
fn take_out(
    alloc: Global,
    predecessors: &[Items<Edge>],
    successors: &[Items<Edge>],
    pending: &mut [u32],
) -> Result<TaskList, AllocError>
    requires few { length predecessors.now < 2 ^ 32 }
    requires rows { AreRows (length predecessors.now) predecessors.now }
    requires back { AreRows (length predecessors.now) successors.now }
    requires opposite { AreOpposite successors.now predecessors.now }
    requires counts { pending.old ≡ map length predecessors.now }
    ensures { IfOk result (λ order. AreTakenOut predecessors.now (task_numbers order) pending.new) }
{
    let mut order = Vec::with_capacity(alloc, predecessors.len())?;
    let mut ready = ready_tasks(alloc, pending)?;
    while let Some(task) = ready.pop_first() {
        order.push(TaskId(task))?;
        release(successors[task as usize].as_slice(), pending, &mut ready)?;
    }
    Ok(Items::from_vec(order))
}

/// The order that always takes the smallest task whose predecessors are all out, or a cycle.
pub(crate) fn order_of(
    alloc: Global,
    predecessors: &[Items<Edge>],
    successors: &[Items<Edge>],
) -> Result<TaskList, GraphFault>
    requires few { length predecessors.now < 2 ^ 32 }
    requires rows { AreRows (length predecessors.now) predecessors.now }
    requires back { AreRows (length predecessors.now) successors.now }
    requires opposite { AreOpposite successors.now predecessors.now }
    ensures full { IfOk result (λ order. length order ≡ length predecessors.now) }
    ensures first { IfOk result (λ order. IsSmallestFirst (length predecessors.now)
        (Precedes predecessors.now) (task_numbers order)) }
    ensures cause { IfErr result (IsCause (length predecessors.now) (Precedes predecessors.now)) }
{
    let mut pending = counts_of(alloc, predecessors)?;
    let order = take_out(alloc, predecessors, successors, &mut pending)?;
    if order.len() < predecessors.len() {
        let tasks = walk_back(alloc, predecessors, &pending)?;
        return Err(GraphFault::Cycle { tasks });
    }
    Ok(order)
}
