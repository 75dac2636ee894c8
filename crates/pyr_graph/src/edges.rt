// The edges of a graph, by the task that they leave and by the task that they reach.

ghost use Rattle.std.specs.Prelude.{◌≡◌, ◌^◌, ℕ, ◌+◌, ◌<◌, ◌≤◌, ◌++◌, [], All, IfOk, OnOk, length, slice_index_or};
ghost use Rattle.pyr_num.specs.declared.limits.TheConstants.Limits.{COMM, READS};
ghost use Rattle.pyr_graph.specs.System.{reads_in, task_in, datum_in};
ghost use Rattle.pyr_graph.specs.Tables.{added, turned, turned_from, writer_in, IsRow, AreRows};

use crate::{DatumParts, Edge, TaskParts};
use pyr_num::TaskId;
use sqlite_items::Items;
use std::alloc::{AllocError, Global};

/// One empty row for each task.
fn empty_rows(alloc: Global, count: usize) -> Result<Vec<Items<Edge>>, AllocError>
    ensures { IfOk result (λ rows. (length rows.items ≡ count)
        × ((t : ℕ) → slice_index_or rows.items t [] ≡ [])) }
{
    let mut rows = Vec::with_capacity(alloc, count)?;
    for _row in 0..count {
        rows.push(Items::new(alloc))?;
    }
    Ok(rows)
}

/// Adds a weight to the edge to a task that is no smaller than those that the row has edges to.
fn add_weight(row: &mut Items<Edge>, task: TaskId, weight: u64) -> Result<(), AllocError>
    requires { All (λ e. e.weight + weight < 2 ^ 64) row.old }
    ensures { OnOk result (row.new ≡ added row.old task.0 weight) }
{
    let Some(last) = row.pop() else {
        return row.push(Edge { task, weight });
    };
    if last.task.0 == task.0 {
        let weight = last.weight + weight;
        return row.push(Edge { task, weight });
    }
    row.push(last)?;
    row.push(Edge { task, weight })
}

/// The edges out of each task, by rising task: tasks are taken in order, so the edge to a task that
/// reads several data of one writer is the last one of its row.
pub(crate) fn successors_of(
    alloc: Global,
    tasks: &[TaskParts],
    datums: &[DatumParts],
    writers: &[TaskId],
) -> Result<Vec<Items<Edge>>, AllocError>
    requires few { length tasks.now < 2 ^ 32 }
    requires same { length writers.now ≡ length datums.now }
    requires reads { (t : ℕ) → All (λ d. d.0 < length datums.now) (task_in tasks.now t).reads }
    requires writers { (d : ℕ) → d < length datums.now
        → writer_in writers.now d < length tasks.now }
    requires short { (t : ℕ) → length (reads_in tasks.now t) ≤ READS }
    requires light { (d : ℕ) → (datum_in datums.now d).comm ≤ COMM }
    ensures full { IfOk result (λ rows. length rows.items ≡ length tasks.now) }
    ensures rows { IfOk result (λ rows. (a : ℕ) → a < length tasks.now
        → IsRow (writer_in writers.now) (λ d. (datum_in datums.now d).comm) (reads_in tasks.now)
        (length tasks.now) a (slice_index_or rows.items a [])) }
{
    let mut rows = empty_rows(alloc, tasks.len())?;
    for (number, task) in tasks.iter().enumerate() {
        for datum in task.reads.as_slice() {
            let at = datum.0 as usize;
            let from = writers[at].0 as usize;
            let weight = u64::from(datums[at].comm);
            add_weight(&mut rows[from], TaskId(number as u32), weight)?;
        }
    }
    Ok(rows)
}

/// Adds the edges out of a task to the rows of the tasks that they reach.
fn turn_row(rows: &mut [Items<Edge>], from: TaskId, edges: &[Edge]) -> Result<(), AllocError>
    requires { All (λ e. e.task.0 < length rows.old) edges.now }
    ensures { OnOk result ((t : ℕ) → t < length rows.old → slice_index_or rows.new t []
        ≡ slice_index_or rows.old t [] ++ turned from.0 edges.now t) }
{
    for edge in edges {
        rows[edge.task.0 as usize].push(Edge {
            task: from,
            weight: edge.weight,
        })?;
    }
    Ok(())
}

/// The edges into each task, by rising task, from those out of each task.
pub(crate) fn turned_rows(
    alloc: Global,
    successors: &[Items<Edge>],
) -> Result<Vec<Items<Edge>>, AllocError>
    requires few { length successors.now < 2 ^ 32 }
    requires rows { AreRows (length successors.now) successors.now }
    ensures full { IfOk result (λ rows. length rows.items ≡ length successors.now) }
    ensures turned { IfOk result (λ rows. (t : ℕ) → t < length successors.now
        → slice_index_or rows.items t [] ≡ turned_from 0 successors.now t) }
{
    let mut rows = empty_rows(alloc, successors.len())?;
    for (number, edges) in successors.iter().enumerate() {
        turn_row(&mut rows, TaskId(number as u32), edges.as_slice())?;
    }
    Ok(rows)
}
