// The writer of each datum.

ghost use Rattle.std.specs.Prelude.{◌≡◌, ◌^◌, ◌≢◌, ℕ, ◌<◌, ◌≤◌, if◌then◌else◌, nat_eq, All, IfOk, IfErr, IfSome, IfNone, length, slice_index_or};
ghost use Rattle.std.specs.List.{list_any};
ghost use Rattle.pyr_num.specs.declared.ids.TaskId.{TaskId};
ghost use Rattle.pyr_graph.specs.System.{datum_numbers, task_in};
ghost use Rattle.pyr_graph.specs.Removal.{IsLeast};
ghost use Rattle.pyr_graph.specs.Tables.{joined, Describes, IsWriterIn, AreSoleWriters, IsWriterCause};
ghost use Rattle.pyr_graph.specs.declared.writers.Writer.{Writer};
ghost use Rattle.pyr_graph.specs.declared.writers.Writer.TheVariants.{Missing, Only, Several};

use crate::{GraphFault, TaskParts};
use pyr_num::{DatumId, TaskId};
use sqlite_items::Items;
use std::alloc::{AllocError, Global};

/// What is known of the tasks that write a datum.
#[derive(Clone, Copy, PartialEq, Eq)]
pub(crate) enum Writer {
    /// No task writes it.
    Missing,
    /// This task alone writes it.
    Only(TaskId),
    /// Two tasks or more write it.
    Several,
}

impl Writer {
    /// What is known once this task is known to write the datum too.
    fn join(self, task: TaskId) -> Writer
        ensures { result ≡ joined self task }
    {
        match self {
            Writer::Missing => Writer::Only(task),
            Writer::Only(other) if other.0 == task.0 => self,
            _ => Writer::Several,
        }
    }
}

/// Notes the data that a task writes.
fn note(table: &mut [Writer], task: TaskId, writes: &[DatumId])
    requires { All (λ d. d.0 < length table.old) writes.now }
    ensures { (d : ℕ) (w : Writer) → d < length table.old → slice_index_or table.new d w
        ≡ (if list_any (nat_eq d) (datum_numbers writes.now)
        then joined (slice_index_or table.old d w) task else slice_index_or table.old d w) }
{
    for datum in writes {
        let at = datum.0 as usize;
        let known = table[at];
        table[at] = known.join(task);
    }
}

/// What is known of the writers of each datum.
fn writers_of(alloc: Global, tasks: &[TaskParts], count: usize) -> Result<Vec<Writer>, AllocError>
    requires few { length tasks.now < 2 ^ 32 }
    requires holds { (t : ℕ) → All (λ d. d.0 < count) (task_in tasks.now t).writes }
    ensures full { IfOk result (λ table. length table.items ≡ count) }
    ensures described { IfOk result (λ table. (d : ℕ) → d < count
        → Describes (IsWriterIn tasks.now d) (slice_index_or table.items d Missing)) }
{
    let mut table = vec![in alloc; Writer::Missing; count]?;
    for (number, task) in tasks.iter().enumerate() {
        note(&mut table, TaskId(number as u32), task.writes.as_slice());
    }
    Ok(table)
}

/// The first datum with this entry in the table.
fn first_with(table: &[Writer], entry: Writer) -> Option<DatumId>
    requires { length table.now < 2 ^ 32 }
    ensures found { IfSome result (λ d. (d.0 < length table.now)
        × (slice_index_or table.now d.0 entry ≡ entry)) }
    ensures least { IfSome result (λ d. (e : ℕ) (w : Writer) → e < d.0
        → slice_index_or table.now e w ≢ entry) }
    ensures none { IfNone result ((e : ℕ) (w : Writer) → e < length table.now
        → slice_index_or table.now e w ≢ entry) }
{
    for (number, found) in table.iter().enumerate() {
        if *found == entry {
            return Some(DatumId(number as u32));
        }
    }
    None
}

/// The writers, where each datum has one.
fn only_writers(alloc: Global, table: &[Writer]) -> Result<Items<TaskId>, AllocError>
    requires some { (d : ℕ) (w : Writer) → d < length table.now
        → slice_index_or table.now d w ≢ Missing }
    requires one { (d : ℕ) (w : Writer) → d < length table.now
        → slice_index_or table.now d w ≢ Several }
    ensures full { IfOk result (λ writers. length writers ≡ length table.now) }
    ensures only { IfOk result (λ writers. (d : ℕ) (t : TaskId) → d < length table.now
        → slice_index_or table.now d Missing ≡ Only (slice_index_or writers d t)) }
{
    let mut writers = Vec::new(alloc);
    for entry in table {
        let Writer::Only(task) = *entry else {
            unreachable!();
        };
        writers.push(task)?;
    }
    Ok(Items::from_vec(writers))
}

/// The writer of each datum, where each datum has one.
pub(crate) fn sole_writers(
    alloc: Global,
    tasks: &[TaskParts],
    count: usize,
) -> Result<Items<TaskId>, GraphFault>
    requires few { length tasks.now < 2 ^ 32 }
    requires count { count < 2 ^ 32 }
    requires holds { (t : ℕ) → All (λ d. d.0 < count) (task_in tasks.now t).writes }
    ensures sole { IfOk result (AreSoleWriters tasks.now count) }
    ensures cause { IfErr result (IsWriterCause tasks.now count) }
{
    let table = writers_of(alloc, tasks, count)?;
    if let Some(datum) = first_with(&table, Writer::Several) {
        return Err(GraphFault::TwoWriters { datum });
    }
    if let Some(datum) = first_with(&table, Writer::Missing) {
        return Err(GraphFault::NoWriter { datum });
    }
    Ok(only_writers(alloc, &table)?)
}
