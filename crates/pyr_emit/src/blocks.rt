// The block of a task.

ghost use Rattle.std.specs.Prelude.{◌≡◌, ◌<◌, ◌+◌, ◌++◌, ◌&&◌, not, nat_eq, OnOk, length};
ghost use Rattle.pyr_graph.specs.System.{task_count, datum_count};
ghost use Rattle.pyr_rcp.specs.Order.{IsPlaced};
ghost use Rattle.pyr_emit.specs.Marks.{AreFull, is_marked, marks_of, marked_receives, marked_sends_of, marked_sends, marked_block};

use crate::readers::processor_of;
use crate::rising::{data_read, data_written};
use pyr_bundle::RawInstr;
use pyr_graph::{Graph, Placement};
use pyr_num::{DatumId, TaskId};
use sqlite_items::Items;
use std::alloc::{AllocError, Global};

/// Whether the datum comes from another processor than the home of a task, and isn't there already.
fn is_awaited(from: u32, home: u32, known: &[bool], datum: u32) -> bool
    requires { datum < length known.now }
    ensures { result ≡ (not (nat_eq from home) && not (is_marked known.now datum)) }
{
    from != home && !known[datum as usize]
}

/// Appends the receives of a task: of what it reads and another processor writes, by rising datum,
/// but for what is there already.
fn push_receives(
    alloc: Global,
    code: &mut Vec<RawInstr>,
    graph: &Graph,
    placement: &Placement,
    known: &[bool],
    task: TaskId,
) -> Result<(), AllocError>
    requires placed { IsPlaced graph.now placement.now }
    requires task { task.0 < task_count graph.now }
    requires known { length known.now ≡ datum_count graph.now }
    ensures { OnOk result (code.new.items ≡ code.old.items
        ++ marked_receives graph.now placement.now known.now task.0) }
{
    let home = processor_of(placement, task);
    for datum in &data_read(alloc, graph, task)? {
        let from = processor_of(placement, graph.writer(DatumId(*datum)));
        if is_awaited(from, home, known, *datum) {
            code.push(RawInstr::Recv {
                from: u64::from(from),
                datum: u64::from(*datum),
            })?;
        }
    }
    Ok(())
}

/// Whether the processor is another than the home of a task, and the datum is marked in its row.
fn is_destination(to: usize, home: u32, marks: &Items<bool>, datum: u32) -> bool
    requires { datum < length marks.now }
    ensures { result ≡ (not (nat_eq to home) && is_marked marks.now datum) }
{
    to != home as usize && marks.as_slice()[datum as usize]
}

/// Appends the sends of a datum: to each other processor that reads it, by rising processor.
fn push_sends_of(
    code: &mut Vec<RawInstr>,
    readers: &[Items<bool>],
    home: u32,
    datum: u32,
) -> Result<(), AllocError>
    requires { AreFull readers.now (datum + 1) }
    ensures { OnOk result (code.new.items ≡ code.old.items
        ++ marked_sends_of readers.now home datum) }
{
    for (to, marks) in readers.iter().enumerate() {
        if is_destination(to, home, marks, datum) {
            code.push(RawInstr::Send {
                to: to as u64,
                datum: u64::from(datum),
            })?;
        }
    }
    Ok(())
}

/// Appends the sends of a task: of what it writes, by rising datum.
fn push_sends(
    alloc: Global,
    code: &mut Vec<RawInstr>,
    graph: &Graph,
    readers: &[Items<bool>],
    home: u32,
    task: TaskId,
) -> Result<(), AllocError>
    requires task { task.0 < task_count graph.now }
    requires readers { AreFull readers.now (datum_count graph.now) }
    ensures { OnOk result (code.new.items ≡ code.old.items
        ++ marked_sends graph.now readers.now home task.0) }
{
    for datum in &data_written(alloc, graph, task)? {
        push_sends_of(code, readers, home, *datum)?;
    }
    Ok(())
}

/// Appends the block of a task: its receives, the task, and its sends.
pub(crate) fn push_block(
    alloc: Global,
    code: &mut Vec<RawInstr>,
    graph: &Graph,
    placement: &Placement,
    known: &[bool],
    readers: &[Items<bool>],
    task: TaskId,
) -> Result<(), AllocError>
    requires placed { IsPlaced graph.now placement.now }
    requires task { task.0 < task_count graph.now }
    requires known { length known.now ≡ datum_count graph.now }
    requires readers { AreFull readers.now (datum_count graph.now) }
    ensures { OnOk result (code.new.items ≡ code.old.items
        ++ marked_block graph.now placement.now known.now readers.now task.0) }
{
    push_receives(alloc, code, graph, placement, known, task)?;
    let task_number = u64::from(task.0);
    code.push(RawInstr::Exec { task: task_number })?;
    let home = processor_of(placement, task);
    push_sends(alloc, code, graph, readers, home, task)
}
