// The bars of the processors.

ghost use Rattle.std.specs.Prelude.{◌≡◌, ℕ, ◌<◌, ◌≤◌, ◌+◌, ◌*◌, ◌^◌, ◌&&◌, if◌then◌else◌, IfOk, length, nat_le, nat_lt, replicate, slice_index};
ghost use Rattle.pyr_graph.specs.Numbers.{numbers};
ghost use Rattle.pyr_gantt.specs.Gantt.{time_of};
ghost use Rattle.pyr_gantt.specs.Bars.{IsTimed, AreDrawn};

use pyr_graph::{Placement, Plan};
use std::alloc::{AllocError, Global};

/// The columns of a bar.
pub const COLUMNS: usize = 60;

/// A column in which the processor is at work.
pub const BUSY: u8 = b'#';

/// A column in which it isn't.
pub const IDLE: u8 = b'.';

/// The first column that ends after this start.
fn first_column(start: u64, time: u64) -> u64
    requires some { 0 < time }
    requires late { start ≤ time }
    requires fits { start * COLUMNS < 2 ^ 64 }
    ensures columns { (k : ℕ) → nat_lt (start * COLUMNS) ((k + 1) * time) ≡ nat_le result k }
    ensures within { result ≤ COLUMNS }
{
    start * COLUMNS as u64 / time
}

/// The first column that begins no earlier than this finish, or that would if there were more.
fn end_column(finish: u64, time: u64) -> u64
    requires some { 0 < time }
    requires late { finish ≤ time }
    requires fits { finish * COLUMNS < 2 ^ 64 }
    ensures columns { (k : ℕ) → nat_lt (k * time) (finish * COLUMNS) ≡ nat_lt k result }
    ensures within { result ≤ COLUMNS }
{
    (finish * COLUMNS as u64).div_ceil(time)
}

/// Marks the columns from `from` to before `to` as busy.
fn mark(columns: &mut [u8], from: usize, to: usize)
    requires { to ≤ length columns.old }
    ensures { (i : ℕ) → slice_index columns.new i
        ≡ (if nat_le from i && nat_lt i to then BUSY else slice_index columns.old i) }
{
    for column in from..to {
        columns[column] = BUSY;
    }
}

/// The bars of all processors, one after another. Each task marks the columns in which it runs. Since
/// tasks on one processor don't overlap, these are together at most the columns of all bars and one
/// for each task.
pub(crate) fn bars_of(
    alloc: Global,
    placement: &Placement,
    plan: &Plan,
    time: u64,
) -> Result<Vec<u8>, AllocError>
    requires timed { IsTimed (length placement.now.of) placement.now plan.now }
    requires time { time ≡ time_of plan.now }
    ensures { IfOk result (λ bars. AreDrawn placement.now plan.now
        (numbers (length placement.now.of)) bars.items) }
{
    let mut columns = vec![in alloc; IDLE; placement.processors as usize * COLUMNS]?;
    for (task, processor) in placement.of.as_slice().iter().enumerate() {
        let bar = processor.0 as usize * COLUMNS;
        let first = first_column(plan.start.as_slice()[task], time);
        let end = end_column(plan.finish.as_slice()[task], time);
        mark(&mut columns, bar + first as usize, bar + end as usize);
    }
    Ok(columns)
}
