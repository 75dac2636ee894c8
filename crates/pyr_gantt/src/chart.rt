// The report on a plan.

ghost use Rattle.std.specs.Prelude.{◌≡◌, ◌<◌, ◌∷◌, ◌++◌, IfOk, OnOk, codes, decimal, length};
ghost use Rattle.std.specs.List.{flat_map};
ghost use Rattle.pyr_graph.specs.Numbers.{numbers};
ghost use Rattle.pyr_graph.specs.System.{task_count};
ghost use Rattle.pyr_rcp.specs.Order.{IsPlaced, IsOrdered};
ghost use Rattle.pyr_gantt.specs.Gantt.{task_line, bar_line, gantt_report};
ghost use Rattle.pyr_gantt.specs.Bars.{IsTimed, AreDrawn};

use crate::bars::{COLUMNS, bars_of};
use crate::time::time_of;
use pyr_decimal::{put_decimal, put_number};
use pyr_graph::{Placement, Plan};
use pyr_graphtext::Program;
use pyr_num::TaskId;
use std::alloc::{AllocError, Global};

/// The line of a task.
fn put_task(
    text: &mut Vec<u8>,
    program: &Program,
    placement: &Placement,
    plan: &Plan,
    task: u32,
) -> Result<(), AllocError>
    requires timed { IsTimed (task_count program.now.graph) placement.now plan.now }
    requires task { task < task_count program.now.graph }
    ensures { OnOk result (text.new.items ≡ text.old.items
        ++ task_line program.now placement.now plan.now task) }
{
    let at = task as usize;
    text.extend_from_slice(program.task_name(TaskId(task)).bytes())?;
    put_number(text, u64::from(placement.of.as_slice()[at].0))?;
    put_number(text, plan.start.as_slice()[at])?;
    put_number(text, plan.finish.as_slice()[at])?;
    text.extend_from_slice(b"\n")?;
    Ok(())
}

/// A line for each task.
#[tactic(auto, using(crate::proofs::NumberLemmas::lines_more))]
fn put_tasks(
    text: &mut Vec<u8>,
    program: &Program,
    placement: &Placement,
    plan: &Plan,
) -> Result<(), AllocError>
    requires { IsTimed (task_count program.now.graph) placement.now plan.now }
    ensures { OnOk result (text.new.items ≡ text.old.items
        ++ flat_map (task_line program.now placement.now plan.now)
        (numbers (task_count program.now.graph))) }
{
    for task in 0..program.graph().task_count() {
        put_task(text, program, placement, plan, task)?;
    }
    Ok(())
}

/// The line of a processor with this bar.
fn put_bar(text: &mut Vec<u8>, processor: u32, bar: &[u8]) -> Result<(), AllocError>
    ensures { OnOk result (text.new.items ≡ text.old.items
        ++ (decimal processor ++ 32 ∷ bar.now ++ codes "\n")) }
{
    put_decimal(text, u64::from(processor))?;
    text.extend_from_slice(b" ")?;
    text.extend_from_slice(bar)?;
    text.extend_from_slice(b"\n")?;
    Ok(())
}

/// A line for each processor.
#[tactic(auto, using(crate::proofs::NumberLemmas::lines_more, crate::proofs::NumberLemmas::bar_columns))]
fn put_bars(
    text: &mut Vec<u8>,
    placement: &Placement,
    plan: &Plan,
    columns: &[u8],
) -> Result<(), AllocError>
    requires { AreDrawn placement.now plan.now (numbers (length placement.now.of)) columns.now }
    ensures { OnOk result (text.new.items ≡ text.old.items
        ++ flat_map (bar_line placement.now plan.now (numbers (length placement.now.of)))
        (numbers placement.now.processors)) }
{
    for processor in 0..placement.processors {
        let from = processor as usize * COLUMNS;
        put_bar(text, processor, &columns[from..from + COLUMNS])?;
    }
    Ok(())
}

/// The Gantt report on a plan: `time` and the greatest finish; for each task, by number, its name,
/// its processor, its start and its finish; and for each processor its number and a bar. All times
/// are in abstract time units.
///
/// A bar has `COLUMNS` columns, between which the time is shared evenly: column k is busy where some
/// task of the processor runs between k and k + 1 of these parts, and else idle.
///
/// The placement has one processor below its count for each task of the program, and the plan is the
/// one of `pyr_rcp::order` on it. This takes time in the number of tasks and of processors, and in
/// the length of the text.
pub fn report(
    alloc: Global,
    program: &Program,
    placement: &Placement,
    plan: &Plan,
) -> Result<Vec<u8>, AllocError>
    requires placed { IsPlaced program.now.graph placement.now }
    requires ordered { IsOrdered program.now.graph placement.now plan.now }
    ensures { IfOk result
        (λ text. text.items ≡ gantt_report program.now placement.now plan.now) }
{
    program.graph().well_formed();
    let time = time_of(plan);
    let columns = bars_of(alloc, placement, plan, time)?;
    let mut text = Vec::from_slice(alloc, b"time")?;
    put_number(&mut text, time)?;
    text.extend_from_slice(b"\n")?;
    put_tasks(&mut text, program, placement, plan)?;
    put_bars(&mut text, placement, plan, &columns)?;
    Ok(text)
}
