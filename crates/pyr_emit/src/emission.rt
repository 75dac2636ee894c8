// The bundle of a plan.

ghost use Rattle.std.specs.Prelude.{◌≡◌, ◌≤◌, All, IfOk};
ghost use Rattle.pyr_rcp.specs.Order.{IsPlaced, IsOrdered};
ghost use Rattle.pyr_bundle.specs.Raw.{IsWithinLimits};
ghost use Rattle.pyr_bundle.specs.Parts.{raw_of};
ghost use Rattle.pyr_bundle.specs.Faults.{IsLawful};
ghost use Rattle.pyr_emit.specs.Emission.{IsEmission};
ghost use Rattle.pyr_emit.specs.Checked.{IsChecked};
ghost use Rattle.pyr_emit.specs.Meaning.{MeansTheSame};

use crate::channels::channels_of;
use crate::codes::codes_of;
use crate::parts::{datums_of, numbers_of, tasks_of};
use pyr_bundle::{Bundle, BundleFault, RawBundle};
use pyr_graph::{Placement, Plan};
use pyr_graphtext::Program;
use pyr_num::Limits;
use std::alloc::{AllocError, Global};

// The error where nothing else is wrong with the parts of a bundle.
fn want_of_memory(fault: BundleFault) -> AllocError
    requires { fault ≡ BundleFault.Memory }
{
    match fault {
        BundleFault::Memory => AllocError,
        BundleFault::Law { .. } => unreachable!(),
    }
}

/// The parts of the bundle of a plan.
fn parts_of(
    alloc: Global,
    program: &Program,
    placement: &Placement,
    plan: &Plan,
) -> Result<RawBundle, AllocError>
    requires placed { IsPlaced program.now.graph placement.now }
    requires ordered { IsOrdered program.now.graph placement.now plan.now }
    ensures emission { IfOk result (IsEmission program.now placement.now plan.now) }
    ensures checked { IfOk result (λ raw. All IsChecked raw.tasks) }
{
    let graph = program.graph();
    let code = codes_of(alloc, graph, placement, plan.order.as_slice())?;
    let channels = channels_of(alloc, code.as_slice())?;
    Ok(RawBundle {
        datums: datums_of(alloc, program)?,
        tasks: tasks_of(alloc, program)?,
        prints: numbers_of(alloc, graph.prints())?,
        channels,
        code,
    })
}

/// The bundle of a plan, after the code generation of PYRROS (Yang and Gerasoulis, 1992).
///
/// A processor's code is the blocks of its tasks, in the plan's order. The block of a task receives,
/// by rising datum, what the task reads, another processor writes, and no earlier block here
/// receives; then it executes the task; then it sends, by rising datum and destination, what the
/// task writes to each other processor with a task that reads it, once. Each channel has room for
/// all its sends. Data, names, reads, writes and prints are those of the program, and the code of a
/// task is that of its body.
///
/// The placement has one processor for each task of the program, each below its count, which is from
/// 1 to `Limits::PROCESSORS`, and the plan is the one of `pyr_rcp::order` on it.
///
/// The error says that memory ran out. This takes time in the number of processors times that of
/// tasks, of data and of instructions, but for sorting what each task reads and writes.
pub fn emit(
    alloc: Global,
    program: &Program,
    placement: &Placement,
    plan: &Plan,
) -> Result<Bundle, AllocError>
    requires placed { IsPlaced program.now.graph placement.now }
    requires ordered { IsOrdered program.now.graph placement.now plan.now }
    requires some { 1 ≤ placement.now.processors }
    requires few { placement.now.processors ≤ Limits.PROCESSORS }

    // The parts of the bundle, as plain numbers, are exactly those of the rule.
    ensures emission { IfOk result
        (λ bundle. IsEmission program.now placement.now plan.now (raw_of bundle)) }

    // They keep every law of bundles, and are within the limits.
    ensures lawful { IfOk result (λ bundle. IsLawful (raw_of bundle)) }
    ensures limits { IfOk result (λ bundle. IsWithinLimits (raw_of bundle)) }

    // In every frame every datum has the value that it has in the program.
    ensures meaning { IfOk result (MeansTheSame program.now) }
{
    // What is known of the parts of a program rests on what holds of its graph.
    program.graph().well_formed();
    let raw = parts_of(alloc, program, placement, plan)?;
    match Bundle::build(alloc, raw) {
        Ok(bundle) => Ok(bundle),
        Err(fault) => Err(want_of_memory(fault)),
    }
}
