// The way from a program to its bundle.

ghost use Rattle.std.specs.Prelude.{◌≡◌, ◌≤◌, All, IfOk};
ghost use Rattle.pyr_rcp.specs.Order.{IsPlaced, IsOrdered};
ghost use Rattle.pyr_bundle.specs.Raw.{IsWithinLimits};
ghost use Rattle.pyr_bundle.specs.Parts.{raw_of};
ghost use Rattle.pyr_bundle.specs.Faults.{IsLawful};
ghost use Rattle.pyr_bundle.specs.WellFormed.{IsFineCapacity};
ghost use Rattle.pyr_machine.specs.Counts.{step_count};
ghost use Rattle.pyr_machine.specs.Good.{IsGood};
ghost use Rattle.pyr_emit.specs.Emission.{IsEmission};
ghost use Rattle.pyr_emit.specs.Meaning.{MeansTheSame};
ghost use Rattle.pyr_compile.specs.Compiled.{roomy, HasPlanSizes, IsCompiled, RunsByItsPlan, with_channels, SamePairs};
ghost use Rattle.pyr_compile.specs.PlanRun.{PlanCompletes};

use crate::planning::{Planned, plan};
use pyr_bundle::{Bundle, Capacity};
use pyr_emit::emit;
use pyr_graphtext::Program;
use pyr_num::Limits;
use pyr_size::sizes;
use std::alloc::{AllocError, Global};

// Gives the channels of a bundle other capacities.
fn set_capacities(bundle: &mut Bundle, capacities: &[Capacity])
    requires pairs { SamePairs bundle.old.channels capacities.now }
    requires fine { All (IsFineCapacity bundle.old) capacities.now }
    ensures { bundle.new ≡ with_channels bundle.old capacities.now }
{
    bundle.is_bundle();
    for (i, channel) in capacities.iter().enumerate() {
        bundle.set_capacity(i as u32, channel.capacity);
    }
}

/// Compiles a program by its plan: each processor gets the blocks of its tasks, in the plan's order.
/// Each channel holds at most as many parcels as it has in it along the run of the plan, which is
/// enough in every interleaving.
///
/// The placement has one processor for each task of the program, each below its count, which is from
/// 1 to `Limits::PROCESSORS`, and the plan is the one of `pyr_rcp::order` on it: so it is where
/// `plan` gave both.
///
/// The error says that memory ran out.
pub fn compile_plan(
    alloc: Global,
    program: &Program,
    planned: &Planned,
) -> Result<Bundle, AllocError>
    requires placed { IsPlaced program.now.graph planned.now.placement }
    requires ordered { IsOrdered program.now.graph planned.now.placement planned.now.plan }
    requires some { 1 ≤ planned.now.placement.processors }
    requires few { planned.now.placement.processors ≤ Limits.PROCESSORS }

    // It is exactly the bundle of this plan, with capacities by occupancy.
    ensures emission { IfOk result (λ bundle.
        IsEmission program.now planned.now.placement planned.now.plan (roomy (raw_of bundle))) }
    ensures sizes { IfOk result (λ bundle.
        HasPlanSizes program.now planned.now.placement planned.now.plan (raw_of bundle)) }

    // It keeps every law of bundles, and is within the limits.
    ensures lawful { IfOk result (λ bundle. IsLawful (raw_of bundle)) }
    ensures limits { IfOk result (λ bundle. IsWithinLimits (raw_of bundle)) }

    // The run that follows the plan block by block is complete. So the bundle is good, and each such
    // run has as many steps as there are instructions and sends.
    ensures run { IfOk result
        (PlanCompletes program.now planned.now.placement planned.now.plan) }
    ensures good { IfOk result (λ bundle. IsGood bundle (step_count bundle)) }

    // In every frame every datum has the value that it has in the program.
    ensures meaning { IfOk result (MeansTheSame program.now) }
{
    program.graph().well_formed();
    let mut bundle = emit(alloc, program, &planned.placement, &planned.plan)?;
    bundle.well_formed();
    let capacities = sizes(alloc, &bundle, planned.plan.order.as_slice())?;
    set_capacities(&mut bundle, &capacities);
    bundle.is_bundle();
    Ok(bundle)
}

/// Compiles a program for this many processors, from 1 to `Limits::PROCESSORS`, after PYRROS (Yang and
/// Gerasoulis, 1992): the tasks are clustered by dominant sequences, the clusters go to processors by
/// load, the tasks are ordered there ready critical path first, and each processor gets the blocks of
/// its tasks in this order. Each channel holds at most as many parcels as it has in it along the run
/// that makes these blocks one after another, in the order of the plan.
///
/// The bundle is lawful and good: in every interleaving of its processors' steps, each unfinished
/// state has an enabled step, and all end alike. Every datum has the value that it has in the program.
///
/// The error says that memory ran out. Beside `cluster` this takes little time.
pub fn compile(alloc: Global, program: &Program, processors: u32) -> Result<Bundle, AllocError>
    requires some { 1 ≤ processors }
    requires few { processors ≤ Limits.PROCESSORS }

    // It is exactly the bundle of the rules, of which a program has one.
    ensures compiled { IfOk result (λ bundle. IsCompiled program.now processors (raw_of bundle)) }

    // It keeps every law of bundles, and is within the limits.
    ensures lawful { IfOk result (λ bundle. IsLawful (raw_of bundle)) }
    ensures limits { IfOk result (λ bundle. IsWithinLimits (raw_of bundle)) }

    // The run that follows the plan block by block is complete: it ends with every processor at its
    // code's end, and all channels and stashes empty. So the bundle is good, and each such run has as
    // many steps as there are instructions and sends.
    ensures run { IfOk result (RunsByItsPlan program.now processors) }
    ensures good { IfOk result (λ bundle. IsGood bundle (step_count bundle)) }

    // In every frame every datum has the value that it has in the program.
    ensures meaning { IfOk result (MeansTheSame program.now) }
{
    let planned = plan(alloc, program.graph(), processors)?;
    let bundle = compile_plan(alloc, program, &planned)?;
    Ok(bundle)
}
