// The way of a program to its bundle, and of the bundle through its text.

ghost use Rattle.std.specs.Prelude.{◌≡◌, ◌≤◌, IfOk};
ghost use Rattle.pyr_rcp.specs.Order.{IsPlaced, IsOrdered};
ghost use Rattle.pyr_bundle.specs.Parts.{raw_of};
ghost use Rattle.pyr_emit.specs.Emission.{IsEmission};
ghost use Rattle.pyr_emit.specs.Meaning.{MeansTheSame};
ghost use Rattle.pyr_compile.specs.Compiled.{roomy, HasPlanSizes};
ghost use Rattle.pyr_machine.specs.Counts.{step_count};
ghost use Rattle.pyr_machine.specs.Good.{IsGood};
ghost use Rattle.pyr_loader.specs.Safe.{IsSafe};
ghost use Rattle.pyr_verify.specs.Summary.{HasLoadedText};
ghost use Rattle.pyr_verify.specs.LoadedPlan.{IsLoadedPlan};

use pyr_bundle::Bundle;
use pyr_bundletext::print_bundle;
use pyr_compile::{Planned, compile_plan, plan};
use pyr_gantt::time_of;
use pyr_graphtext::Program;
use pyr_loader::{LoadFault, load};
use pyr_machine::Loaded;
use pyr_num::Limits;
use std::alloc::{AllocError, Global};

/// A bundle that was printed and loaded again.
#[derive(Drop)]
pub(crate) struct LoadedPlan {
    /// The greatest finish of its plan, in abstract time units.
    pub time: u64,
    /// The bundle.
    pub loaded: Loaded,
}

// The error where nothing else is wrong with a text.
fn want_of_memory(fault: LoadFault) -> AllocError
    requires { fault ≡ LoadFault.Memory }
{
    match fault {
        LoadFault::Memory => AllocError,
        _ => unreachable!(),
    }
}

// Prints a good bundle and loads its text, which the loader accepts.
fn load_again(alloc: Global, bundle: &Bundle) -> Result<Loaded, AllocError>
    requires { IsGood bundle.now (step_count bundle.now) }
    ensures bundle { IfOk result (λ loaded. loaded.bundle ≡ bundle.now) }
    ensures steps { IfOk result (λ loaded. loaded.steps ≡ step_count bundle.now) }
    ensures text { IfOk result HasLoadedText }
    ensures safe { IfOk result (λ loaded. IsSafe loaded.bundle loaded.steps) }
{
    bundle.is_bundle();
    let text = print_bundle(alloc, bundle)?;
    match load(alloc, &text) {
        Ok(loaded) => Ok(loaded),
        Err(fault) => Err(want_of_memory(fault)),
    }
}

// Compiles a program by its plan, and loads the text of the bundle.
fn load_planned(alloc: Global, program: &Program, planned: &Planned) -> Result<Loaded, AllocError>
    requires placed { IsPlaced program.now.graph planned.now.placement }
    requires ordered { IsOrdered program.now.graph planned.now.placement planned.now.plan }
    requires some { 1 ≤ planned.now.placement.processors }
    requires few { planned.now.placement.processors ≤ Limits.PROCESSORS }
    ensures emission { IfOk result (λ loaded.
        IsEmission program.now planned.now.placement planned.now.plan
        (roomy (raw_of loaded.bundle))) }
    ensures sizes { IfOk result (λ loaded.
        HasPlanSizes program.now planned.now.placement planned.now.plan (raw_of loaded.bundle)) }
    ensures meaning { IfOk result (λ loaded. MeansTheSame program.now loaded.bundle) }
    ensures steps { IfOk result (λ loaded. loaded.steps ≡ step_count loaded.bundle) }
    ensures text { IfOk result HasLoadedText }
    ensures safe { IfOk result (λ loaded. IsSafe loaded.bundle loaded.steps) }
{
    let bundle = compile_plan(alloc, program, planned)?;
    load_again(alloc, &bundle)
}

/// Compiles a program for so many processors, prints the bundle, and loads its text.
pub(crate) fn load_plan(
    alloc: Global,
    program: &Program,
    processors: u32,
) -> Result<LoadedPlan, AllocError>
    requires some { 1 ≤ processors }
    requires few { processors ≤ Limits.PROCESSORS }
    ensures { IfOk result (IsLoadedPlan program.now processors) }
{
    let planned = plan(alloc, program.graph(), processors)?;
    let loaded = load_planned(alloc, program, &planned)?;
    let time = time_of(&planned.plan);
    Ok(LoadedPlan { time, loaded })
}
