// The whole way of a generated graph.

ghost use Rattle.std.specs.Prelude.{◌≡◌, ◌≤◌, IfOk};
ghost use Rattle.pyr_make.specs.Layered.{layered_program};
ghost use Rattle.pyr_verify.specs.Summary.{IsSummary, IsVerified};
ghost use Rattle.pyr_verify.specs.LoadedPlan.{IsLoadedPlan};

use crate::Summary;
use crate::counting::message_count;
use crate::loading::{LoadedPlan, load_plan};
use crate::running::printed_sum;
use pyr_graphtext::Program;
use pyr_make::make;
use pyr_num::Limits;
use std::alloc::{AllocError, Global};

/// Makes the generated graph of so many tasks, from 1 to `Limits::TASKS`, compiles it for so many
/// processors, from `Limits::LEAST_PROCESSORS` to `Limits::PROCESSORS`, prints the bundle, loads its
/// text, runs the bundle serially in frame 0, and sums up what came of it.
///
/// The error says that memory ran out.
pub fn verify_make(alloc: Global, tasks: u32, processors: u32) -> Result<Summary, AllocError>
    requires some_tasks { 1 ≤ tasks }
    requires few_tasks { tasks ≤ Limits.TASKS }
    requires least_processors { Limits.LEAST_PROCESSORS ≤ processors }
    requires few_processors { processors ≤ Limits.PROCESSORS }

    // It is exactly the summary of the rules, of which there is one for these numbers.
    ensures summary { IfOk result (IsSummary tasks processors) }

    // The text of the bundle was one that the loader accepts. In every interleaving of its
    // processors' steps: none gets stuck, none has more steps than the summary tells, none passes a
    // capacity, and all end alike, with the words that the tasks print where they run one by one.
    ensures verified { IfOk result (IsVerified tasks processors) }
{
    let program = make(alloc, tasks)?;
    let summary = summary_of_made(alloc, &program, tasks, processors);
    drop(program);
    summary
}

// The summary of the generated program of so many tasks, which is compiled and loaded here.
fn summary_of_made(
    alloc: Global,
    program: &Program,
    tasks: u32,
    processors: u32,
) -> Result<Summary, AllocError>
    requires made { program.now ≡ layered_program tasks }
    requires some { 1 ≤ processors }
    requires few { processors ≤ Limits.PROCESSORS }
    ensures summary { IfOk result (IsSummary tasks processors) }
    ensures verified { IfOk result (IsVerified tasks processors) }
{
    let found = load_plan(alloc, program, processors)?;
    summary_of(alloc, &found, tasks, processors)
}

// The summary of the bundle of the generated program of so many tasks, which is run here.
fn summary_of(
    alloc: Global,
    found: &LoadedPlan,
    tasks: u32,
    processors: u32,
) -> Result<Summary, AllocError>
    requires { IsLoadedPlan (layered_program tasks) processors found.now }
    ensures summary { IfOk result (IsSummary tasks processors) }
    ensures verified { IfOk result (IsVerified tasks processors) }
{
    let sum = printed_sum(alloc, &found.loaded)?;
    Ok(Summary {
        tasks,
        processors,
        messages: message_count(found.loaded.bundle()),
        steps: found.loaded.steps(),
        time: found.time,
        sum,
    })
}
