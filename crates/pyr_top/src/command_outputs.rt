// The output of each command that starts no threads, one function each.
ghost use Rattle.std.specs.Prelude.{◌≡◌, ◌≤◌, length, IfOk, IfErr, IsTrue};
ghost use Rattle.pyr_port.specs.Calls.{source_call};
ghost use Rattle.pyr_graphtext.specs.Canonical.{program_text};
ghost use Rattle.pyr_make.specs.Layered.{layered_program};
ghost use Rattle.pyr_top.specs.Commands.{uses_threads, IsWithinRange};
ghost use Rattle.pyr_top.specs.Answers.{IsPrinted, IsClusterReport, IsBundleText, IsGanttReport, IsTextFor, check_report, IsCheckReport, IsTextOfLoaded, IsSummaryText};
ghost use Rattle.pyr_top.specs.Answers.{Gives, Refuses};
ghost use Rattle.pyr_top.specs.Headline.{IsAccepted, RunsSafely, CompilesSafely, Promises, TellsVerified};
ghost use Rattle.pyr_top.specs.Responding.{IsOutput, LeavesSource};

use crate::cluster_report::cluster_report;
use crate::figures::put_figure;
use crate::outputs_text::outputs_text;
use crate::streams::read_input;
use crate::summary_text::summary_text;
use crate::{Command, Refusal};
use pyr_bundletext::print_bundle;
use pyr_compile::{compile, plan};
use pyr_dsc::cluster;
use pyr_gantt::report;
use pyr_graphtext::{Program, print_program, read_program, sequential};
use pyr_loader::load;
use pyr_make::make;
use pyr_num::Limits;
use pyr_port::Source;
use pyr_verify::verify_make;
use std::alloc::{AllocError, Global};

/// What a command gives for what is left in the source, where it starts no threads.
pub(crate) fn output_for<S: Source>(
    alloc: Global,
    command: Command,
    source: &mut S,
) -> Result<Vec<u8>, Refusal>
    requires range { IsWithinRange command }
    requires alone { ¬ IsTrue (uses_threads command) }
    ensures output { IfOk result (λ output. IsOutput command (S.left source.old) output.items) }
    ensures source { LeavesSource command (source_call S.left S.faults source.old source.new) result }
{
    let input = read_input(alloc, command, source)?;
    output_of(alloc, command, &input)
}

// What the command gives for the input.
fn output_of(alloc: Global, command: Command, input: &[u8]) -> Result<Vec<u8>, Refusal>
    requires range { IsWithinRange command }
    requires alone { ¬ IsTrue (uses_threads command) }
    requires fits { length input.now ≤ Limits.INPUT }
    ensures ok { IfOk result (λ output. Gives command input.now (Ok output.items)) }
    ensures safe { IfOk result (λ output. Promises command input.now output.items) }
    ensures refused { IfErr result (Refuses command input.now) }
{
    match command {
        Command::Seq => sequential_text(alloc, input),
        Command::Cluster => cluster_text(alloc, input),
        Command::Compile(processors) => compiled_text(alloc, processors, input),
        Command::Gantt(processors) => gantt_text(alloc, processors, input),
        Command::Check => checked_text(alloc, input),
        Command::Run => unreachable!(),
        Command::Make(tasks) => made_text(alloc, tasks),
        Command::VerifyMake { tasks, processors } => verified_text(alloc, tasks, processors),
    }
}

// What the tasks of a graph text print, run one by one.
fn sequential_text(alloc: Global, input: &[u8]) -> Result<Vec<u8>, Refusal>
    requires { length input.now ≤ Limits.INPUT }
    ensures ok { IfOk result (λ output. IsTextFor IsPrinted input.now output.items) }
    ensures refused { IfErr result (Refuses Command.Seq input.now) }
{
    let program = read_program(alloc, input)?;
    let text = printed_text(alloc, &program);
    drop(program);
    Ok(text?)
}

// What the tasks of a program print, run one by one.
fn printed_text(alloc: Global, program: &Program) -> Result<Vec<u8>, AllocError>
    ensures { IfOk result (λ text. IsPrinted program.now text.items) }
{
    let outputs = sequential(alloc, program, 0)?;
    let _order = program.graph().topological();
    outputs_text(alloc, program, &outputs)
}

// The steps in which the tasks of a graph text are clustered.
fn cluster_text(alloc: Global, input: &[u8]) -> Result<Vec<u8>, Refusal>
    requires { length input.now ≤ Limits.INPUT }
    ensures ok { IfOk result (λ output. IsTextFor IsClusterReport input.now output.items) }
    ensures refused { IfErr result (Refuses Command.Cluster input.now) }
{
    let program = read_program(alloc, input)?;
    let text = steps_text(alloc, &program);
    drop(program);
    Ok(text?)
}

// The steps in which the tasks of a program are clustered.
fn steps_text(alloc: Global, program: &Program) -> Result<Vec<u8>, AllocError>
    ensures { IfOk result (λ text. IsClusterReport program.now text.items) }
{
    let clustering = cluster(alloc, program.graph())?;
    cluster_report(alloc, program, &clustering)
}

// The text of the bundle that a graph text is compiled to, for so many processors.
fn compiled_text(alloc: Global, processors: u32, input: &[u8]) -> Result<Vec<u8>, Refusal>
    requires least { Limits.LEAST_PROCESSORS ≤ processors }
    requires most { processors ≤ Limits.PROCESSORS }
    requires fits { length input.now ≤ Limits.INPUT }
    ensures ok { IfOk result (λ output. IsTextFor (IsBundleText processors) input.now output.items) }
    ensures safe { IfOk result (λ output. CompilesSafely input.now output.items) }
    ensures refused { IfErr result (Refuses (Command.Compile processors) input.now) }
{
    let program = read_program(alloc, input)?;
    let text = bundle_text(alloc, processors, &program);
    drop(program);
    Ok(text?)
}

// The text of the bundle that a program is compiled to, for so many processors.
fn bundle_text(alloc: Global, processors: u32, program: &Program) -> Result<Vec<u8>, AllocError>
    requires least { Limits.LEAST_PROCESSORS ≤ processors }
    requires most { processors ≤ Limits.PROCESSORS }
    ensures text { IfOk result (λ text. IsBundleText processors program.now text.items) }
    ensures safe { IfOk result (λ text. RunsSafely program.now text.items) }
{
    let bundle = compile(alloc, program, processors)?;
    bundle.is_bundle();
    let text = print_bundle(alloc, &bundle)?;
    Ok(text)
}

// When and where the tasks of a graph text run, on so many processors.
fn gantt_text(alloc: Global, processors: u32, input: &[u8]) -> Result<Vec<u8>, Refusal>
    requires least { Limits.LEAST_PROCESSORS ≤ processors }
    requires most { processors ≤ Limits.PROCESSORS }
    requires fits { length input.now ≤ Limits.INPUT }
    ensures ok { IfOk result (λ output. IsTextFor (IsGanttReport processors) input.now output.items) }
    ensures refused { IfErr result (Refuses (Command.Gantt processors) input.now) }
{
    let program = read_program(alloc, input)?;
    let text = plan_text(alloc, processors, &program);
    drop(program);
    Ok(text?)
}

// When and where the tasks of a program run, on so many processors.
fn plan_text(alloc: Global, processors: u32, program: &Program) -> Result<Vec<u8>, AllocError>
    requires least { Limits.LEAST_PROCESSORS ≤ processors }
    requires most { processors ≤ Limits.PROCESSORS }
    ensures { IfOk result (λ text. IsGanttReport processors program.now text.items) }
{
    let planned = plan(alloc, program.graph(), processors)?;
    report(alloc, program, &planned.placement, &planned.plan)
}

// The report on a bundle text that the loader accepts.
fn checked_text(alloc: Global, input: &[u8]) -> Result<Vec<u8>, Refusal>
    requires { length input.now ≤ Limits.INPUT }
    ensures ok { IfOk result (λ output. IsTextOfLoaded IsCheckReport input.now output.items) }
    ensures safe { IfOk result (λ output. IsAccepted input.now output.items) }
    ensures refused { IfErr result (Refuses Command.Check input.now) }
{
    let loaded = load(alloc, input)?;
    let text = check_report(alloc, loaded.steps());
    drop(loaded);
    Ok(text?)
}

// The report on an accepted bundle with complete runs of so many steps.
fn check_report(alloc: Global, steps: u64) -> Result<Vec<u8>, AllocError>
    ensures { IfOk result (λ text. text.items ≡ check_report steps) }
{
    let mut text = Vec::new(alloc);
    put_figure(&mut text, b"accepted\nsteps", steps)?;
    text.extend_from_slice(b"\n")?;
    Ok(text)
}

// The text of the generated graph of so many tasks.
fn made_text(alloc: Global, tasks: u32) -> Result<Vec<u8>, Refusal>
    requires least { 1 ≤ tasks }
    requires most { tasks ≤ Limits.TASKS }
    ensures ok { IfOk result (λ output. output.items ≡ program_text (layered_program tasks)) }
    ensures refused { IfErr result (λ refusal. refusal ≡ Refusal.Memory) }
{
    let program = make(alloc, tasks)?;
    let text = print_program(alloc, &program);
    drop(program);
    Ok(text?)
}

// The figures of the generated graph of so many tasks, compiled for so many processors.
fn verified_text(alloc: Global, tasks: u32, processors: u32) -> Result<Vec<u8>, Refusal>
    requires some_tasks { 1 ≤ tasks }
    requires few_tasks { tasks ≤ Limits.TASKS }
    requires least_processors { Limits.LEAST_PROCESSORS ≤ processors }
    requires few_processors { processors ≤ Limits.PROCESSORS }
    ensures ok { IfOk result (λ output. IsSummaryText tasks processors output.items) }
    ensures safe { IfOk result (λ output. TellsVerified tasks processors output.items) }
    ensures refused { IfErr result (λ refusal. refusal ≡ Refusal.Memory) }
{
    let summary = verify_make(alloc, tasks, processors)?;
    Ok(summary_text(alloc, &summary)?)
}
