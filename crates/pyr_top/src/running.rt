// The output of the command that runs a bundle on threads.
ghost use Rattle.std.specs.Prelude.{◌≤◌, length, IfOk, IfErr};
ghost use Rattle.pyr_port.specs.Calls.{source_call};
ghost use Rattle.pyr_top.specs.declared.command.Command.TheVariants.{Run};
ghost use Rattle.pyr_top.specs.Answers.{IsRunOutput, IsTextOfLoaded, Refuses};
ghost use Rattle.pyr_top.specs.Headline.{RunsAsTold};
ghost use Rattle.pyr_top.specs.Responding.{IsOutput, LeavesSource, IsPrintedBy};

use crate::outputs_text::bundle_outputs;
use crate::streams::read_input;
use crate::{Command, Refusal};
use pyr_loader::load;
use pyr_machine::Loaded;
use pyr_num::Limits;
use pyr_port::Source;
use pyr_proc::{Pace, Processor};
use pyr_team::run_team;
use std::alloc::{AllocError, Global};
use std::sync::Wait;
use std::thread::Threads;

/// What the bundle prints whose text is left in the source.
pub(crate) fn output_of_run<S: Source, P: Pace, R: Threads + Wait + Sync>(
    rt: &R,
    alloc: Global,
    source: &mut S,
    pace: &P,
) -> Result<Vec<u8>, Refusal>
    ensures output { IfOk result (λ output. IsOutput Run (S.left source.old) output.items) }
    ensures source { LeavesSource Run (source_call S.left S.faults source.old source.new) result }
{
    let input = read_input(alloc, Command::Run, source)?;
    run_text(rt, alloc, &input, pace)
}

// What the bundle of a text prints that the loader accepts.
fn run_text<P: Pace, R: Threads + Wait + Sync>(
    rt: &R,
    alloc: Global,
    input: &[u8],
    pace: &P,
) -> Result<Vec<u8>, Refusal>
    requires { length input.now ≤ Limits.INPUT }
    ensures ok { IfOk result (λ output. IsTextOfLoaded IsRunOutput input.now output.items) }
    ensures safe { IfOk result (λ output. RunsAsTold input.now output.items) }
    ensures refused { IfErr result (Refuses Run input.now) }
{
    let loaded = load(alloc, input)?;
    let text = printed_text(rt, alloc, &loaded, pace);
    drop(loaded);
    Ok(text?)
}

// What a loaded bundle prints, its processors run by a team.
fn printed_text<P: Pace, R: Threads + Wait + Sync>(
    rt: &R,
    alloc: Global,
    loaded: &Loaded,
    pace: &P,
) -> Result<Vec<u8>, AllocError>
    ensures { IfOk result (λ text. IsPrintedBy loaded.now text.items) }
{
    loaded.is_good();
    let bundle = loaded.bundle();
    bundle.is_bundle();
    let processors = Processor::make(rt, alloc, loaded, 1)?;
    let team = run_team(rt, alloc, loaded, processors, pace)?;
    bundle_outputs(alloc, bundle, &team.outputs)
}
