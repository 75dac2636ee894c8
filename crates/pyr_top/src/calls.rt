// The three public calls.
ghost use Rattle.std.specs.Prelude.{IsTrue};
ghost use Rattle.pyr_port.specs.Calls.{source_call, sink_call};
ghost use Rattle.pyr_top.specs.declared.command.Command.TheVariants.{Run};
ghost use Rattle.pyr_top.specs.Commands.{texts, spelling, uses_threads, IsWithinRange, AsksForThreads};
ghost use Rattle.pyr_top.specs.Calls.{IsCall};

use crate::command::read_command;
use crate::command_outputs::output_for;
use crate::running::output_of_run;
use crate::streams::{deliver, refuse};
use crate::{Command, Refusal, Status};
use pyr_port::{Sink, Source};
use pyr_proc::Pace;
use std::alloc::Global;
use std::sync::Wait;
use std::thread::Threads;

/// The top call: does what the words ask for. Where that is a command that starts threads, it may wait
/// for them; else it does what `answer` does, and returns.
pub fn pyrros<S: Source, O: Sink, E: Sink, P: Pace, R: Threads + Wait + Sync>(
    rt: &R,
    alloc: Global,
    words: &[String],
    source: &mut S,
    out: &mut O,
    err: &mut E,
    pace: &P,
) -> Status
    ensures { IsCall (texts words.now) (source_call S.left S.faults source.old source.new)
        (sink_call O.written O.faults out.old out.new)
        (sink_call E.written E.faults err.old err.new) result }
{
    match read_command(words) {
        Some(Command::Run) => run_command(rt, alloc, source, out, err, pace),
        Some(command) => answer_command(alloc, command, source, out, err),
        None => refuse(alloc, &Refusal::Usage, err),
    }
}

/// Does what the words ask for, where that starts no threads: reads the source to its end, writes the
/// output to `out`, and where it can't, one line on the cause to `err`. It always returns. It takes no
/// memory where the words are no command.
pub fn answer<S: Source, O: Sink, E: Sink>(
    alloc: Global,
    words: &[String],
    source: &mut S,
    out: &mut O,
    err: &mut E,
) -> Status
    requires { ¬ AsksForThreads (texts words.now) }
    ensures { IsCall (texts words.now) (source_call S.left S.faults source.old source.new)
        (sink_call O.written O.faults out.old out.new)
        (sink_call E.written E.faults err.old err.new) result }
{
    match read_command(words) {
        Some(command) => answer_command(alloc, command, source, out, err),
        None => refuse(alloc, &Refusal::Usage, err),
    }
}

/// Runs the bundle whose text is in the source: reads that to its end, runs each processor but the
/// first on a thread of its own, and writes the printed data to `out`; where it can't, it writes one
/// line on the cause to `err`. It may wait for the threads.
pub fn run_command<S: Source, O: Sink, E: Sink, P: Pace, R: Threads + Wait + Sync>(
    rt: &R,
    alloc: Global,
    source: &mut S,
    out: &mut O,
    err: &mut E,
    pace: &P,
) -> Status
    ensures { IsCall (spelling Run) (source_call S.left S.faults source.old source.new)
        (sink_call O.written O.faults out.old out.new)
        (sink_call E.written E.faults err.old err.new) result }
{
    let given = output_of_run(rt, alloc, source, pace);
    deliver(alloc, given, out, err)
}

// Does what a command asks for that starts no threads.
fn answer_command<S: Source, O: Sink, E: Sink>(
    alloc: Global,
    command: Command,
    source: &mut S,
    out: &mut O,
    err: &mut E,
) -> Status
    requires range { IsWithinRange command }
    requires alone { ¬ IsTrue (uses_threads command) }
    ensures { IsCall (spelling command) (source_call S.left S.faults source.old source.new)
        (sink_call O.written O.faults out.old out.new)
        (sink_call E.written E.faults err.old err.new) result }
{
    let given = output_for(alloc, command, source);
    deliver(alloc, given, out, err)
}
