// What a call does with its streams: reading the input, writing the output, telling a refusal.
ghost use Rattle.std.specs.Prelude.{◌≡◌, ◌≤◌, IfOk, vec_len};
ghost use Rattle.pyr_port.specs.Calls.{source_call, sink_call};
ghost use Rattle.pyr_top.specs.Refusals.{line_of};
ghost use Rattle.pyr_top.specs.Endings.{Tells, IsTold};
ghost use Rattle.pyr_top.specs.Responding.{IsInput, LeavesSource, IsDelivered};

use crate::load_messages::load_line;
use crate::messages::fault_line;
use crate::{Command, Refusal, Status};
use pyr_num::Limits;
use pyr_port::{Sink, Source, read_all, write_all};
use std::alloc::Global;

/// The input of the command: what is left in the source, or nothing where it has none.
pub(crate) fn read_input<S: Source>(
    alloc: Global,
    command: Command,
    source: &mut S,
) -> Result<Vec<u8>, Refusal>
    ensures input { IfOk result (λ bytes. IsInput command (S.left source.old) bytes.items) }
    ensures fits { IfOk result (λ bytes. vec_len bytes ≤ Limits.INPUT) }
    ensures source { LeavesSource command (source_call S.left S.faults source.old source.new) result }
{
    if !command.has_input() {
        return Ok(Vec::new(alloc));
    }
    Ok(read_all(alloc, source, Limits::INPUT)?)
}

/// Delivers what a command gave: writes its output to `out`, or tells on `err` why there is none.
pub(crate) fn deliver<O: Sink, E: Sink>(
    alloc: Global,
    given: Result<Vec<u8>, Refusal>,
    out: &mut O,
    err: &mut E,
) -> Status
    ensures { IsDelivered given (sink_call O.written O.faults out.old out.new)
        (sink_call E.written E.faults err.old err.new) result }
{
    match given {
        Ok(output) => match write_all(out, &output) {
            Ok(()) => Status::Ok,
            Err(_) => refuse(alloc, &Refusal::Sink, err),
        },
        Err(refusal) => refuse(alloc, &refusal, err),
    }
}

/// Tells a refusal on `err`, and answers its status. Where its line has to be made and memory runs
/// out, that is told.
pub(crate) fn refuse<E: Sink>(alloc: Global, refusal: &Refusal, err: &mut E) -> Status
    ensures { IsTold refusal.now (sink_call E.written E.faults err.old err.new) result }
{
    if let Some(line) = refusal.fixed_line() {
        return tell(refusal, line, err);
    }
    match refusal {
        Refusal::Program(fault) => match fault_line(alloc, fault) {
            Ok(line) => tell(refusal, &line, err),
            Err(_) => tell(&Refusal::Memory, b"no memory\n", err),
        },
        Refusal::Load(fault) => match load_line(alloc, fault) {
            Ok(line) => tell(refusal, &line, err),
            Err(_) => tell(&Refusal::Memory, b"no memory\n", err),
        },
        _ => unreachable!(),
    }
}

// Tells this line of a refusal.
fn tell<E: Sink>(told: &Refusal, line: &[u8], err: &mut E) -> Status
    requires { line.now ≡ line_of told.now }
    ensures { Tells told.now (sink_call E.written E.faults err.old err.new) result }
{
    let _ = write_all(err, line);
    told.status()
}
