// Writing all of some bytes.
ghost use Rattle.std.specs.Prelude.{◌≤◌, OnOk, OnErr};
ghost use Rattle.std.specs.Io.KnownBytes.{Appends};
ghost use Rattle.pyr_port.specs.Causes.{Rose};
ghost use Rattle.pyr_port.specs.Giving.{AppendsPrefix};

use crate::{Failed, Sink};

/// The sink failed.
#[derive(Clone, Copy, Debug, PartialEq, Eq)]
pub struct SinkFault;

impl From<Failed> for SinkFault {
    fn from(_: Failed) -> Self {
        SinkFault
    }
}

/// Appends all the bytes, or a prefix of them where the sink fails. It takes no memory.
pub fn write_all<O: Sink>(sink: &mut O, bytes: &[u8]) -> Result<(), SinkFault>
    ensures all { OnOk result (Appends (O.written sink.old) (O.written sink.new) bytes.now) }
    ensures prefix { OnErr result
        (AppendsPrefix (O.written sink.old) (O.written sink.new) bytes.now) }
    ensures failed { OnErr result (Rose (O.faults sink.old) (O.faults sink.new)) }
    ensures later { O.faults sink.old ≤ O.faults sink.new }
{
    let mut rest = bytes;
    while !rest.is_empty() {
        let count = sink.give(rest)?;
        rest = &rest[count..];
    }
    Ok(())
}
