// The reader of bundle texts.
ghost use Rattle.std.specs.Prelude.{◌≡◌, ◌≤◌, [], length, Ok, Err, OnOk, IfOk, IfErr};
ghost use Rattle.pyr_bundletext.specs.Answer.{StandsFor, IsFaultOf};
ghost use Rattle.pyr_bundletext.specs.Earlier.{said_by, raw_said};
ghost use Rattle.pyr_bundletext.specs.Tells.{TakesBytes};

use crate::BundleTextFault;
use crate::line_fault::LineFault;
use crate::line_reading::read_line;
use crate::reader::Reader;
use crate::words::first_line;
use pyr_bundle::RawBundle;
use pyr_num::Limits;
use std::alloc::Global;

/// The parts of the bundle that has this text, or the first fault of the text. Whether the parts
/// keep the laws is for `Bundle::build` to say.
///
/// A bundle has one text, which `print_bundle` writes: nothing else is accepted. It goes over the
/// text once, and doesn't copy it.
pub fn read_bundle(alloc: Global, text: &[u8]) -> Result<RawBundle, BundleTextFault>
    requires { length text.now ≤ Limits.INPUT }
    // parts come exactly where the text is theirs, want of memory apart
    ensures bundle { IfOk result (StandsFor text.now) }
    // each fault comes exactly where it is that of the first line that isn't fine
    ensures fault { IfErr result (IsFaultOf text.now) }
{
    let mut reader = Reader::new(alloc);
    let read = read_lines(alloc, &mut reader, text);
    let raw = reader.finish();
    read?;
    Ok(raw)
}

// Takes all lines of the text.
fn read_lines(alloc: Global, reader: &mut Reader, text: &[u8]) -> Result<(), BundleTextFault>
    requires fresh { reader.old ≡ said_by [] }
    requires limit { length text.now ≤ Limits.INPUT }
    ensures bundle { OnOk result (StandsFor text.now (raw_said reader.new)) }
    ensures fault { IfErr result (IsFaultOf text.now) }
{
    let mut rest = text;
    let mut number = 1u32;
    while !reader.is_stopped() {
        let Some((line, behind)) = first_line(rest) else {
            return Err(BundleTextFault::BadText { line: number });
        };
        match take_line(alloc, reader, line) {
            Ok(()) => {}
            Err(fault) => return Err(fault.at_line(number)),
        }
        rest = behind;
        number += 1;
    }
    if !rest.is_empty() {
        return Err(BundleTextFault::BadText { line: number });
    }
    Ok(())
}

// Takes the line with these bytes.
fn take_line(alloc: Global, reader: &mut Reader, line: &[u8]) -> Result<(), LineFault>
    ensures ok { OnOk result (TakesBytes reader.old line.now (Ok reader.new)) }
    ensures err { IfErr result (λ fault. TakesBytes reader.old line.now (Err fault)) }
{
    let line = read_line(alloc, line)?;
    reader.take(alloc, line)
}
