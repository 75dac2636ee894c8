// The reader of graph texts.
ghost use Rattle.std.specs.Prelude.{◌≡◌, ◌≤◌, Ok, OnOk, IfOk, IfErr, length};
ghost use Rattle.pyr_graphtext.specs.Answer.{StandsFor, IsFaultOf};
ghost use Rattle.pyr_graphtext.specs.Seen.{no_lines};
ghost use Rattle.pyr_graphtext.specs.Finishing.{ReadsLines};

use crate::reader::Reader;
use crate::text_lines::first_line;
use crate::{Program, ProgramFault};
use pyr_num::Limits;
use std::alloc::Global;

/// The program that a graph text stands for, or its first fault: that of the first faulty line,
/// whatever stands behind it, and where no line is faulty that of the whole text. The end of the
/// text counts as one line more, which is faulty where a task is open.
///
/// It goes over the text once. Beside the program it takes memory for a table of the names, and for
/// the tokens of one line; the text isn't copied.
pub fn read_program(alloc: Global, text: &[u8]) -> Result<Program, ProgramFault>
    requires { length text.now ≤ Limits.INPUT }
    // a program comes exactly where the text stands for one, want of memory apart
    ensures program { IfOk result (StandsFor text.now) }
    // each fault comes exactly where it is the first one
    ensures fault { IfErr result (IsFaultOf text.now) }
{
    let reader = read_lines(alloc, text)?;
    reader.finish(alloc)
}

// Reads all lines.
fn read_lines(alloc: Global, text: &[u8]) -> Result<Reader, ProgramFault>
    requires { length text.now ≤ Limits.INPUT }
    ensures { ReadsLines text.now result }
{
    let mut reader = Reader::new(alloc);
    match take_lines(alloc, &mut reader, text) {
        Ok(()) => Ok(reader),
        Err(fault) => {
            drop(reader);
            Err(fault)
        }
    }
}

// Has a reader that took no line take all lines.
fn take_lines(alloc: Global, reader: &mut Reader, text: &[u8]) -> Result<(), ProgramFault>
    requires new { reader.old ≡ no_lines }
    requires short { length text.now ≤ Limits.INPUT }
    ensures read { OnOk result (ReadsLines text.now (Ok reader.new)) }
    ensures fault { IfErr result (IsFaultOf text.now) }
{
    let mut rest = text;
    let mut number = 1u32;
    while !rest.is_empty() {
        let (line, behind) = first_line(rest);
        match reader.line(alloc, line) {
            Ok(()) => {}
            Err(fault) => return Err(fault.at_line(number)),
        }
        rest = behind;
        number += 1;
    }
    if reader.is_open() {
        return Err(ProgramFault::BadText { line: number });
    }
    Ok(())
}
