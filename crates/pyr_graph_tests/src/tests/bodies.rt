// Bodies of a task that reads `x` and writes `r`, read of their lines.
ghost use Rattle.std.specs.Prelude.{◌≡◌, IfOk, length};

use pyr_body::{Body, BodyReader, LineFault, SlotNames};
use pyr_lex::tokens;
use pyr_num::{Limits, Name};
use sqlite_items::Items;
use std::alloc::{AllocError, Global};
use std::process::Abort;

// Lines of a work of 1,000,000.
pub(crate) const MILLION: &str = "for i 27
for j 12345
set s = 0
done
done
";

pub(crate) fn x_and_r(rt: &impl Abort, alloc: Global) -> Result<SlotNames, AllocError>
    ensures reads { IfOk result (λ names. length names.reads ≡ 1) }
    ensures writes { IfOk result (λ names. length names.writes ≡ 1) }
{
    let x = Name::new(b"x").expect(rt, "a name");
    let r = Name::new(b"r").expect(rt, "a name");
    let reads = Items::from_slice(alloc, &[x])?;
    let writes = Items::from_slice(alloc, &[r])?;
    Ok(SlotNames { reads, writes })
}

// What the reader answers to a line of text.
fn take(
    rt: &impl Abort,
    alloc: Global,
    reader: &mut BodyReader,
    line: &str,
) -> Result<(), LineFault> {
    let line = line.as_bytes();
    assert!(rt; line.len() <= 1000);
    let tokens = tokens(alloc, line, 1).expect(rt, "tokens");
    reader.line(tokens.as_slice())
}

// Takes the lines of a text, and tells the first refusal, with which the reader stays.
fn refusal_of_lines(
    rt: &impl Abort,
    alloc: Global,
    reader: &mut BodyReader,
    text: &str,
) -> Option<LineFault> {
    for line in text.lines() {
        let fault = take(rt, alloc, reader, line).err();
        if fault.is_some() {
            let again = take(rt, alloc, reader, "set s = 1").err();
            assert!(rt; again == fault);
            return fault;
        }
    }
    None
}

// The body of these lines, where the bodies before it have so many nodes; or the first refusal of
// a line, with which the reader stays, or that of the end.
pub(crate) fn body_behind(
    rt: &impl Abort,
    alloc: Global,
    nodes_before: u32,
    text: &str,
) -> Result<Body, LineFault> {
    assert!(rt; nodes_before <= Limits::ALL_NODES);
    let names = x_and_r(rt, alloc)?;
    let mut reader = BodyReader::new(alloc, names, nodes_before)?;
    let Some(fault) = refusal_of_lines(rt, alloc, &mut reader, text) else {
        return reader.finish();
    };
    let last = reader.finish().err();
    assert!(rt; last.as_ref() == Some(&fault));
    Err(fault)
}

// The body of these lines.
pub(crate) fn body_of(rt: &impl Abort, alloc: Global, text: &str) -> Result<Body, LineFault> {
    body_behind(rt, alloc, 0, text)
}
