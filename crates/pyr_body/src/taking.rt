// A line of tokens, taken behind others.
ghost use Rattle.std.specs.Prelude.{◌≡◌, ◌+◌, ◌<◌, ◌≤◌, ◌^◌, length};
ghost use Rattle.pyr_lex.specs.Token.{tokens_in};
ghost use Rattle.pyr_lex.specs.Depth.{depth_of};
ghost use Rattle.pyr_body.specs.Written.{written_line_nodes, written_line_brackets};
ghost use Rattle.pyr_body.specs.WrittenSeen.{written_line_of};
ghost use Rattle.pyr_body.specs.Names.{Answers};
ghost use Rattle.pyr_body.specs.Reading.{line_at};
ghost use Rattle.pyr_body.specs.Taking.{after_line};
ghost use Rattle.pyr_body.specs.Reader.{GoesOn};
ghost use Rattle.pyr_body.specs.Computed.{after_tokens, after_form};

use crate::LineFault;
use crate::cursor::Cursor;
use crate::line_forms::line_form;
use crate::reading::Reading;
use crate::written_line::WrittenLine;
use pyr_lex::{SpannedToken, depth};
use pyr_num::{Limits, Quantity};
use std::alloc::Global;

/// What a reader is behind one line more: a refusal stays.
pub fn go_on(
    alloc: Global,
    state: Result<Reading, LineFault>,
    tokens: &[SpannedToken],
) -> Result<Reading, LineFault>
    requires { length tokens.now < 2 ^ 32 }
    ensures { GoesOn state (tokens_in tokens.now) result }
{
    take_tokens(alloc, state?, tokens)
}

// The lines with one more, or its refusal.
fn take_tokens(
    alloc: Global,
    reading: Reading,
    tokens: &[SpannedToken],
) -> Result<Reading, LineFault>
    requires { length tokens.now < 2 ^ 32 }
    ensures { Answers (λ r. r) result (after_tokens reading (tokens_in tokens.now)) }
{
    if tokens.is_empty() {
        return Ok(reading);
    }
    if depth(tokens) > Limits::DEPTH {
        return Err(LineFault::Limit {
            which: Quantity::Depth,
        });
    }
    take_form(alloc, reading, tokens)
}

fn take_form(alloc: Global, reading: Reading, tokens: &[SpannedToken]) -> Result<Reading, LineFault>
    requires length { length tokens.now < 2 ^ 32 }
    requires depth { depth_of (tokens_in tokens.now) ≤ Limits.DEPTH }
    ensures { Answers (λ r. r) result
        (after_form reading (line_at (Limits.DEPTH + 1) (tokens_in tokens.now))) }
{
    let mut cursor = Cursor::new(tokens);
    let line = line_form(alloc, Limits::DEPTH + 1, &mut cursor)?;
    take_line(alloc, reading, line)
}

fn take_line(alloc: Global, reading: Reading, line: WrittenLine) -> Result<Reading, LineFault>
    requires nodes { written_line_nodes (written_line_of line) < 2 ^ 32 }
    requires depth { written_line_brackets (written_line_of line) ≤ Limits.DEPTH }
    ensures { Answers (λ r. r) result (after_line reading (written_line_of line)) }
{
    match line {
        WrittenLine::Set(name, value) => reading.set(alloc, name, &value),
        WrittenLine::Put(name, index, value) => reading.put(alloc, name, &index, &value),
        WrittenLine::For(name, count) => reading.open(alloc, name, count),
        WrittenLine::Done => reading.close(),
    }
}
