// From the bytes of a line to what it says.
ghost use Rattle.std.specs.Prelude.{◌≡◌, ◌≤◌, length, option_and_then};
ghost use Rattle.pyr_lex.specs.Token.{tokens_in};
ghost use Rattle.pyr_lex.specs.Reading.{tokens_of};
ghost use Rattle.pyr_simul.specs.Given as spec;
ghost use Rattle.pyr_simul.specs.Taking.{GivesLine};

use crate::DurationFault;
use crate::duration_line::DurationLine;
use pyr_lex::{LexFault, SpannedToken, Token};
use pyr_num::Limits;
use std::alloc::Global;

// What three tokens say.
fn given_by(keyword: Token, name: Token, number: Token) -> Option<DurationLine>
    ensures { result ≡ spec.given_by keyword name number }
{
    let Token::Name(keyword) = keyword else {
        return None;
    };
    let Token::Name(name) = name else {
        return None;
    };
    let Token::Number(number) = number else {
        return None;
    };
    if keyword.bytes() == b"time".as_slice() {
        Some(DurationLine::Time(name, number))
    } else if keyword.bytes() == b"delay".as_slice() {
        Some(DurationLine::Delay(name, number))
    } else {
        None
    }
}

// What the tokens of a line say, if they are those of a line of durations.
fn said_by(tokens: &[SpannedToken]) -> Option<DurationLine>
    ensures { result ≡ spec.said_by (tokens_in tokens.now) }
{
    match tokens {
        [] => Some(DurationLine::Blank),
        [keyword, name, number] => given_by(keyword.token, name.token, number.token),
        _ => None,
    }
}

/// What the line of this number says, whatever stands before it.
pub(crate) fn read_line(
    alloc: Global,
    line: &[u8],
    number: u32,
) -> Result<DurationLine, DurationFault>
    requires { length line.now ≤ Limits.INPUT }
    ensures { GivesLine number result (option_and_then spec.said_by (tokens_of line.now)) }
{
    match pyr_lex::tokens(alloc, line, number) {
        Ok(tokens) => match said_by(tokens.as_slice()) {
            Some(said) => Ok(said),
            None => Err(DurationFault::BadText { line: number }),
        },
        Err(LexFault::BadText { line }) => Err(DurationFault::BadText { line }),
        Err(LexFault::Memory) => Err(DurationFault::Memory),
    }
}
