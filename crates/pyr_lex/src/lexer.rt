// From the bytes of a line to its tokens.
ghost use Rattle.std.specs.Prelude.{◌≡◌, ◌<◌, ◌≤◌, length, vec_len, IfSome, IfOk, IfErr};
ghost use Rattle.std.specs.List.{prefix_len};
ghost use Rattle.pyr_num.specs.Name.{is_part};
ghost use Rattle.pyr_lex.specs.Line.{is_blank, AreTokensOf};
ghost use Rattle.pyr_lex.specs.Reading.{name_token, run_token, front_token, spanned_tokens_of};
ghost use Rattle.pyr_lex.specs.Outcome.{IsRefused, Gives};

use crate::{LexFault, SpannedToken, Symbol, Token, Word};
use pyr_decimal::number;
use pyr_num::{Limits, Name};
use std::alloc::Global;

// A space, a tab or a carriage return.
fn is_blank(byte: u8) -> bool
    ensures { result ≡ is_blank byte }
{
    matches!(byte, b' ' | b'\t' | b'\r')
}

// A letter, a digit or `_`.
fn is_part(byte: u8) -> bool
    ensures { result ≡ is_part byte }
{
    byte.is_ascii_alphanumeric() || byte == b'_'
}

// How many letters, digits and `_` the bytes begin with.
fn run_len(bytes: &[u8]) -> usize
    ensures run { result ≡ prefix_len is_part bytes.now }
    ensures within { result ≤ length bytes.now }
{
    bytes.iter().take_while(|byte| is_part(**byte)).count()
}

// The name with this text, if it is one.
fn name_token(text: &[u8]) -> Option<Token>
    ensures { result ≡ name_token text.now }
{
    Name::new(text).map(Token::Name)
}

// The name, the number or the word that a run of letters, digits and `_` is.
#[tactic(auto, unfolding(crate::specs::Reading::run_token))]
fn run_token(run: &[u8]) -> Option<Token>
    ensures { result ≡ run_token run.now }
{
    name_token(run)
        .or_else(|| number(run).map(Token::Number))
        .or_else(|| Word::from_text(run).map(Token::Word))
}

// The token at the front, and its length.
#[tactic(auto, unfolding(crate::specs::Reading::front_token))]
fn front_token(bytes: &[u8]) -> Option<(Token, usize)>
    ensures value { result ≡ front_token bytes.now }
    ensures some { IfSome result (λ t. 0 < t.1) }
    ensures within { IfSome result (λ t. t.1 ≤ length bytes.now) }
{
    let run = run_len(bytes);
    if run > 0 {
        let token = run_token(&bytes[..run])?;
        return Some((token, run));
    }
    let symbol = Symbol::at_front(bytes)?;
    Some((Token::Symbol(symbol), symbol.text().len()))
}

/// The tokens of a line, each with its place; a line without a token has the empty list. Each token
/// is the longest that begins at its place (longest match; Lesk, 1975), and a name, a number or a
/// reserved word takes all letters, digits and `_` that follow: `07` and `1a` are no tokens. The
/// line comes without its line feed, which belongs to no token; `number` is its number.
///
/// `BadText` carries that number, and comes exactly where something else stands in the line than
/// tokens, blanks and one comment behind them. `Memory` comes where memory ran out.
pub fn tokens(alloc: Global, line: &[u8], number: u32) -> Result<Vec<SpannedToken>, LexFault>
    requires { length line.now ≤ Limits.INPUT }
    ensures read { IfOk result (λ tokens. AreTokensOf line.now tokens.items) }
    ensures few { IfOk result (λ tokens. vec_len tokens ≤ length line.now) }
    ensures refused { IfErr result (IsRefused line.now number) }
    ensures value { Gives (spanned_tokens_of line.now) result }
{
    let mut tokens = Vec::new(alloc);
    let mut at = 0;
    while at < line.len() && line[at] != b'#' {
        if is_blank(line[at]) {
            at += 1;
            continue;
        }
        let Some((token, len)) = front_token(&line[at..]) else {
            return Err(LexFault::BadText { line: number });
        };
        tokens.push(SpannedToken {
            token,
            from: at as u32,
            to: (at + len) as u32,
        })?;
        at += len;
    }
    Ok(tokens)
}
