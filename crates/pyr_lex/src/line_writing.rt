// Tokens written out as canonical text.
ghost use Rattle.std.specs.Prelude.{◌≡◌, [], ◌∷◌, ◌++◌, OnOk};
ghost use Rattle.pyr_lex.specs.Token.{IsToken, AreTokens, token_text};
ghost use Rattle.pyr_lex.specs.Spacing.{is_tight, is_tight_behind, is_tight_before, gap_before, canonical_line};

use crate::{Symbol, Token};
use pyr_decimal::put_decimal;
use std::alloc::AllocError;

/// Appends the canonical text of a line with these tokens, and its line feed.
pub fn write_line(out: &mut Vec<u8>, tokens: &[Token]) -> Result<(), AllocError>
    ensures text { OnOk result (out.new.items
        ≡ out.old.items ++ (canonical_line tokens.now ++ 10 ∷ [])) }
    ensures tokens { OnOk result (AreTokens tokens.now) }
{
    let mut last: Option<Token> = None;
    for token in tokens {
        write_gap(out, last, *token)?;
        write_token(out, *token)?;
        last = Some(*token);
    }
    out.push(b'\n')?;
    Ok(())
}

// The space before a token, where one stands between it and the last one.
fn write_gap(out: &mut Vec<u8>, last: Option<Token>, token: Token) -> Result<(), AllocError>
    ensures { OnOk result (out.new.items ≡ out.old.items ++ gap_before last token) }
{
    if let Some(before) = last
        && !is_tight(before, token)
    {
        out.push(b' ')?;
    }
    Ok(())
}

fn write_token(out: &mut Vec<u8>, token: Token) -> Result<(), AllocError>
    ensures text { OnOk result (out.new.items ≡ out.old.items ++ token_text token) }
    ensures token { OnOk result (IsToken token) }
{
    match token {
        Token::Name(name) => out.extend_from_slice(name.bytes()),
        Token::Number(number) => put_decimal(out, number),
        Token::Word(word) => out.extend_from_slice(word.text()),
        Token::Symbol(symbol) => out.extend_from_slice(symbol.text()),
    }
}

// No space stands between these tokens.
fn is_tight(before: Token, token: Token) -> bool
    ensures { result ≡ is_tight before token }
{
    is_tight_behind(before) || is_tight_before(token)
}

fn is_tight_behind(token: Token) -> bool
    ensures { result ≡ is_tight_behind token }
{
    match token {
        Token::Symbol(symbol) => matches!(symbol, Symbol::ParenOpen | Symbol::BracketOpen),
        _ => false,
    }
}

fn is_tight_before(token: Token) -> bool
    ensures { result ≡ is_tight_before token }
{
    match token {
        Token::Symbol(symbol) => matches!(
            symbol,
            Symbol::ParenClose | Symbol::BracketOpen | Symbol::BracketClose
        ),
        _ => false,
    }
}
