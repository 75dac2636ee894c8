// The lines of bodies from their tokens.
ghost use Rattle.std.specs.Prelude.{◌≡◌};
ghost use Rattle.pyr_body.specs.WrittenSeen.{written_of, written_line_of};
ghost use Rattle.pyr_body.specs.Reading.{Gives, name_at, number_at, after_equal, after_open};
ghost use Rattle.pyr_body.specs.Reading.{ended, last_expr, set_at, put_at, for_at, line_at};
ghost use Rattle.pyr_body.specs.Written.{Done};

use crate::LineFault;
use crate::cursor::Cursor;
use crate::expressions::{expression_at, until_bracket};
use crate::written_expr::WrittenExpr;
use crate::written_line::WrittenLine;
use pyr_lex::{Symbol, Token, Word};
use pyr_num::Name;
use std::alloc::Global;

/// The line that the tokens are, with fewer than so many brackets open at once.
pub fn line_form(alloc: Global, depth: u32, tokens: &mut Cursor) -> Result<WrittenLine, LineFault>
    ensures { Gives written_line_of result (line_at depth tokens.old) }
{
    match tokens.next() {
        Some(Token::Word(Word::Set)) => set_form(alloc, depth, tokens),
        Some(Token::Word(Word::Put)) => put_form(alloc, depth, tokens),
        Some(Token::Word(Word::For)) => for_form(tokens),
        Some(Token::Word(Word::Done)) => done_form(tokens),
        _ => Err(LineFault::Text),
    }
}

fn set_form(alloc: Global, depth: u32, tokens: &mut Cursor) -> Result<WrittenLine, LineFault>
    ensures { Gives written_line_of result (set_at depth tokens.old) }
{
    let name = name(tokens)?;
    equal(tokens)?;
    let value = last_expr(alloc, depth, tokens)?;
    Ok(WrittenLine::Set(name, value))
}

fn put_form(alloc: Global, depth: u32, tokens: &mut Cursor) -> Result<WrittenLine, LineFault>
    ensures { Gives written_line_of result (put_at depth tokens.old) }
{
    let name = name(tokens)?;
    open(tokens)?;
    let index = until_bracket(alloc, depth, tokens)?;
    equal(tokens)?;
    let value = last_expr(alloc, depth, tokens)?;
    Ok(WrittenLine::Put(name, index, value))
}

fn for_form(tokens: &mut Cursor) -> Result<WrittenLine, LineFault>
    ensures { Gives written_line_of result (for_at tokens.old) }
{
    let name = name(tokens)?;
    let count = number(tokens)?;
    end(tokens)?;
    Ok(WrittenLine::For(name, count))
}

fn done_form(tokens: &mut Cursor) -> Result<WrittenLine, LineFault>
    ensures { Gives written_line_of result (ended tokens.old Done) }
{
    end(tokens)?;
    Ok(WrittenLine::Done)
}

fn last_expr(alloc: Global, depth: u32, tokens: &mut Cursor) -> Result<WrittenExpr, LineFault>
    ensures { Gives written_of result (last_expr depth tokens.old) }
{
    let value = expression_at(alloc, depth, tokens)?;
    end(tokens)?;
    Ok(value)
}

fn end(tokens: &mut Cursor) -> Result<(), LineFault>
    ensures { Gives (λ _. tt {0}) result (ended tokens.old (tt {0})) }
{
    match tokens.next() {
        None => Ok(()),
        Some(_) => Err(LineFault::Text),
    }
}

fn name(tokens: &mut Cursor) -> Result<Name, LineFault>
    ensures { Gives (λ name. (name, tokens.new)) result (name_at tokens.old) }
{
    match tokens.next().ok_or(LineFault::Text)? {
        Token::Name(name) => Ok(name),
        _ => Err(LineFault::Text),
    }
}

fn number(tokens: &mut Cursor) -> Result<u64, LineFault>
    ensures { Gives (λ n. (n, tokens.new)) result (number_at tokens.old) }
{
    match tokens.next() {
        Some(Token::Number(n)) => Ok(n),
        _ => Err(LineFault::Text),
    }
}

fn equal(tokens: &mut Cursor) -> Result<(), LineFault>
    ensures { Gives (λ _. tokens.new) result (after_equal tokens.old) }
{
    match tokens.next() {
        Some(Token::Symbol(Symbol::Equal)) => Ok(()),
        _ => Err(LineFault::Text),
    }
}

fn open(tokens: &mut Cursor) -> Result<(), LineFault>
    ensures { Gives (λ _. tokens.new) result (after_open tokens.old) }
{
    match tokens.next() {
        Some(Token::Symbol(Symbol::BracketOpen)) => Ok(()),
        _ => Err(LineFault::Text),
    }
}
