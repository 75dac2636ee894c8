// Expressions from their tokens.
ghost use Rattle.std.specs.Prelude.{◌≡◌, suc};
ghost use Rattle.pyr_body.specs.WrittenSeen.{written_of};
ghost use Rattle.pyr_body.specs.Reading.{Gives, Finds, expr_at, until_paren, until_bracket};
ghost use Rattle.pyr_body.specs.Reading.{until_colon, named_from, apply_from, select_from};
ghost use Rattle.pyr_body.specs.Reading.{operands_from, group_from, after_paren, after_bracket};
ghost use Rattle.pyr_body.specs.Reading.{after_colon};

use crate::LineFault;
use crate::cursor::Cursor;
use crate::operators::token_operator;
use crate::written_expr::WrittenExpr;
use pyr_lex::{Symbol, Token, Word};
use pyr_num::{Bin, Name};
use sqlite_items::Boxed;
use std::alloc::Global;

/// The expression at the front, with fewer than so many brackets open at once.
#[cycle(expression)]
pub fn expression_at(
    alloc: Global,
    depth: u32,
    tokens: &mut Cursor,
) -> Result<WrittenExpr, LineFault>
    ensures { Finds result tokens.new (expr_at depth tokens.old) }
{
    if depth == 0 {
        return Err(LineFault::Text);
    }
    expression_from(alloc, depth - 1, tokens)
}

#[cycle(expression)]
fn expression_from(alloc: Global, depth: u32, tokens: &mut Cursor) -> Result<WrittenExpr, LineFault>
    ensures { Finds result tokens.new (expr_at (suc depth) tokens.old) }
{
    match tokens.next().ok_or(LineFault::Text)? {
        Token::Number(word) => Ok(WrittenExpr::Num(word)),
        Token::Name(name) => named(alloc, depth, tokens, name),
        Token::Word(word) => match word {
            Word::Frame => Ok(WrittenExpr::Frame),
            _ => Err(LineFault::Text),
        },
        Token::Symbol(symbol) => match symbol {
            Symbol::ParenOpen => group(alloc, depth, tokens),
            _ => Err(LineFault::Text),
        },
    }
}

// What follows a name.
#[cycle(expression)]
fn named(
    alloc: Global,
    depth: u32,
    tokens: &mut Cursor,
    name: Name,
) -> Result<WrittenExpr, LineFault>
    ensures { Finds result tokens.new (named_from (expr_at depth) name tokens.old) }
{
    if !tokens.take_bracket() {
        return Ok(WrittenExpr::Local(name));
    }
    let index = until_bracket(alloc, depth, tokens)?;
    let index = Boxed::new(alloc, index)?;
    Ok(WrittenExpr::Get(name, index))
}

#[cycle(expression)]
fn group(alloc: Global, depth: u32, tokens: &mut Cursor) -> Result<WrittenExpr, LineFault>
    ensures { Finds result tokens.new (group_from (expr_at depth) tokens.old) }
{
    let first = expression_at(alloc, depth, tokens)?;
    operands(alloc, depth, tokens, Boxed::new(alloc, first)?)
}

// What follows the first operand.
#[cycle(expression)]
fn operands(
    alloc: Global,
    depth: u32,
    tokens: &mut Cursor,
    first: Boxed<WrittenExpr>,
) -> Result<WrittenExpr, LineFault>
    ensures { Finds result tokens.new
        (operands_from (expr_at depth) (written_of first) tokens.old) }
{
    match tokens.next() {
        Some(Token::Symbol(Symbol::Question)) => select(alloc, depth, tokens, first),
        Some(token) => match token_operator(token) {
            Some(operator) => apply(alloc, depth, tokens, first, operator),
            None => Err(LineFault::Text),
        },
        None => Err(LineFault::Text),
    }
}

#[cycle(expression)]
fn apply(
    alloc: Global,
    depth: u32,
    tokens: &mut Cursor,
    first: Boxed<WrittenExpr>,
    operator: Bin,
) -> Result<WrittenExpr, LineFault>
    ensures { Finds result tokens.new
        (apply_from (expr_at depth) (written_of first) operator tokens.old) }
{
    let second = until_paren(alloc, depth, tokens)?;
    Ok(WrittenExpr::Bin(operator, first, second))
}

#[cycle(expression)]
fn select(
    alloc: Global,
    depth: u32,
    tokens: &mut Cursor,
    first: Boxed<WrittenExpr>,
) -> Result<WrittenExpr, LineFault>
    ensures { Finds result tokens.new (select_from (expr_at depth) (written_of first) tokens.old) }
{
    let second = until_colon(alloc, depth, tokens)?;
    let third = until_paren(alloc, depth, tokens)?;
    Ok(WrittenExpr::Sel(first, second, third))
}

#[cycle(expression)]
fn until_paren(
    alloc: Global,
    depth: u32,
    tokens: &mut Cursor,
) -> Result<Boxed<WrittenExpr>, LineFault>
    ensures { Finds result tokens.new (until_paren (expr_at depth) tokens.old) }
{
    let expression = expression_at(alloc, depth, tokens)?;
    close_paren(tokens)?;
    Ok(Boxed::new(alloc, expression)?)
}

#[cycle(expression)]
pub(crate) fn until_bracket(
    alloc: Global,
    depth: u32,
    tokens: &mut Cursor,
) -> Result<WrittenExpr, LineFault>
    ensures { Finds result tokens.new (until_bracket (expr_at depth) tokens.old) }
{
    let expression = expression_at(alloc, depth, tokens)?;
    close_bracket(tokens)?;
    Ok(expression)
}

#[cycle(expression)]
fn until_colon(
    alloc: Global,
    depth: u32,
    tokens: &mut Cursor,
) -> Result<Boxed<WrittenExpr>, LineFault>
    ensures { Finds result tokens.new (until_colon (expr_at depth) tokens.old) }
{
    let expression = expression_at(alloc, depth, tokens)?;
    colon(tokens)?;
    Ok(Boxed::new(alloc, expression)?)
}

fn close_paren(tokens: &mut Cursor) -> Result<(), LineFault>
    ensures { Gives (λ _. tokens.new) result (after_paren tokens.old) }
{
    match tokens.next() {
        Some(Token::Symbol(Symbol::ParenClose)) => Ok(()),
        _ => Err(LineFault::Text),
    }
}

fn close_bracket(tokens: &mut Cursor) -> Result<(), LineFault>
    ensures { Gives (λ _. tokens.new) result (after_bracket tokens.old) }
{
    match tokens.next() {
        Some(Token::Symbol(Symbol::BracketClose)) => Ok(()),
        _ => Err(LineFault::Text),
    }
}

fn colon(tokens: &mut Cursor) -> Result<(), LineFault>
    ensures { Gives (λ _. tokens.new) result (after_colon tokens.old) }
{
    match tokens.next() {
        Some(Token::Symbol(Symbol::Colon)) => Ok(()),
        _ => Err(LineFault::Text),
    }
}
