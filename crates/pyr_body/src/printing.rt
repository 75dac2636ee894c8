// The printer of bodies.
ghost use Rattle.std.specs.Prelude.{◌≡◌, ◌+◌, ◌<◌, [], ◌∷◌, ◌++◌, length, OnOk, IfOk};
ghost use Rattle.pyr_lex.specs.Token.{AreTokens};
ghost use Rattle.pyr_lex.specs.Spacing.{canonical_line};
ghost use Rattle.pyr_body.specs.Seen.{expr_of, stmt_of, statements_of};
ghost use Rattle.pyr_body.specs.Scope.{IsScoped, IsStmtScoped, AreScoped};
ghost use Rattle.pyr_body.specs.Lines.{SetLine, PutLine, DoneLine, stmt_lines, lines_of};
ghost use Rattle.pyr_body.specs.Written.{For as for_line};
ghost use Rattle.pyr_body.specs.Spelling.{expr_tokens, line_tokens};
ghost use Rattle.pyr_body.specs.Named.{name_at, with_names};
ghost use Rattle.pyr_body.specs.RoundTrip.{IsReadAgain};
ghost use Rattle.pyr_body.specs.Printed.{named_tokens, lines_text, AreLineTokens, body_text};

use crate::operators::operator_token;
use crate::{Body, Expr, SlotNames, Stmt};
use pyr_lex::{Symbol, Token, Word, write_line};
use pyr_num::Name;
use sqlite_items::Items;
use std::alloc::{AllocError, Global};

/// The canonical text of a body over data with these names.
pub fn print_body(alloc: Global, body: &Body, names: &SlotNames) -> Result<Vec<u8>, AllocError>
    requires reads { length names.now.reads ≡ body.now.reads }
    requires writes { length names.now.writes ≡ body.now.writes }
    ensures text { IfOk result (λ text. text.items
        ≡ body_text body.now names.now.reads names.now.writes) }
    ensures tokens { OnOk result (AreLineTokens body.now.locals names.now.reads names.now.writes
        (lines_of body.now.statements)) }
    ensures read_again { OnOk result (IsReadAgain body.now names.now.reads names.now.writes) }
{
    let mut out = Vec::new(alloc);
    print_statements(alloc, &mut out, body.statements(), body.locals(), names)?;
    Ok(out)
}

#[cycle(print)]
fn print_statements(
    alloc: Global,
    out: &mut Vec<u8>,
    statements: &[Stmt],
    locals: &[Name],
    names: &SlotNames,
) -> Result<(), AllocError>
    requires { AreScoped (length names.now.reads) (length names.now.writes) (length locals.now)
        (statements_of statements.now) }
    ensures text { OnOk result (out.new.items ≡ out.old.items
        ++ lines_text locals.now names.now.reads names.now.writes
        (lines_of (statements_of statements.now))) }
    ensures tokens { OnOk result (AreLineTokens locals.now names.now.reads names.now.writes
        (lines_of (statements_of statements.now))) }
{
    for statement in statements {
        print_stmt(alloc, out, statement, locals, names)?;
    }
    Ok(())
}

#[cycle(print)]
fn print_stmt(
    alloc: Global,
    out: &mut Vec<u8>,
    statement: &Stmt,
    locals: &[Name],
    names: &SlotNames,
) -> Result<(), AllocError>
    requires { IsStmtScoped (length names.now.reads) (length names.now.writes) (length locals.now)
        (stmt_of statement.now) }
    ensures text { OnOk result (out.new.items ≡ out.old.items
        ++ lines_text locals.now names.now.reads names.now.writes
        (stmt_lines (stmt_of statement.now))) }
    ensures tokens { OnOk result (AreLineTokens locals.now names.now.reads names.now.writes
        (stmt_lines (stmt_of statement.now))) }
{
    match statement {
        Stmt::Set(local, value) => {
            let line = set_tokens(alloc, *local, value, locals, names)?;
            write_line(out, line.as_slice())
        }
        Stmt::Put(output, index, value) => {
            let line = put_tokens(alloc, *output, index, value, locals, names)?;
            write_line(out, line.as_slice())
        }
        Stmt::For(local, count, turn) => {
            let line = for_tokens(alloc, locals[*local as usize], *count)?;
            print_loop(alloc, out, line.as_slice(), turn.as_slice(), locals, names)
        }
    }
}

// The lines of a loop, of which the first has these tokens.
#[cycle(print)]
fn print_loop(
    alloc: Global,
    out: &mut Vec<u8>,
    first: &[Token],
    turn: &[Stmt],
    locals: &[Name],
    names: &SlotNames,
) -> Result<(), AllocError>
    requires { AreScoped (length names.now.reads) (length names.now.writes) (length locals.now)
        (statements_of turn.now) }
    ensures text { OnOk result (out.new.items ≡ out.old.items
        ++ ((canonical_line first.now ++ 10 ∷ [])
        ++ lines_text locals.now names.now.reads names.now.writes
        (lines_of (statements_of turn.now) ++ DoneLine ∷ []))) }
    ensures first { OnOk result (AreTokens first.now) }
    ensures tokens { OnOk result (AreLineTokens locals.now names.now.reads names.now.writes
        (lines_of (statements_of turn.now) ++ DoneLine ∷ [])) }
{
    write_line(out, first)?;
    print_statements(alloc, out, turn, locals, names)?;
    write_line(out, &[Token::Word(Word::Done)])
}

// The tokens of a `for`.
fn for_tokens(alloc: Global, name: Name, count: u64) -> Result<Items<Token>, AllocError>
    ensures { IfOk result (λ line. line ≡ line_tokens (for_line name count)) }
{
    let mut line = Items::new(alloc);
    line.push(Token::Word(Word::For))?;
    line.push(Token::Name(name))?;
    line.push(Token::Number(count))?;
    Ok(line)
}

// The tokens of a `set`.
fn set_tokens(
    alloc: Global,
    local: u32,
    value: &Expr,
    locals: &[Name],
    names: &SlotNames,
) -> Result<Items<Token>, AllocError>
    requires local { local < length locals.now }
    requires value { IsScoped (length names.now.reads + length names.now.writes) (length locals.now)
        (expr_of value.now) }
    ensures { IfOk result (λ line. line ≡ named_tokens locals.now names.now.reads names.now.writes
        (SetLine local (expr_of value.now))) }
{
    let mut line = Items::new(alloc);
    line.push(Token::Word(Word::Set))?;
    line.push(Token::Name(locals[local as usize]))?;
    line.push(Token::Symbol(Symbol::Equal))?;
    push_expr(&mut line, value, locals, names)?;
    Ok(line)
}

// The tokens of a `put`.
fn put_tokens(
    alloc: Global,
    output: u32,
    index: &Expr,
    value: &Expr,
    locals: &[Name],
    names: &SlotNames,
) -> Result<Items<Token>, AllocError>
    requires output { output < length names.now.writes }
    requires index { IsScoped (length names.now.reads + length names.now.writes) (length locals.now)
        (expr_of index.now) }
    requires value { IsScoped (length names.now.reads + length names.now.writes) (length locals.now)
        (expr_of value.now) }
    ensures { IfOk result (λ line. line ≡ named_tokens locals.now names.now.reads names.now.writes
        (PutLine output (expr_of index.now) (expr_of value.now))) }
{
    let mut line = Items::new(alloc);
    line.push(Token::Word(Word::Put))?;
    line.push(Token::Name(names.writes.as_slice()[output as usize]))?;
    line.push(Token::Symbol(Symbol::BracketOpen))?;
    push_expr(&mut line, index, locals, names)?;
    line.push(Token::Symbol(Symbol::BracketClose))?;
    line.push(Token::Symbol(Symbol::Equal))?;
    push_expr(&mut line, value, locals, names)?;
    Ok(line)
}

// Appends the tokens of an expression.
fn push_expr(
    line: &mut Items<Token>,
    expression: &Expr,
    locals: &[Name],
    names: &SlotNames,
) -> Result<(), AllocError>
    requires { IsScoped (length names.now.reads + length names.now.writes) (length locals.now)
        (expr_of expression.now) }
    ensures { OnOk result (line.new ≡ line.old ++ expr_tokens (with_names locals.now
        (names.now.reads ++ names.now.writes) (expr_of expression.now))) }
{
    match expression {
        Expr::Num(word) => line.push(Token::Number(*word)),
        Expr::Local(local) => line.push(Token::Name(locals[*local as usize])),
        Expr::Frame => line.push(Token::Word(Word::Frame)),
        Expr::Get(slot, index) => {
            line.push(Token::Name(slot_name(names, *slot)))?;
            line.push(Token::Symbol(Symbol::BracketOpen))?;
            push_expr(line, index.get(), locals, names)?;
            line.push(Token::Symbol(Symbol::BracketClose))
        }
        Expr::Bin(operator, a, b) => {
            line.push(Token::Symbol(Symbol::ParenOpen))?;
            push_expr(line, a.get(), locals, names)?;
            line.push(operator_token(*operator))?;
            push_expr(line, b.get(), locals, names)?;
            line.push(Token::Symbol(Symbol::ParenClose))
        }
        Expr::Sel(c, a, b) => {
            line.push(Token::Symbol(Symbol::ParenOpen))?;
            push_expr(line, c.get(), locals, names)?;
            line.push(Token::Symbol(Symbol::Question))?;
            push_expr(line, a.get(), locals, names)?;
            line.push(Token::Symbol(Symbol::Colon))?;
            push_expr(line, b.get(), locals, names)?;
            line.push(Token::Symbol(Symbol::ParenClose))
        }
    }
}

// The name of a slot.
fn slot_name(names: &SlotNames, slot: u32) -> Name
    requires { slot < length names.now.reads + length names.now.writes }
    ensures { result ≡ name_at (names.now.reads ++ names.now.writes) slot }
{
    let slot = slot as usize;
    let reads = names.reads.len();
    if slot < reads {
        names.reads.as_slice()[slot]
    } else {
        names.writes.as_slice()[slot - reads]
    }
}
