// How large a body is, and how much it does.
ghost use Rattle.std.specs.Prelude.{◌≡◌, ◌+◌, ◌*◌, ◌<◌, ◌≤◌, ◌^◌, min};
ghost use Rattle.pyr_body.specs.Seen.{expr_of, stmt_of, statements_of};
ghost use Rattle.pyr_body.specs.Size.{expr_nodes, stmt_nodes, statements_nodes};
ghost use Rattle.pyr_body.specs.Size.{stmt_work, statements_work};

use crate::{Body, Expr, Stmt};
use pyr_num::{Limits, TOO_MUCH, loop_work};

/// How many operations a run of the body makes: one for each expression and statement that it comes
/// to, and one for each turn of a loop. It takes no memory.
pub fn work(body: &Body) -> u64
    ensures exact { result ≡ statements_work body.now.statements }
    ensures few { result ≤ Limits.WORK }
{
    capped_work(body.statements())
}

/// How many expressions and statements the body has. It takes no memory.
pub fn nodes(body: &Body) -> u32
    ensures exact { result ≡ statements_nodes body.now.statements }
    ensures few { result ≤ Limits.NODES }
{
    statements_nodes(body.statements())
}

fn expr_nodes(expression: &Expr) -> u32
    requires { expr_nodes (expr_of expression.now) < 2 ^ 32 }
    ensures { result ≡ expr_nodes (expr_of expression.now) }
{
    match expression {
        Expr::Num(_) | Expr::Local(_) | Expr::Frame => 1,
        Expr::Get(_, index) => 1 + expr_nodes(index.get()),
        Expr::Bin(_, a, b) => 1 + expr_nodes(a.get()) + expr_nodes(b.get()),
        Expr::Sel(c, a, b) => 1 + expr_nodes(c.get()) + expr_nodes(a.get()) + expr_nodes(b.get()),
    }
}

#[cycle(nodes)]
fn statements_nodes(statements: &[Stmt]) -> u32
    requires { statements_nodes (statements_of statements.now) < 2 ^ 32 }
    ensures { result ≡ statements_nodes (statements_of statements.now) }
{
    let mut sum = 0;
    for statement in statements {
        sum += stmt_nodes(statement);
    }
    sum
}

#[cycle(nodes)]
fn stmt_nodes(statement: &Stmt) -> u32
    requires { stmt_nodes (stmt_of statement.now) < 2 ^ 32 }
    ensures { result ≡ stmt_nodes (stmt_of statement.now) }
{
    match statement {
        Stmt::Set(_, value) => 1 + expr_nodes(value),
        Stmt::Put(_, index, value) => 1 + expr_nodes(index) + expr_nodes(value),
        Stmt::For(_, _, turn) => 1 + statements_nodes(turn.as_slice()),
    }
}

/// The work of statements, counted no further than one past the limit.
#[cycle(work)]
pub fn capped_work(statements: &[Stmt]) -> u64
    requires { statements_nodes (statements_of statements.now) < 2 ^ 32 }
    ensures { result ≡ min (statements_work (statements_of statements.now)) TOO_MUCH }
{
    let mut sum = 0;
    for statement in statements {
        sum = u64::min(sum + stmt_work(statement), TOO_MUCH);
    }
    sum
}

#[cycle(work)]
fn stmt_work(statement: &Stmt) -> u64
    requires { stmt_nodes (stmt_of statement.now) < 2 ^ 32 }
    ensures { result ≡ min (stmt_work (stmt_of statement.now)) TOO_MUCH }
{
    match statement {
        Stmt::Set(_, value) => u64::min(1 + expr_nodes(value) as u64, TOO_MUCH),
        Stmt::Put(_, index, value) => {
            let index = expr_nodes(index) as u64;
            let value = expr_nodes(value) as u64;
            u64::min(1 + index + value, TOO_MUCH)
        }
        Stmt::For(_, count, turn) => loop_work(*count, capped_work(turn.as_slice())),
    }
}
