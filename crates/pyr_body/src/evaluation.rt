// The evaluator of bodies.
ghost use Rattle.std.specs.Prelude.{◌≡◌, ◌+◌, length, map};
ghost use Rattle.pyr_body.specs.Seen.{expr_of, stmt_of, statements_of};
ghost use Rattle.pyr_body.specs.Scope.{IsScoped, IsStmtScoped, AreScoped};
ghost use Rattle.pyr_body.specs.Meaning.{expr_value, after_stmt, after_statements, body_meaning};
ghost use Rattle.pyr_body.specs.Running.{state_of};

use crate::{Body, Expr, Stmt};
use pyr_num::{Cells, Limits, apply};

/// Runs the body in place: the outputs, zeros before, become those of its meaning, and all else
/// stays. It takes no memory.
pub fn evaluate(body: &Body, frame: u64, cells: &mut Cells)
    requires inputs { length cells.old.inputs ≡ body.now.reads }
    requires outputs { length cells.old.outputs ≡ body.now.writes }
    ensures value { cells.new ≡ record cells.old {
      outputs = body_meaning body.now frame cells.old.inputs cells.old.outputs;
    } }
    ensures lengths { map length cells.new.outputs ≡ map length cells.old.outputs }
    ensures count { length cells.new.outputs ≡ length cells.old.outputs }
{
    let mut locals = [0; Limits::LOCALS as usize];
    let locals = &mut locals[..body.locals().len()];
    run_statements(body.statements(), frame, locals, cells);
}

fn expr_value(expression: &Expr, frame: u64, locals: &[u64], cells: &Cells) -> u64
    requires { IsScoped (length cells.now.inputs + length cells.now.outputs) (length locals.now)
        (expr_of expression.now) }
    ensures { result ≡ expr_value frame cells.now.inputs (expr_of expression.now)
        (state_of locals.now cells.now) }
{
    match expression {
        Expr::Num(word) => *word,
        Expr::Local(local) => locals[*local as usize],
        Expr::Frame => frame,
        Expr::Get(slot, index) => cells.get(*slot, expr_value(index.get(), frame, locals, cells)),
        Expr::Bin(operator, a, b) => {
            let a = expr_value(a.get(), frame, locals, cells);
            let b = expr_value(b.get(), frame, locals, cells);
            apply(*operator, a, b)
        }
        Expr::Sel(c, a, b) => {
            let c = expr_value(c.get(), frame, locals, cells);
            let a = expr_value(a.get(), frame, locals, cells);
            let b = expr_value(b.get(), frame, locals, cells);
            if c == 0 { b } else { a }
        }
    }
}

#[cycle(run)]
fn run_statements(statements: &[Stmt], frame: u64, locals: &mut [u64], cells: &mut Cells)
    requires { AreScoped (length cells.old.inputs) (length cells.old.outputs) (length locals.old)
        (statements_of statements.now) }
    ensures state { after_statements frame cells.old.inputs (statements_of statements.now)
        (state_of locals.old cells.old) ≡ state_of locals.new cells.new }
    ensures rest { cells.new ≡ record cells.old { outputs = cells.new.outputs } }
    ensures lengths { map length cells.new.outputs ≡ map length cells.old.outputs }
    ensures count { length cells.new.outputs ≡ length cells.old.outputs }
{
    for statement in statements {
        run_stmt(statement, frame, locals, cells);
    }
}

#[cycle(run)]
fn run_stmt(statement: &Stmt, frame: u64, locals: &mut [u64], cells: &mut Cells)
    requires { IsStmtScoped (length cells.old.inputs) (length cells.old.outputs) (length locals.old)
        (stmt_of statement.now) }
    ensures state { after_stmt frame cells.old.inputs (stmt_of statement.now)
        (state_of locals.old cells.old) ≡ state_of locals.new cells.new }
    ensures rest { cells.new ≡ record cells.old { outputs = cells.new.outputs } }
    ensures lengths { map length cells.new.outputs ≡ map length cells.old.outputs }
    ensures count { length cells.new.outputs ≡ length cells.old.outputs }
{
    match statement {
        Stmt::Set(local, value) => {
            locals[*local as usize] = expr_value(value, frame, locals, cells);
        }
        Stmt::Put(output, index, value) => {
            let index = expr_value(index, frame, locals, cells);
            let value = expr_value(value, frame, locals, cells);
            cells.put(*output, index, value);
        }
        Stmt::For(local, count, turn) => {
            for k in 0..*count {
                locals[*local as usize] = k;
                run_statements(turn.as_slice(), frame, locals, cells);
            }
        }
    }
}
