// The code of bodies: each expression and statement gives one op, behind the ops of its operands.
ghost use Rattle.std.specs.Prelude.{◌≡◌, ◌≤◌, ◌++◌, ◌∷◌, [], map, IfOk, OnOk};
ghost use Rattle.pyr_body.specs.Seen.{expr_of, stmt_of, statements_of};
ghost use Rattle.pyr_body.specs.Size.{statements_nodes, statements_work};
ghost use Rattle.pyr_code.specs.Seen.{op_of, code_of};
ghost use Rattle.pyr_code.specs.Size.{code_nodes, code_work};
ghost use Rattle.pyr_code.specs.Height.{greatest_height};
ghost use Rattle.pyr_code.specs.Verified.{IsVerified};
ghost use Rattle.pyr_bodygen.specs.Generated.{expr_ops, stmt_ops, statements_ops, generated};
ghost use Rattle.pyr_bodygen.specs.Agreement.{shape_of, SameMeaning};

use pyr_body::{Body, Expr, Stmt};
use pyr_code::{MAX_HEIGHT, Op, Shape, Verified, verify};
use sqlite_items::Items;
use std::alloc::{AllocError, Global};

/// The code of a body: one op for each expression and statement, in the order in which they are
/// evaluated. For every frame and all data it leaves what the body leaves, in as many steps as the
/// body makes operations, and its stack never holds more than `MAX_HEIGHT` words.
pub fn generate(alloc: Global, body: &Body) -> Result<Verified, AllocError>
    ensures shape { IfOk result (λ code. code.shape ≡ shape_of body.now) }
    ensures ops { IfOk result (λ code. code_of code.ops ≡ generated body.now.statements) }
    ensures same { IfOk result (λ code. SameMeaning body.now code) }
    ensures nodes { IfOk result (λ code.
        code_nodes (code_of code.ops) ≡ statements_nodes body.now.statements) }
    ensures work { IfOk result (λ code.
        code_work (code_of code.ops) ≡ statements_work body.now.statements) }
    ensures verified { IfOk result IsVerified }
    ensures height { IfOk result (λ code. greatest_height (code_of code.ops) 0 ≤ MAX_HEIGHT) }
{
    let ops = statements_ops(alloc, body.statements())?;
    let shape = Shape {
        reads: body.reads(),
        writes: body.writes(),
        locals: body.locals().len() as u32,
    };
    let Ok(code) = verify(ops, shape) else {
        unreachable!()
    };
    Ok(code)
}

// The ops of statements, in a list of their own.
#[cycle(statements)]
fn statements_ops(alloc: Global, statements: &[Stmt]) -> Result<Vec<Op>, AllocError>
    ensures { IfOk result (λ ops.
        map op_of ops.items ≡ statements_ops (statements_of statements.now)) }
{
    let mut ops = Vec::new(alloc);
    for statement in statements {
        push_stmt(alloc, &mut ops, statement)?;
    }
    Ok(ops)
}

// Pushes the ops of a statement behind those that are there.
#[cycle(statements)]
fn push_stmt(alloc: Global, ops: &mut Vec<Op>, statement: &Stmt) -> Result<(), AllocError>
    ensures { OnOk result (map op_of ops.new.items
        ≡ map op_of ops.old.items ++ stmt_ops (stmt_of statement.now)) }
{
    match statement {
        Stmt::Set(local, value) => {
            push_expr(ops, value)?;
            push_op(ops, Op::Store(u64::from(*local)))
        }
        Stmt::Put(output, index, value) => {
            push_expr(ops, index)?;
            push_expr(ops, value)?;
            push_op(ops, Op::Put(u64::from(*output)))
        }
        Stmt::For(local, count, turn) => {
            let turn = Items::from_vec(statements_ops(alloc, turn.as_slice())?);
            push_op(ops, Op::Loop(u64::from(*local), *count, turn))
        }
    }
}

// Pushes the ops of an expression.
fn push_expr(ops: &mut Vec<Op>, expression: &Expr) -> Result<(), AllocError>
    ensures { OnOk result (map op_of ops.new.items
        ≡ map op_of ops.old.items ++ expr_ops (expr_of expression.now)) }
{
    match expression {
        Expr::Num(word) => push_op(ops, Op::Push(*word)),
        Expr::Local(local) => push_op(ops, Op::Load(u64::from(*local))),
        Expr::Frame => push_op(ops, Op::Frame),
        Expr::Get(slot, index) => {
            push_expr(ops, index.get())?;
            push_op(ops, Op::Get(u64::from(*slot)))
        }
        Expr::Bin(operator, a, b) => {
            push_expr(ops, a.get())?;
            push_expr(ops, b.get())?;
            push_op(ops, Op::Bin(*operator))
        }
        Expr::Sel(c, a, b) => {
            push_expr(ops, c.get())?;
            push_expr(ops, a.get())?;
            push_expr(ops, b.get())?;
            push_op(ops, Op::Sel)
        }
    }
}

// Pushes one op.
fn push_op(ops: &mut Vec<Op>, op: Op) -> Result<(), AllocError>
    ensures { OnOk result (map op_of ops.new.items ≡ map op_of ops.old.items ++ op_of op ∷ []) }
{
    ops.push(op)?;
    Ok(())
}
