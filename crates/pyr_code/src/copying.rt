ghost use Rattle.std.specs.Prelude.{◌≡◌, IfOk};

use crate::Op;
use sqlite_items::Items;
use std::alloc::{AllocError, Global};

/// An equal list, in memory of its own.
#[cycle(copy)]
pub fn copy_ops(alloc: Global, ops: &[Op]) -> Result<Vec<Op>, AllocError>
    ensures { IfOk result (λ copied. copied.items ≡ ops.now) }
{
    let mut copied = Vec::with_capacity(alloc, ops.len())?;
    for op in ops {
        copied.push(copy_op(alloc, op)?)?;
    }
    Ok(copied)
}

#[cycle(copy)]
fn copy_op(alloc: Global, op: &Op) -> Result<Op, AllocError>
    ensures { IfOk result (λ copied. copied ≡ op.now) }
{
    match op {
        Op::Push(word) => Ok(Op::Push(*word)),
        Op::Load(local) => Ok(Op::Load(*local)),
        Op::Store(local) => Ok(Op::Store(*local)),
        Op::Frame => Ok(Op::Frame),
        Op::Get(slot) => Ok(Op::Get(*slot)),
        Op::Put(output) => Ok(Op::Put(*output)),
        Op::Bin(operator) => Ok(Op::Bin(*operator)),
        Op::Sel => Ok(Op::Sel),
        Op::Loop(local, count, turn) => {
            let turn = copy_ops(alloc, turn.as_slice())?;
            Ok(Op::Loop(*local, *count, Items::from_vec(turn)))
        }
    }
}
