// The work of code and the greatest height of its stack.
ghost use Rattle.std.specs.Prelude.{◌≡◌, ◌<◌, ◌≤◌, ◌^◌};
ghost use Rattle.pyr_code.specs.Seen.{op_of, code_of};
ghost use Rattle.pyr_code.specs.Size.{op_work, code_work};
ghost use Rattle.pyr_code.specs.Height.{height_after, height_after_op};
ghost use Rattle.pyr_code.specs.Height.{greatest_height, greatest_height_op};
ghost use Rattle.pyr_code.specs.WellFormed.{IsFine, IsFineOp};

use crate::effect::{words_popped, words_pushed};
use crate::{MAX_HEIGHT, Op, Shape};

#[cycle(work)]
pub fn ops_work(ops: &[Op]) -> u64
    requires { code_work (code_of ops.now) < 2 ^ 64 }
    ensures { result ≡ code_work (code_of ops.now) }
{
    let mut sum = 0;
    for op in ops {
        sum += one_work(op);
    }
    sum
}

#[cycle(work)]
fn one_work(op: &Op) -> u64
    requires { op_work (op_of op.now) < 2 ^ 64 }
    ensures { result ≡ op_work (op_of op.now) }
{
    match op {
        Op::Loop(_, 0, _) => 1,
        Op::Loop(_, count, turn) => 1 + *count * (1 + ops_work(turn.as_slice())),
        _ => 1,
    }
}

/// The height of the stack after the ops, and the greatest on the way.
#[cycle(heights)]
pub fn ops_heights(ops: &[Op], shape: Shape, height: u32) -> (u32, u32)
    requires low { height ≤ MAX_HEIGHT }
    requires fine { IsFine shape.reads shape.writes shape.locals (code_of ops.now) height }
    ensures after { result.0 ≡ height_after (code_of ops.now) height }
    ensures greatest { result.1 ≡ greatest_height (code_of ops.now) height }
    ensures low { result.0 ≤ MAX_HEIGHT }
{
    let mut after = height;
    let mut greatest = height;
    for op in ops {
        let (next, peak) = one_heights(op, shape, after);
        after = next;
        greatest = greatest.max(peak);
    }
    (after, greatest)
}

#[cycle(heights)]
fn one_heights(op: &Op, shape: Shape, height: u32) -> (u32, u32)
    requires low { height ≤ MAX_HEIGHT }
    requires fine { IsFineOp shape.reads shape.writes shape.locals (op_of op.now) height }
    ensures after { result.0 ≡ height_after_op (op_of op.now) height }
    ensures greatest { result.1 ≡ greatest_height_op (op_of op.now) height }
    ensures low { result.0 ≤ MAX_HEIGHT }
{
    match op {
        Op::Loop(_, _, turn) => {
            let (_, greatest) = ops_heights(turn.as_slice(), shape, height);
            (height, greatest)
        }
        _ => {
            let after = height - words_popped(op) + words_pushed(op);
            (after, after.max(height))
        }
    }
}
