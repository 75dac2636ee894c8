// What an op names, and what it does to the height of the stack.
ghost use Rattle.std.specs.Prelude.{◌≡◌};
ghost use Rattle.pyr_code.specs.Seen.{op_of};
ghost use Rattle.pyr_code.specs.Height.{popped, pushed};
ghost use Rattle.pyr_code.specs.Fault.{has_local, has_slot};

use crate::{Op, Shape};

/// How many words the op pops.
pub fn words_popped(op: &Op) -> u32
    ensures { result ≡ popped (op_of op.now) }
{
    match op {
        Op::Push(_) | Op::Load(_) | Op::Frame | Op::Loop(_, _, _) => 0,
        Op::Store(_) | Op::Get(_) => 1,
        Op::Put(_) | Op::Bin(_) => 2,
        Op::Sel => 3,
    }
}

/// How many words the op then pushes.
pub fn words_pushed(op: &Op) -> u32
    ensures { result ≡ pushed (op_of op.now) }
{
    match op {
        Op::Store(_) | Op::Put(_) | Op::Loop(_, _, _) => 0,
        _ => 1,
    }
}

/// Tells whether the shape has the local that the op names.
pub fn knows_local(shape: Shape, op: &Op) -> bool
    ensures { result ≡ has_local shape.locals (op_of op.now) }
{
    match op {
        Op::Load(local) | Op::Store(local) | Op::Loop(local, _, _) => {
            *local < u64::from(shape.locals)
        }
        _ => true,
    }
}

/// Tells whether the shape has the slot, or the output, that the op names.
pub fn knows_slot(shape: Shape, op: &Op) -> bool
    ensures { result ≡ has_slot shape.reads shape.writes (op_of op.now) }
{
    match op {
        Op::Get(slot) => *slot < u64::from(shape.reads) + u64::from(shape.writes),
        Op::Put(output) => *output < u64::from(shape.writes),
        _ => true,
    }
}
