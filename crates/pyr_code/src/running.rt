ghost use Rattle.std.specs.Prelude.{◌≡◌, ◌+◌, ◌<◌, ◌^◌, length, map};
ghost use Rattle.pyr_code.specs.Seen.{op_of, code_of};
ghost use Rattle.pyr_code.specs.Size.{op_work, code_work};
ghost use Rattle.pyr_code.specs.Height.{height_after, height_after_op};
ghost use Rattle.pyr_code.specs.WellFormed.{IsFine, IsFineOp};
ghost use Rattle.pyr_code.specs.Meaning.{after_op, after_code};
ghost use Rattle.pyr_code.specs.Running.{state_of, executed};

use crate::stack::Stack;
use crate::{Op, Steps, Verified};
use pyr_num::{Cells, Limits, apply};
use std::marker::Brand;
use std::sync::ledger::{Blank, Ledger};

/// Runs the code in place: the outputs become those of its meaning, and all else stays. It never
/// goes wrong, and takes no memory.
pub fn exec(code: &Verified, frame: u64, cells: &mut Cells)
    requires inputs { length cells.old.inputs ≡ code.now.shape.reads }
    requires outputs { length cells.old.outputs ≡ code.now.shape.writes }
    ensures value { cells.new ≡ executed frame code.now cells.old }
    ensures lengths { map length cells.new.outputs ≡ map length cells.old.outputs }
    ensures count { length cells.new.outputs ≡ length cells.old.outputs }
{
    exec_from::<Brand>(code, frame, cells, Blank::new(1));
}

// Runs the code with a count of its own, which nobody reads.
fn exec_from<L: Ledger>(code: &Verified, frame: u64, cells: &mut Cells, blank: Blank)
    requires inputs { length cells.old.inputs ≡ code.now.shape.reads }
    requires outputs { length cells.old.outputs ≡ code.now.shape.writes }
    requires name { blank.name ≡ L.name }
    requires parts { blank.parts ≡ L.parts }
    requires some { blank.parts ≡ 1 }
    ensures value { cells.new ≡ executed frame code.now cells.old }
    ensures lengths { map length cells.new.outputs ≡ map length cells.old.outputs }
    ensures count { length cells.new.outputs ≡ length cells.old.outputs }
{
    let mut steps = Steps::<L>::new(blank);
    exec_counted(code, frame, cells, &mut steps);
}

/// The same, and counts its steps: exactly the work of the code, one for each op and one for each
/// turn of a loop.
pub fn exec_counted<L: Ledger>(code: &Verified, frame: u64, cells: &mut Cells, steps: &mut Steps<L>)
    requires inputs { length cells.old.inputs ≡ code.now.shape.reads }
    requires outputs { length cells.old.outputs ≡ code.now.shape.writes }
    ensures value { cells.new ≡ executed frame code.now cells.old }
    ensures lengths { map length cells.new.outputs ≡ map length cells.old.outputs }
    ensures count { length cells.new.outputs ≡ length cells.old.outputs }
    ensures work { steps.new ≡ steps.old + code_work (code_of code.now.ops) }
{
    let mut locals = [0; Limits::LOCALS as usize];
    let locals = &mut locals[..code.shape().locals as usize];
    let _slots = cells.slots();
    let mut stack = Stack::new();
    run_ops(code.ops(), frame, &mut stack, locals, cells, steps);
}

#[cycle(run)]
fn run_ops<L: Ledger>(
    ops: &[Op],
    frame: u64,
    stack: &mut Stack,
    locals: &mut [u64],
    cells: &mut Cells,
    steps: &mut Steps<L>,
)
    requires slots { length cells.old.inputs + length cells.old.outputs < 2 ^ 32 }
    requires fine { IsFine (length cells.old.inputs) (length cells.old.outputs)
        (length locals.old) (code_of ops.now) (length stack.old) }
    ensures state { after_code frame cells.old.inputs (code_of ops.now)
        (state_of stack.old locals.old cells.old) ≡ state_of stack.new locals.new cells.new }
    ensures height { length stack.new ≡ height_after (code_of ops.now) (length stack.old) }
    ensures rest { cells.new ≡ record cells.old { outputs = cells.new.outputs } }
    ensures count { length cells.new.outputs ≡ length cells.old.outputs }
    ensures work { steps.new ≡ steps.old + code_work (code_of ops.now) }
{
    for op in ops {
        run_op(op, frame, stack, locals, cells, steps);
    }
}

#[cycle(run)]
fn run_op<L: Ledger>(
    op: &Op,
    frame: u64,
    stack: &mut Stack,
    locals: &mut [u64],
    cells: &mut Cells,
    steps: &mut Steps<L>,
)
    requires slots { length cells.old.inputs + length cells.old.outputs < 2 ^ 32 }
    requires fine { IsFineOp (length cells.old.inputs) (length cells.old.outputs)
        (length locals.old) (op_of op.now) (length stack.old) }
    ensures state { after_op frame cells.old.inputs (op_of op.now)
        (state_of stack.old locals.old cells.old) ≡ state_of stack.new locals.new cells.new }
    ensures height { length stack.new ≡ height_after_op (op_of op.now) (length stack.old) }
    ensures rest { cells.new ≡ record cells.old { outputs = cells.new.outputs } }
    ensures count { length cells.new.outputs ≡ length cells.old.outputs }
    ensures work { steps.new ≡ steps.old + op_work (op_of op.now) }
{
    steps.tick();
    match op {
        Op::Push(word) => stack.push(*word),
        Op::Load(local) => stack.push(locals[*local as usize]),
        Op::Store(local) => locals[*local as usize] = stack.pop(),
        Op::Frame => stack.push(frame),
        Op::Get(slot) => {
            let index = stack.pop();
            stack.push(cells.get(*slot as u32, index));
        }
        Op::Put(output) => {
            let word = stack.pop();
            let index = stack.pop();
            cells.put(*output as u32, index, word);
        }
        Op::Bin(operator) => {
            let right = stack.pop();
            let left = stack.pop();
            stack.push(apply(*operator, left, right));
        }
        Op::Sel => {
            let b = stack.pop();
            let a = stack.pop();
            let c = stack.pop();
            stack.push(if c == 0 { b } else { a });
        }
        Op::Loop(local, count, turn) => {
            for k in 0..*count {
                steps.tick();
                locals[*local as usize] = k;
                run_ops(turn.as_slice(), frame, stack, locals, cells, steps);
            }
        }
    }
}
