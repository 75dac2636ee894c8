// The walk through code in text order, up to its first fault.
ghost use Rattle.std.specs.Prelude.{◌≡◌, ◌+◌, ◌≤◌, ◌<◌, ◌^◌, IfOk, ◌==◌, if◌then◌else◌};
ghost use Rattle.std.specs.Result.{result_err};
ghost use Rattle.pyr_code.specs.Seen.{op_of, code_of};
ghost use Rattle.pyr_code.specs.Size.{op_nodes, code_nodes};
ghost use Rattle.pyr_code.specs.Height.{height_after, height_after_op};
ghost use Rattle.pyr_code.specs.Fault.{op_visits, code_visits, kind_before};
ghost use Rattle.pyr_code.specs.Fault.{first_among, first_fault};

use crate::effect::{knows_local, knows_slot, words_popped, words_pushed};
use crate::{BadKind, CodeFault, MAX_HEIGHT, Op, Shape};

/// Finds the first fault of code.
pub fn walk(ops: &[Op], shape: Shape) -> Result<(), CodeFault>
    requires { code_nodes (code_of ops.now) < 2 ^ 32 }
    ensures { result_err result ≡ first_fault shape (code_of ops.now) }
{
    let start = Reached {
        place: 0,
        height: 0,
    };
    let end = walk_ops(ops, shape, start)?;
    expect_height(end.height, 0, end.place)
}

// The number of the next op, and the height of the stack before it.
#[derive(Clone, Copy)]
struct Reached {
    place: u32,
    height: u32,
}

#[cycle(walk)]
fn walk_ops(ops: &[Op], shape: Shape, start: Reached) -> Result<Reached, CodeFault>
    requires places { start.place + code_nodes (code_of ops.now) < 2 ^ 32 }
    requires low { start.height ≤ MAX_HEIGHT }
    ensures fault { result_err result
        ≡ first_among shape (code_visits (code_of ops.now) start.place start.height) }
    ensures place { IfOk result (λ end. end.place ≡ start.place + code_nodes (code_of ops.now)) }
    ensures height { IfOk result (λ end. end.height ≡ height_after (code_of ops.now) start.height) }
    ensures low { IfOk result (λ end. end.height ≤ MAX_HEIGHT) }
{
    let mut reached = start;
    for op in ops {
        reached = walk_op(op, shape, reached)?;
    }
    Ok(reached)
}

#[cycle(walk)]
fn walk_op(op: &Op, shape: Shape, start: Reached) -> Result<Reached, CodeFault>
    requires places { start.place + op_nodes (op_of op.now) < 2 ^ 32 }
    requires low { start.height ≤ MAX_HEIGHT }
    ensures fault { result_err result
        ≡ first_among shape (op_visits (op_of op.now) start.place start.height) }
    ensures place { IfOk result (λ end. end.place ≡ start.place + op_nodes (op_of op.now)) }
    ensures height { IfOk result (λ end. end.height ≡ height_after_op (op_of op.now) start.height) }
    ensures low { IfOk result (λ end. end.height ≤ MAX_HEIGHT) }
{
    if let Some(kind) = fault_before(op, shape, start.height) {
        return Err(CodeFault::BadCode {
            place: start.place,
            kind,
        });
    }
    match op {
        Op::Loop(_, _, turn) => {
            let within = Reached {
                place: start.place + 1,
                height: start.height,
            };
            let end = walk_ops(turn.as_slice(), shape, within)?;
            expect_height(end.height, start.height, start.place)?;
            Ok(end)
        }
        _ => Ok(Reached {
            place: start.place + 1,
            height: start.height - words_popped(op) + words_pushed(op),
        }),
    }
}

// The end of the code of a loop or of the whole, which has to leave the wanted height.
fn expect_height(height: u32, wanted: u32, place: u32) -> Result<(), CodeFault>
    ensures { result_err result
        ≡ (if height == wanted then None else Some (CodeFault.BadCode place BadKind.Height)) }
{
    if height == wanted {
        return Ok(());
    }
    Err(CodeFault::BadCode {
        place,
        kind: BadKind::Height,
    })
}

// The kind of fault of an op at a height, the first in the order of `BadKind`.
fn fault_before(op: &Op, shape: Shape, height: u32) -> Option<BadKind>
    requires { height ≤ MAX_HEIGHT }
    ensures { result ≡ kind_before shape (op_of op.now) height }
{
    if !knows_local(shape, op) {
        return Some(BadKind::Local);
    }
    if !knows_slot(shape, op) {
        return Some(BadKind::Slot);
    }
    if height < words_popped(op) {
        return Some(BadKind::Underflow);
    }
    if height - words_popped(op) + words_pushed(op) > MAX_HEIGHT {
        return Some(BadKind::Tall);
    }
    None
}
