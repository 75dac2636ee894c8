ghost use Rattle.std.specs.Prelude.{◌≡◌, length, IfSome};
ghost use Rattle.std.specs.Bool.{OnTrue};
ghost use Rattle.pyr_code.specs.Seen.{op_of, code_of};
ghost use Rattle.pyr_code.specs.Size.{op_nodes, op_loops, op_count, op_work};
ghost use Rattle.pyr_code.specs.Size.{code_nodes, code_loops, code_count, code_work};
ghost use Rattle.pyr_code.specs.Size.{IsWithinLimits};

use pyr_code::{
    BadKind, CodeFault, Op, Shape, Steps, Verified, copy_ops, exec, exec_counted, verify,
};
use pyr_num::{Bin, Cells, Limits};
use sqlite_items::Items;
use std::alloc::{AllocError, Global};
use std::marker::Brand;
use std::process::Abort;
use std::sync::ledger::{Blank, Ledger};
use std::test::Fail;

// How large code is.
#[derive(Clone, Copy)]
struct Size {
    nodes: u64,
    loops: u64,
    count: u64,
    work: u64,
}

// None where a number doesn't fit.
#[cycle(size)]
fn size_of_ops(ops: &[Op]) -> Option<Size>
    ensures nodes { IfSome result (λ size. size.nodes ≡ code_nodes (code_of ops.now)) }
    ensures loops { IfSome result (λ size. size.loops ≡ code_loops (code_of ops.now)) }
    ensures count { IfSome result (λ size. size.count ≡ code_count (code_of ops.now)) }
    ensures work { IfSome result (λ size. size.work ≡ code_work (code_of ops.now)) }
{
    let mut size = Size {
        nodes: 0,
        loops: 0,
        count: 0,
        work: 0,
    };
    for op in ops {
        let more = size_of_op(op)?;
        size = Size {
            nodes: size.nodes.checked_add(more.nodes)?,
            loops: size.loops.max(more.loops),
            count: size.count.max(more.count),
            work: size.work.checked_add(more.work)?,
        };
    }
    Some(size)
}

#[cycle(size)]
fn size_of_op(op: &Op) -> Option<Size>
    ensures nodes { IfSome result (λ size. size.nodes ≡ op_nodes (op_of op.now)) }
    ensures loops { IfSome result (λ size. size.loops ≡ op_loops (op_of op.now)) }
    ensures count { IfSome result (λ size. size.count ≡ op_count (op_of op.now)) }
    ensures work { IfSome result (λ size. size.work ≡ op_work (op_of op.now)) }
{
    let Op::Loop(_, count, turn) = op else {
        return Some(Size {
            nodes: 1,
            loops: 0,
            count: 0,
            work: 1,
        });
    };
    let turn = size_of_ops(turn.as_slice())?;
    Some(Size {
        nodes: turn.nodes.checked_add(1)?,
        loops: turn.loops.checked_add(1)?,
        count: turn.count.max(*count),
        work: count
            .checked_mul(turn.work.checked_add(1)?)?
            .checked_add(1)?,
    })
}

fn is_within_limits(ops: &[Op], shape: Shape) -> bool
    ensures { OnTrue result (IsWithinLimits shape (code_of ops.now)) }
{
    let Some(size) = size_of_ops(ops) else {
        return false;
    };
    size.nodes <= u64::from(Limits::NODES)
        && size.loops <= u64::from(Limits::LOOPS)
        && size.count <= u64::from(Limits::COUNT)
        && shape.locals <= Limits::LOCALS
        && size.work <= Limits::WORK
}

// What the check answers for a copy of this code, which is within the limits.
fn check(rt: &impl Abort, alloc: Global, code: &[Op], shape: Shape) -> Result<Verified, CodeFault> {
    assert!(rt; is_within_limits(code, shape));
    let Ok(code) = copy_ops(alloc, code) else {
        return Err(CodeFault::Memory);
    };
    verify(code, shape)
}

const EMPTY: Shape = Shape {
    reads: 0,
    writes: 0,
    locals: 0,
};

// One input, one output, two locals.
const ONE_AND_ONE: Shape = Shape {
    reads: 1,
    writes: 1,
    locals: 2,
};

fn bad(place: u32, kind: BadKind) -> Option<CodeFault> {
    Some(CodeFault::BadCode { place, kind })
}

#[test]
fn tells_the_first_fault(rt: HostRuntime) {
    for (code, shape, place, kind) in &[
        ([Op::Bin(Bin::Add)].as_slice(), EMPTY, 0, BadKind::Underflow),
        (&[Op::Push(1)], EMPTY, 1, BadKind::Height),
        (&[Op::Push(1), Op::Load(2)], ONE_AND_ONE, 1, BadKind::Local),
        (&[Op::Store(2)], ONE_AND_ONE, 0, BadKind::Local),
        (&[Op::Get(2)], ONE_AND_ONE, 0, BadKind::Slot),
        (&[Op::Put(1)], ONE_AND_ONE, 0, BadKind::Slot),
        (&[Op::Frame, Op::Put(0)], ONE_AND_ONE, 1, BadKind::Underflow),
        (
            &[Op::Push(1), Op::Push(1), Op::Sel],
            EMPTY,
            2,
            BadKind::Underflow,
        ),
    ] {
        let fault = check(&rt, rt.alloc(), code, *shape).err();
        assert_eq!(rt; fault, bad(*place, *kind));
    }
}

// The fault of a loop of three turns, with an op behind it.
fn fault_of_loop(
    rt: &impl Abort,
    alloc: Global,
    local: u64,
    turn: &[Op],
) -> Result<Option<CodeFault>, AllocError> {
    let turn = copy_ops(alloc, turn)?;
    let code = vec![in alloc; Op::Loop(local, 3, Items::from_vec(turn)), Op::Frame]?;
    Ok(check(rt, alloc, &code, ONE_AND_ONE).err())
}

#[test]
fn walks_through_loops(rt: HostRuntime) -> Result<(), Fail> {
    for (local, turn, place, kind) in &[
        (0, [Op::Push(1)].as_slice(), 0, BadKind::Height),
        (0, &[Op::Push(1), Op::Load(7)], 2, BadKind::Local),
        (2, &[Op::Sel], 0, BadKind::Local),
        (0, &[Op::Frame, Op::Store(1)], 4, BadKind::Height),
    ] {
        let fault = fault_of_loop(&rt, rt.alloc(), *local, turn)?;
        assert_eq!(rt; fault, bad(*place, *kind));
    }
    Ok(())
}

// The fault of code that pushes 64 words before its last op.
fn fault_of_tall(
    rt: &impl Abort,
    alloc: Global,
    last: Op,
) -> Result<Option<CodeFault>, AllocError> {
    let mut code = Vec::new(alloc);
    for word in 0..64 {
        code.push(Op::Push(word))?;
    }
    code.push(last)?;
    Ok(check(rt, alloc, &code, ONE_AND_ONE).err())
}

#[test]
fn holds_64_words_and_no_more(rt: HostRuntime) -> Result<(), Fail> {
    let unknown = fault_of_tall(&rt, rt.alloc(), Op::Load(2))?;
    let tall = fault_of_tall(&rt, rt.alloc(), Op::Load(1))?;
    let left = fault_of_tall(&rt, rt.alloc(), Op::Store(1))?;
    assert_eq!(rt; unknown, bad(64, BadKind::Local));
    assert_eq!(rt; tall, bad(64, BadKind::Tall));
    assert_eq!(rt; left, bad(65, BadKind::Height));
    Ok(())
}

// Runs code twice with one count of steps, which is twice its work.
fn run_twice<L: Ledger>(code: &Verified, frame: u64, cells: &mut Cells, blank: Blank)
    requires inputs { length cells.old.inputs ≡ code.now.shape.reads }
    requires outputs { length cells.old.outputs ≡ code.now.shape.writes }
    requires name { blank.name ≡ L.name }
    requires parts { blank.parts ≡ L.parts }
    requires some { blank.parts ≡ 1 }
    ensures { length cells.new.outputs ≡ length cells.old.outputs }
{
    let mut steps = Steps::<L>::new(blank);
    exec_counted(code, frame, cells, &mut steps);
    exec_counted(code, frame, cells, &mut steps);
}

// Whether the code, run once and twice more with a count, puts just this word into one output of 3
// words, and the one input of 3 words stays.
fn puts(rt: &impl Abort, alloc: Global, code: &Verified, word: u64) -> Result<bool, AllocError> {
    assert!(rt; code.shape() == ONE_AND_ONE);
    let mut cells = Cells::new(alloc, 2, 6)?;
    cells.add_input(&[5, 7, 11]);
    cells.add_output(3);
    exec(code, 8, &mut cells);
    let output = [word, 0, 0];
    let is_put = cells.get(0, 4) == 7 && cells.output(0) == output.as_slice();
    run_twice::<Brand>(code, 8, &mut cells, Blank::new(1));
    Ok(is_put && cells.output(0) == output.as_slice())
}

// Whether a copy of this code puts this word, in so many steps and such a height.
fn does(
    rt: &impl Abort,
    alloc: Global,
    ops: &[Op],
    work: u64,
    height: u32,
    word: u64,
) -> Result<bool, Fail> {
    let code = check(rt, alloc, ops, ONE_AND_ONE)?;
    let is_told = code.work() == work && code.height() == height && code.ops().len() == ops.len();
    let puts = puts(rt, alloc, &code, word);
    drop(code);
    Ok(is_told && puts?)
}

// The word below the loop's own height is summed up: 1, then 6, 13 and 24.
fn sums_in_a_loop(alloc: Global) -> Result<Vec<Op>, AllocError> {
    let turn = vec![in alloc; Op::Load(0), Op::Get(0), Op::Bin(Bin::Add)]?;
    Ok(vec![in alloc;
        Op::Push(3),
        Op::Push(1),
        Op::Loop(0, 3, Items::from_vec(turn)),
        Op::Put(0),
    ]?)
}

#[test]
fn runs_a_loop(rt: HostRuntime) -> Result<(), Fail> {
    let code = sums_in_a_loop(rt.alloc())?;
    let does = does(&rt, rt.alloc(), &code, 4 + 3 * 4, 3, 24);
    drop(code);
    assert!(rt; does?);
    Ok(())
}

#[test]
fn takes_operands_in_order(rt: HostRuntime) -> Result<(), Fail> {
    const ZERO: Op = Op::Push(0);
    const PUT: Op = Op::Put(0);
    for (code, work, height, word) in &[
        (
            [ZERO, Op::Push(9), Op::Push(4), Op::Bin(Bin::Sub), PUT].as_slice(),
            5,
            3,
            5,
        ),
        (
            &[ZERO, Op::Push(1), Op::Push(2), Op::Push(3), Op::Sel, PUT],
            6,
            4,
            2,
        ),
        (
            &[ZERO, Op::Push(0), Op::Push(2), Op::Push(3), Op::Sel, PUT],
            6,
            4,
            3,
        ),
        (&[ZERO, Op::Frame, Op::Store(1), Op::Load(1), PUT], 5, 2, 8),
        (&[ZERO, Op::Push(2), Op::Get(1), PUT], 4, 2, 0),
        (&[ZERO, Op::Push(2), Op::Get(0), PUT], 4, 2, 11),
    ] {
        assert!(rt; does(&rt, rt.alloc(), code, *work, *height, *word)?);
    }
    Ok(())
}
