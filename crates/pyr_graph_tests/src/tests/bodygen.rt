use crate::tests::bodies::{MILLION, body_of};
use pyr_body::{Body, LineFault, evaluate, nodes, work};
use pyr_bodygen::generate;
use pyr_code::{MAX_HEIGHT, Verified, exec};
use pyr_num::{Cells, Name};
use std::alloc::{AllocError, Global};
use std::process::Abort;
use std::test::Fail;

// A body, and what both engines make of it.
struct Run {
    text: &'static str,
    locals: &'static [&'static [u8]],
    nodes: u32,
    work: u64,
    // the greatest height of the stack
    height: u32,
    frame: u64,
    output: [u64; 5],
}

// Sums, quotients, remainders, shifts and indices past an end.
const PAST_EACH_END: &str = "put r[0] = (18446744073709551615 + 1)
put r[1] = (5 / 0)
put r[2] = (5 % 0)
put r[3] = (1 << 64)
put r[4] = x[5]
";

// Loops of no turns and of three, whose locals are read behind them.
const IDLE_LOOPS: &str = "set s = 5
for s 0
done
put r[0] = s
for k 3
done
put r[1] = k
put r[2] = frame
";

// A loop whose local is the index, and locals and an output that are read behind it.
const LOOPS: &str = "set s = 3
for k 5
put r[k] = (k * frame)
done
for s 0
done
put r[7] = r[4]
put r[1] = s
";

// As many brackets as may be open.
const DEEPEST: &str = "put r[0] = \
(0 ? 1 : (0 ? 1 : (0 ? 1 : (0 ? 1 : (0 ? 1 : (0 ? 1 : (0 ? 1 : (0 ? 1 : \
(0 ? 1 : (0 ? 1 : (0 ? 1 : (0 ? 1 : (0 ? 1 : (0 ? 1 : (0 ? 1 : (0 ? 1 : \
(0 ? 1 : (0 ? 1 : (0 ? 1 : (0 ? 1 : (0 ? 1 : (0 ? 1 : (0 ? 1 : (0 ? 1 : \
(0 ? 1 : (0 ? 1 : (0 ? 1 : (0 ? 1 : (0 ? 1 : (0 ? 1 : (0 ? 1 : \
7)))))))))))))))))))))))))))))))";

const RUNS: &[Run] = &[
    Run {
        text: PAST_EACH_END,
        locals: &[],
        nodes: 24,
        work: 24,
        height: 3,
        frame: 0,
        output: [0, 0, 5, 1, 22],
    },
    Run {
        text: IDLE_LOOPS,
        locals: &[b"s", b"k"],
        nodes: 13,
        work: 16,
        height: 2,
        frame: 9,
        output: [5, 2, 9, 0, 0],
    },
    Run {
        text: LOOPS,
        locals: &[b"s", b"k"],
        nodes: 16,
        work: 41,
        height: 3,
        frame: 10,
        output: [0, 3, 40, 30, 40],
    },
    Run {
        text: MILLION,
        locals: &[b"i", b"j", b"s"],
        nodes: 4,
        work: 1_000_000,
        height: 1,
        frame: 9,
        output: [0, 0, 0, 0, 0],
    },
    Run {
        text: DEEPEST,
        locals: &[],
        nodes: 96,
        work: 96,
        height: MAX_HEIGHT,
        frame: 0,
        output: [7, 0, 0, 0, 0],
    },
];

fn are_names(names: &[Name], texts: &[&[u8]]) -> bool {
    for (name, text) in names.iter().zip(texts) {
        if name.bytes() != *text {
            return false;
        }
    }
    names.len() == texts.len()
}

// Whether the body and its code leave this output for the input 11 22, which stays.
fn leave(
    rt: &impl Abort,
    alloc: Global,
    body: &Body,
    code: &Verified,
    frame: u64,
    output: [u64; 5],
) -> Result<bool, AllocError> {
    let shape = code.shape();
    assert!(rt; body.reads() == 1 && body.writes() == 1 && shape.reads == 1 && shape.writes == 1);
    let mut cells = Cells::new(alloc, 2, 7)?;
    cells.add_input(&[11, 22]);
    cells.add_output(5);
    evaluate(body, frame, &mut cells);
    let is_left = cells.output(0) == output.as_slice() && cells.get(0, 1) == 22;
    cells.clear();
    cells.add_input(&[11, 22]);
    cells.add_output(5);
    exec(code, frame, &mut cells);
    Ok(is_left && cells.output(0) == output.as_slice())
}

// Whether both engines do what is told of the body.
fn does(rt: &impl Abort, alloc: Global, body: &Body, run: &Run) -> Result<bool, AllocError> {
    let code = generate(alloc, body)?;
    let is_body = are_names(body.locals(), run.locals)
        && nodes(body) == run.nodes
        && work(body) == run.work;
    let is_code = code.shape().locals as usize == run.locals.len()
        && code.work() == run.work
        && code.height() == run.height;
    let leave = leave(rt, alloc, body, &code, run.frame, run.output);
    drop(code);
    Ok(is_body && is_code && leave?)
}

fn is_done(rt: &impl Abort, alloc: Global, run: &Run) -> Result<bool, LineFault> {
    let body = body_of(rt, alloc, run.text)?;
    let does = does(rt, alloc, &body, run);
    drop(body);
    Ok(does?)
}

#[test]
fn both_engines_do_what_is_told(rt: HostRuntime) -> Result<(), Fail> {
    for run in RUNS {
        assert!(rt; is_done(&rt, rt.alloc(), run)?, "at {}", run.text);
    }
    Ok(())
}
