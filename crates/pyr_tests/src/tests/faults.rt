// Texts of graphs that are refused.
use crate::tests::call::refuses;
use pyr_num::Limits;
use pyr_top::Status;
use std::alloc::{AllocError, Global};
use std::sync::Wait;
use std::test::Fail;
use std::thread::Threads;

// Texts that are refused, with the status and the line of each.
const REFUSED: &[(&[u8], Status, &[u8])] = &[
    (b"", Status::Names, b"no task\n"),
    (b"task a 0", Status::Limit, b"line 1: limit cost\n"),
    (b"task a 07", Status::Text, b"line 1: text\n"),
    (b"task a 1", Status::Text, b"line 2: text\n"),
    (b"task a 1\n", Status::Text, b"line 2: text\n"),
    (
        b"data x 1 0\ndata x 1 0\n",
        Status::Names,
        b"line 2: duplicate name x\n",
    ),
    (
        b"data x 65 0\ndata x 65 0\n",
        Status::Limit,
        b"line 1: limit length\n",
    ),
    (
        b"data x 1 0\ndata x 65 0\n",
        Status::Limit,
        b"line 2: limit length\n",
    ),
    (b"print q", Status::Names, b"line 1: unknown name q\n"),
    (
        b"data x 1 0\ntask a 1\nwrites x\nend\ntask b 1\nwrites x\nend\n",
        Status::Names,
        b"line 6: second writer of x\n",
    ),
    (
        b"data x 1 0\ndata y 1 0\ntask a 1\nreads x y\nend\n",
        Status::Names,
        b"no writer of x\n",
    ),
    (
        b"data x 1 0\ndata y 1 0\ndata z 1 0\ntask e 1\nend\n\
task a 1\nreads z\nwrites x\nend\ntask b 1\nreads x\nwrites y\nend\n\
task c 1\nreads y\nwrites z\nend\n",
        Status::Cycle,
        b"cycle a c b\n",
    ),
    (
        b"data x 1 0\ntask a 1\nreads x\nwrites x\nend\n",
        Status::Cycle,
        b"cycle a\n",
    ),
    (
        b"data x 1 0\ntask a 1\nwrites x\n\
for i 27\nfor j 12345\nset s = 0\ndone\ndone\nfor k 0\ndone\nend\nprint x\n",
        Status::Limit,
        b"line 11: limit work\n",
    ),
    (
        b"data x 1 0\ntask a 1\nwrites x\nput x[0] = (((((((((((((((((((((((((((((((\n",
        Status::Text,
        b"line 4: text\n",
    ),
    (
        b"data x 1 0\ntask a 1\nwrites x\nput x[0] = ((((((((((((((((((((((((((((((((\n",
        Status::Limit,
        b"line 4: limit depth\n",
    ),
    (
        b"data x 1 0\nput x[0] = y\n",
        Status::Text,
        b"line 2: text\n",
    ),
];

// Whether each command on graph texts refuses the text so.
fn is_refused<R: Threads + Wait + Sync>(
    rt: &R,
    alloc: Global,
    text: &[u8],
    status: Status,
    line: &[u8],
) -> Result<bool, AllocError> {
    for words in &[
        ["seq"].as_slice(),
        &["cluster"],
        &["gantt", "2"],
        &["compile", "2"],
    ] {
        if !refuses(rt, alloc, words, text, status, line)? {
            return Ok(false);
        }
    }
    Ok(true)
}

#[test]
fn each_fault_has_its_line(rt: HostRuntime) -> Result<(), Fail> {
    for (text, status, line) in REFUSED {
        assert!(rt; is_refused(&rt, rt.alloc(), text, *status, line)?);
    }
    Ok(())
}

#[test]
fn a_text_above_the_limit(rt: HostRuntime) -> Result<(), Fail> {
    let text = vec![in rt.alloc(); b' '; Limits::INPUT + 1]?;
    for command in &["seq", "run"] {
        assert!(rt;
            refuses(
                &rt,
                rt.alloc(),
                &[*command],
                &text,
                Status::Limit,
                b"limit input\n"
            )?
        );
    }
    Ok(())
}
