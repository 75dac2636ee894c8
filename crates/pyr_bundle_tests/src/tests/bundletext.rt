use crate::tests::reading::{Refusal, bundle_of, refusal_with};
use crate::tests::texts::{DIAMOND, EMPTY};
use pyr_bundle::Bundle;
use pyr_bundletext::{one_answer_is_told, print_bundle, read_bundle};
use pyr_code::Op;
use pyr_num::{Bin, Quantity, TaskId};
use std::alloc::Global;

// The line of `DIAMOND` that is changed, what stands there instead, and what is told.
const OF_LINES: &[(u32, &[u8], Refusal)] = &[
    (11, b"push 18446744073709551616\n", Refusal::Text(11)),
    (1, b"pyrros 2\n", Refusal::Text(1)),
    (2, b"processors 02\n", Refusal::Text(2)),
    (2, b"processors  2\n", Refusal::Text(2)),
    (2, b"processors 2\r\n", Refusal::Text(2)),
    (
        2,
        b"processors 65\n",
        Refusal::Limit(2, Quantity::Processors),
    ),
    (4, b"datum task 1\n", Refusal::Text(4)),
    (4, b"datum y 65\n", Refusal::Limit(4, Quantity::Length)),
    (7, b"task 65\n", Refusal::Limit(7, Quantity::Locals)),
    (8, b"reads \n", Refusal::Text(8)),
    (12, b"done\n", Refusal::Text(12)),
    (13, b"", Refusal::Text(13)),
    (
        12,
        b"loop 0 1000000\ndone\n",
        Refusal::Limit(14, Quantity::Work),
    ),
    (
        12,
        b"loop 0 1000001\ndone\n",
        Refusal::Limit(12, Quantity::Count),
    ),
    (21, b"drop\n", Refusal::Text(21)),
    (57, b"stop", Refusal::Text(57)),
    (57, b"", Refusal::Text(57)),
    (57, b"stop\n\n", Refusal::Text(58)),
];

#[test]
fn tells_texts_with_one_change(rt: HostRuntime) {
    let greatest = b"push 18446744073709551615\n";
    assert!(rt; refusal_with(rt.alloc(), DIAMOND, 11, 11, greatest).is_none());
    for (line, bytes, refusal) in OF_LINES {
        assert!(rt; refusal_with(rt.alloc(), DIAMOND, *line, *line, bytes) == Some(*refusal));
    }
    one_answer_is_told();
}

const OF_LAWS: &[(u32, &[u8], Refusal)] = &[
    (4, b"datum x 1\n", Refusal::Law(1, 1, 0)),
    (35, b"reads 1 1\n", Refusal::Law(2, 3, 1)),
    (16, b"writes 0\n", Refusal::Law(3, 0, 0)),
    (11, b"get 0\n", Refusal::Law(4, 0, 2)),
    (45, b"print 3\nprint 3\n", Refusal::Law(5, 1, 0)),
    (49, b"send 0 0\n", Refusal::Law(6, 0, 1)),
    (56, b"exec 4\n", Refusal::Law(6, 1, 3)),
    (54, b"exec 0\n", Refusal::Law(7, 0, 0)),
    (51, b"send 1 0\n", Refusal::Law(8, 0, 3)),
    (53, b"recv 0 0\nrecv 0 0\n", Refusal::Law(9, 1, 1)),
    (46, b"", Refusal::Law(10, 0, 0)),
    (46, b"channel 1 0 2\n", Refusal::Law(10, 0, 0)),
    (46, b"channel 0 1 0\n", Refusal::Law(11, 0, 0)),
    (46, b"channel 0 1 3\n", Refusal::Law(11, 0, 0)),
];

#[test]
fn tells_broken_laws(rt: HostRuntime) {
    for (line, bytes, refusal) in OF_LAWS {
        assert!(rt; refusal_with(rt.alloc(), DIAMOND, *line, *line, bytes) == Some(*refusal));
    }
}

// Whether the text breaks off at this line.
fn breaks_off(alloc: Global, text: &[u8], line: u32) -> bool {
    bundle_of(alloc, text).err() == Some(Refusal::Text(line))
}

#[test]
fn tells_where_a_text_breaks_off(rt: HostRuntime) {
    assert!(rt; breaks_off(rt.alloc(), b"", 1));
    assert!(rt; breaks_off(rt.alloc(), b"pyrros 1\n", 2));
    assert!(rt; breaks_off(rt.alloc(), b"pyrros 1\np", 2));
}

// Names, numbers and lists of every kind, and the ops that the other texts don't have.
const FORMS: &[u8] = b"pyrros 1\nprocessors 3\n\
datum left_edge 64\ndatum b 1\ndatum c 1\ndatum d 1\ndatum e 1\ndatum f 1\ndatum g 1\n\
datum h 1\ndatum i 1\ndatum j 1\ndatum k 1\n\
task 3\nreads\nwrites 4 0\n\
push 0\npush 1\npush 18446744073709551615\nframe\nsel\n\
loop 0 4\nload 0\nload 0\nget 1\nshl\nstore 2\ndone\nput 1\nend\n\
task 0\nreads 4 0\nwrites 1 2 3 5 6 7 8 9 10\nend\n\
print 10\nprint 0\nchannel 0 2 2\n\
processor 0\nexec 0\nsend 2 4\nsend 2 0\nprocessor 1\nprocessor 2\nrecv 0 0\nrecv 0 4\nexec 1\nstop\n";

// Whether the text of a bundle is just this, and is read again.
fn has_text(alloc: Global, bundle: &Bundle, text: &[u8]) -> bool {
    match print_bundle(alloc, bundle) {
        // no test of its length: every bundle's text can be read
        Ok(printed) => printed.as_slice() == text && read_bundle(alloc, &printed).is_ok(),
        Err(_) => false,
    }
}

// Whether the bundle that has this text is printed so again.
fn is_printed(alloc: Global, text: &[u8]) -> bool {
    match bundle_of(alloc, text) {
        Ok(bundle) => has_text(alloc, &bundle, text),
        Err(_) => false,
    }
}

#[test]
fn prints_what_it_read(rt: HostRuntime) {
    for text in &[DIAMOND, EMPTY, FORMS] {
        assert!(rt; is_printed(rt.alloc(), text));
    }
}

// Whether the ops are those of the loop in `FORMS`.
fn is_turn(ops: &[Op]) -> bool {
    matches!(ops.get(1), Some(Op::Load(0)))
        && matches!(ops.get(2), Some(Op::Get(1)))
        && matches!(ops.get(3), Some(Op::Bin(Bin::Shl)))
        && matches!(ops.get(4), Some(Op::Store(2)))
}

// Whether the ops are those of the first task of `FORMS`.
fn is_code(ops: &[Op]) -> bool {
    let Some(Op::Loop(0, 4, turn)) = ops.get(5) else {
        return false;
    };
    matches!(ops.get(2), Some(Op::Push(18446744073709551615)))
        && matches!(ops.get(3), Some(Op::Frame))
        && matches!(ops.get(4), Some(Op::Sel))
        && is_turn(turn.as_slice())
        && matches!(ops.get(6), Some(Op::Put(1)))
}

// Whether the first task of the bundle that has this text has this code.
fn has_code(alloc: Global, text: &[u8]) -> bool {
    match bundle_of(alloc, text) {
        Ok(bundle) => bundle.task_count() > 0 && is_code(bundle.task(TaskId(0)).code.ops()),
        Err(_) => false,
    }
}

#[test]
fn reads_the_ops(rt: HostRuntime) {
    assert!(rt; has_code(rt.alloc(), FORMS));
}
