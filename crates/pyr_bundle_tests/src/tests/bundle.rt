use crate::tests::reading::{Refusal, bundle_of, refusal_with};
use crate::tests::texts::{EMPTY, PAIR};
use pyr_bundle::{
    Bundle, Capacity, Instr, any_order_gives_the_values, every_datum_has_a_value, one_fault_is_told,
};
use pyr_num::{DatumId, Name, ProcId, TaskId};
use std::alloc::Global;

// Whether a bundle has this many processors, tasks and data.
fn has_size(bundle: &Bundle, processors: u32, tasks: u32, datums: u32) -> bool {
    bundle.processors() == processors
        && bundle.task_count() == tasks
        && bundle.datum_count() == datums
}

// Whether a bundle has one processor, and nothing else.
fn is_empty(bundle: &Bundle) -> bool {
    has_size(bundle, 1, 0, 0) && bundle.prints().is_empty() && bundle.channels().is_empty()
}

#[test]
fn builds_a_bundle_without_a_task(rt: HostRuntime) {
    assert!(rt; bundle_of(rt.alloc(), EMPTY).is_ok_and(|bundle| is_empty(&bundle)));
    any_order_gives_the_values();
    every_datum_has_a_value();
    one_fault_is_told();
}

// The code of the second processor of `PAIR`.
const CODE: [Instr; 2] = [
    Instr::Recv {
        from: ProcId(0),
        datum: DatumId(0),
    },
    Instr::Exec { task: TaskId(1) },
];

// Whether a processor has this code.
fn has_code(bundle: &Bundle, processor: u32, code: &[Instr]) -> bool {
    processor < bundle.processors() && bundle.code(ProcId(processor)) == code
}

// Whether a datum has this name, and one word.
fn has_datum(bundle: &Bundle, number: u32, name: &[u8]) -> bool {
    if number >= bundle.datum_count() {
        return false;
    }
    let datum = bundle.datum(DatumId(number));
    Some(datum.name) == Name::new(name) && datum.length == 1
}

// Whether a task reads and writes these data, with this work.
fn has_task(
    bundle: &Bundle,
    number: u32,
    reads: &[DatumId],
    writes: &[DatumId],
    work: u64,
) -> bool {
    if number >= bundle.task_count() {
        return false;
    }
    let task = bundle.task(TaskId(number));
    task.reads.as_slice() == reads && task.writes.as_slice() == writes && task.code.work() == work
}

// Whether a bundle has the parts of `PAIR`.
fn is_pair(bundle: &Bundle) -> bool {
    bundle.is_bundle();
    bundle.well_formed();
    has_size(bundle, 2, 2, 2)
        && has_datum(bundle, 1, b"y")
        && has_task(bundle, 1, &[DatumId(0)], &[DatumId(1)], 4)
        && bundle.prints() == [DatumId(1)].as_slice()
        && has_code(bundle, 1, &CODE)
}

#[test]
fn tells_the_parts(rt: HostRuntime) {
    assert!(rt; bundle_of(rt.alloc(), PAIR).is_ok_and(|bundle| is_pair(&bundle)));
}

// The lines of `PAIR` that are changed, what stands there instead, and the law that is told.
const OF_INSTRUCTIONS: &[(u32, u32, &[u8], Refusal)] = &[
    (24, 24, b"send 0 0\n", Refusal::Law(6, 0, 1)),
    (27, 27, b"exec 2\n", Refusal::Law(6, 1, 1)),
    (27, 27, b"", Refusal::Law(7, 1, 0)),
    (26, 27, b"exec 1\nexec 0\n", Refusal::Law(7, 0, 0)),
    (
        24,
        26,
        b"send 1 0\nsend 1 0\nprocessor 1\n",
        Refusal::Law(8, 0, 2),
    ),
    (26, 26, b"recv 0 0\nrecv 0 0\n", Refusal::Law(9, 1, 1)),
    (21, 21, b"", Refusal::Law(10, 0, 0)),
    (
        21,
        21,
        b"channel 0 1 1\nchannel 0 1 1\n",
        Refusal::Law(10, 1, 0),
    ),
    (21, 21, b"channel 0 1 2\n", Refusal::Law(11, 0, 0)),
    (21, 21, b"channel 0 1 0\n", Refusal::Law(11, 0, 0)),
];

#[test]
fn tells_broken_laws_of_instructions(rt: HostRuntime) {
    for (first, last, bytes, refusal) in OF_INSTRUCTIONS {
        assert!(rt; refusal_with(rt.alloc(), PAIR, *first, *last, bytes) == Some(*refusal));
    }
}

const OF_PARTS: &[(u32, u32, &[u8], Refusal)] = &[
    (4, 4, b"datum x 1\n", Refusal::Law(1, 1, 0)),
    (13, 13, b"reads 0 0\n", Refusal::Law(2, 1, 1)),
    (14, 14, b"writes 2\n", Refusal::Law(2, 1, 1)),
    (14, 14, b"writes 0\n", Refusal::Law(3, 0, 0)),
    (14, 14, b"writes\n", Refusal::Law(3, 1, 0)),
    (15, 18, b"frame\nget 2\n", Refusal::Law(4, 1, 1)),
    (20, 20, b"print 1\nprint 1\n", Refusal::Law(5, 1, 0)),
    (20, 20, b"print 2\n", Refusal::Law(5, 0, 0)),
];

#[test]
fn tells_broken_laws_of_parts(rt: HostRuntime) {
    for (first, last, bytes, refusal) in OF_PARTS {
        assert!(rt; refusal_with(rt.alloc(), PAIR, *first, *last, bytes) == Some(*refusal));
    }
}

const CHANNEL: Capacity = Capacity {
    from: ProcId(0),
    to: ProcId(1),
    capacity: 1,
};

// Sets the capacity of the first channel of a bundle that has one, and tells whether it is 1 then.
fn sets_first_to_one(bundle: &mut Bundle) -> bool {
    bundle.well_formed();
    if bundle.channels().is_empty() {
        return false;
    }
    bundle.set_capacity(0, 1);
    bundle.channels() == [CHANNEL].as_slice()
}

#[test]
fn sets_a_capacity(rt: HostRuntime) {
    assert!(rt; bundle_of(rt.alloc(), PAIR).is_ok_and(|mut bundle| sets_first_to_one(&mut bundle)));
}
