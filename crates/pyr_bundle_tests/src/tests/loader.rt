use crate::tests::reading::loaded_of;
use crate::tests::texts::{CROSSING, DIAMOND, LEFT, MUTUAL, ROOMY, SWAPPED, UNMADE};
use pyr_loader::{
    LoadFault, Reason, Stop, loaded_bundles_are_safe, one_answer_is_told, reasons_are_true,
};
use pyr_num::{DatumId, ProcId};
use sqlite_items::Items;
use std::alloc::{AllocError, Global};

// What is sent to two processors is received by neither.
const LEFT_TWICE: &[u8] = b"pyrros 1\nprocessors 3\ndatum x 1\ndatum y 1\n\
task 0\nreads\nwrites 0 1\nend\nchannel 0 1 1\nchannel 0 2 1\n\
processor 0\nexec 0\nsend 2 0\nsend 1 1\nprocessor 1\nprocessor 2\nstop\n";

// The second of the two is received.
const LEFT_ONCE: &[u8] = b"pyrros 1\nprocessors 3\ndatum x 1\ndatum y 1\n\
task 0\nreads\nwrites 0 1\nend\nchannel 0 1 1\nchannel 0 2 1\n\
processor 0\nexec 0\nsend 2 0\nsend 1 1\nprocessor 1\nrecv 0 1\nprocessor 2\nstop\n";

// The first datum is taken before the second one is received.
const LEFT_IN_STASH: &[u8] = b"pyrros 1\nprocessors 3\ndatum x 1\ndatum y 1\n\
task 0\nreads\nwrites 0 1\nend\nchannel 0 1 2\n\
processor 0\nexec 0\nsend 1 0\nsend 1 1\nprocessor 1\nrecv 0 1\nprocessor 2\nstop\n";

// A task is executed before the one that writes what it reads.
const TOO_EARLY: &[u8] = b"pyrros 1\nprocessors 1\ndatum x 1\ndatum y 1\ndatum z 1\n\
task 0\nreads\nwrites 0 1\nend\ntask 0\nreads 1 0\nwrites 2\nend\n\
processor 0\nexec 1\nexec 0\nstop\n";

// The first of the two processors that wait for one another doesn't receive.
const HALF_EARLY: &[u8] = b"pyrros 1\nprocessors 2\ndatum x 1\ndatum y 1\n\
task 0\nreads 1\nwrites 0\npush 0\npush 0\nget 0\nput 0\nend\n\
task 0\nreads 0\nwrites 1\npush 0\npush 0\nget 0\nput 0\nend\n\
print 0\nchannel 0 1 1\nchannel 1 0 1\n\
processor 0\nexec 0\nsend 1 0\n\
processor 1\nrecv 0 0\nexec 1\nsend 0 1\nstop\n";

// The number of steps of a complete run of the bundle that has this text.
fn steps_of(alloc: Global, text: &[u8]) -> Option<u64> {
    match loaded_of(alloc, text) {
        Ok(loaded) => Some(loaded.steps()),
        Err(_) => None,
    }
}

#[test]
fn loads_what_runs_to_its_end(rt: HostRuntime) {
    for (text, steps) in &[(DIAMOND, 10), (ROOMY, 14), (SWAPPED, 8)] {
        assert_eq!(rt; steps_of(rt.alloc(), text), Some(*steps));
    }
    one_answer_is_told();
    loaded_bundles_are_safe();
}

// Whether the processors of the bundle that has this text get stuck so.
fn is_stuck(alloc: Global, text: &[u8], stops: &[Stop]) -> bool {
    match loaded_of(alloc, text) {
        Err(LoadFault::Stuck { processors }) => processors.as_slice() == stops,
        Ok(_) | Err(_) => false,
    }
}

const WAITS_FOR_0: Stop = Stop {
    place: 0,
    reason: Reason::Empty { from: ProcId(0) },
};

const WAITS_FOR_1: Stop = Stop {
    place: 0,
    reason: Reason::Empty { from: ProcId(1) },
};

const FULL_TO_0: Stop = Stop {
    place: 2,
    reason: Reason::Full { to: ProcId(0) },
};

const FULL_TO_1: Stop = Stop {
    place: 2,
    reason: Reason::Full { to: ProcId(1) },
};

const LACKS_0: Stop = Stop {
    place: 0,
    reason: Reason::Lacks { datum: DatumId(0) },
};

const LACKS_1: Stop = Stop {
    place: 0,
    reason: Reason::Lacks { datum: DatumId(1) },
};

const STUCK: &[(&[u8], &[Stop])] = &[
    (MUTUAL, &[WAITS_FOR_1, WAITS_FOR_0]),
    (CROSSING, &[FULL_TO_1, FULL_TO_0]),
    (UNMADE, &[LACKS_0, WAITS_FOR_0]),
    (TOO_EARLY, &[LACKS_1]),
    (HALF_EARLY, &[LACKS_1, WAITS_FOR_0]),
];

#[test]
fn tells_where_it_gets_stuck(rt: HostRuntime) {
    for (text, stops) in STUCK {
        assert!(rt; is_stuck(rt.alloc(), text, stops));
    }
    reasons_are_true();
}

// The sender, the receiver and the datum of the parcel that is left of the bundle that has this text.
fn left_of(alloc: Global, text: &[u8]) -> Option<(u32, u32, u32)> {
    match loaded_of(alloc, text) {
        Err(LoadFault::Leftover { from, to, datum }) => Some((from.0, to.0, datum.0)),
        Ok(_) | Err(_) => None,
    }
}

#[test]
fn tells_what_is_left(rt: HostRuntime) {
    for (text, left) in &[
        (LEFT, (0, 1, 0)),
        // the receiver comes before the place
        (LEFT_TWICE, (0, 1, 1)),
        (LEFT_ONCE, (0, 2, 0)),
        (LEFT_IN_STASH, (0, 1, 0)),
    ] {
        assert!(rt; left_of(rt.alloc(), text) == Some(*left));
    }
}

// The line for two of the faults.
fn shown(alloc: Global) -> Result<String, AllocError> {
    let stuck = LoadFault::Stuck {
        processors: Items::new(alloc),
    };
    format!(in alloc; "{stuck}, {}", LoadFault::BadText { line: 2 })
}

#[test]
fn shows_one_text_for_each_fault(rt: HostRuntime) {
    let shown = shown(rt.alloc());
    let wanted = "the processors get stuck, a line can't stand where it stands";
    assert!(rt; shown.is_ok_and(|text| text.as_str() == wanted));
}
