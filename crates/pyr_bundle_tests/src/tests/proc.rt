ghost use Rattle.std.specs.Prelude.{IfSome};
ghost use Rattle.pyr_proc.specs.Seated.{HasRun, AreFresh};
ghost use Rattle.pyr_bundle_tests.specs.Seats.{CanRun};

use crate::tests::reading::loaded_of;
use crate::tests::texts::{DIAMOND, ROOMY, SWAPPED};
use pyr_machine::Loaded;
use pyr_num::{DatumId, ProcId, TaskId};
use pyr_proc::{Free, Pace, Processor, Seat};
use std::alloc::{AllocError, Global};
use std::sync::Wait;
use std::sync::atomic::{AtomicU64, Ordering};
use std::thread;
use std::thread::Threads;

// The seats of the first two of these processors.
fn two_of(loaded: &Loaded, processors: Vec<Processor<'_>>) -> Option<(Seat, Seat)>
    requires { AreFresh loaded.now.bundle 1 processors.items }
    ensures { IfSome result (λ seats. CanRun loaded.now.bundle seats.0
        × CanRun loaded.now.bundle seats.1) }
{
    let mut processors = processors.into_iter();
    let first = processors.next()?;
    let second = processors.next()?;
    Some((first.into_seat(), second.into_seat()))
}

// Runs a processor.
fn ran<P: Pace, R: Wait>(rt: &R, loaded: &Loaded, mut seat: Seat, pace: &P) -> Seat
    requires { CanRun loaded.now.bundle seat }
    ensures { HasRun 0 seat result }
{
    seat.run(rt, loaded, 0, pace);
    seat
}

// Runs two processors of a bundle in two threads.
fn run_two<P: Pace, R: Threads + Wait + Sync>(
    rt: &R,
    alloc: Global,
    loaded: &Loaded,
    pace: &P,
) -> Result<Option<(Seat, Seat)>, AllocError> {
    let processors = Processor::make(rt, alloc, loaded, 1)?;
    let Some((first, second)) = two_of(loaded, processors) else {
        return Ok(None);
    };
    let both = thread::join(
        rt,
        move || -> Seat
            requires { CanRun loaded.now.bundle first }
            ensures { HasRun 0 first result }
        { ran(rt, loaded, first, pace) },
        move || -> Seat
            requires { CanRun loaded.now.bundle second }
            ensures { HasRun 0 second result }
        { ran(rt, loaded, second, pace) },
    );
    Ok(Some(both))
}

// The first word of a datum, where a processor has it.
fn word(seat: &Seat, d: u32) -> Option<u64> {
    seat.words(DatumId(d))?.get(0).copied()
}

// A datum of the bundle of a text, and its first word at both processors after a run.
#[derive(Clone, Copy)]
struct Case {
    text: &'static [u8],
    datum: u32,
    words: (Option<u64>, Option<u64>),
}

impl Case {
    // Whether these processors have these words.
    fn is_left_at(&self, first: &Seat, second: &Seat) -> bool {
        word(first, self.datum) == self.words.0 && word(second, self.datum) == self.words.1
    }

    // Whether a run of the loaded bundle at this pace leaves them.
    fn is_left_by<P: Pace, R: Threads + Wait + Sync>(
        &self,
        rt: &R,
        alloc: Global,
        loaded: &Loaded,
        pace: &P,
    ) -> bool {
        match run_two(rt, alloc, loaded, pace) {
            Ok(Some((first, second))) => self.is_left_at(&first, &second),
            Ok(None) | Err(_) => false,
        }
    }

    fn is_so<P: Pace, R: Threads + Wait + Sync>(&self, rt: &R, alloc: Global, pace: &P) -> bool {
        match loaded_of(alloc, self.text) {
            Ok(loaded) => self.is_left_by(rt, alloc, &loaded, pace),
            Err(_) => false,
        }
    }
}

const TEN: Case = Case {
    text: DIAMOND,
    datum: 3,
    words: (None, Some(10)),
};

// The data are received in another order than they are sent.
const WRAPPED: Case = Case {
    text: SWAPPED,
    datum: 2,
    words: (None, Some(u64::MAX)),
};

// Sends cross.
const CROSSED: &[Case] = &[
    Case {
        text: ROOMY,
        datum: 3,
        words: (Some(0), Some(0)),
    },
    Case {
        text: ROOMY,
        datum: 0,
        words: (Some(0), Some(0)),
    },
];

#[test]
fn two_processors_run(rt: HostRuntime) {
    for case in &[TEN, WRAPPED, CROSSED[0], CROSSED[1]] {
        assert!(rt; case.is_so(&rt, rt.alloc(), &Free));
    }
}

// Counts the tasks that it is told of.
#[derive(Drop)]
struct Counting(AtomicU64);

impl Pace for Counting {
    fn allow_start(&self, _p: ProcId) -> bool {
        true
    }

    fn before_task(&self, _p: ProcId, _t: TaskId) {
        self.0.fetch_add(1, Ordering::SeqCst);
    }
}

#[test]
fn tells_of_each_task(rt: HostRuntime) {
    let pace = Counting(AtomicU64::new(0));
    assert!(rt; TEN.is_so(&rt, rt.alloc(), &pace));
    assert_eq!(rt; pace.0.load(Ordering::SeqCst), 4);
}
