// Runs at a pace.
ghost use Rattle.std.specs.Prelude.{◌<◌};

use crate::tests::bundles::HEAVY_BUNDLE;
use crate::tests::call::{Call, output};
use crate::tests::graphs::ELIMINATION;
use pyr_loader::load;
use pyr_machine::Loaded;
use pyr_num::{DatumId, Limits, ProcId, TaskId};
use pyr_proc::{Pace, Processor};
use pyr_team::{Team, run_team};
use pyr_top::Status;
use std::alloc::{AllocError, Global};
use std::sync::Wait;
use std::sync::atomic::{AtomicU64, Ordering};
use std::test::*;
use std::thread;
use std::thread::Threads;

// Each of tasks 1 and 2 raises its flag, and looks for that of the other.
#[derive(Drop)]
struct Flags {
    raised: [AtomicU64; 2],
    seen: [AtomicU64; 2],
}

impl Pace for Flags {
    fn allow_start(&self, _p: ProcId) -> bool {
        true
    }

    fn before_task(&self, _p: ProcId, t: TaskId) {
        match t {
            TaskId(1) => self.look_from(0, 1),
            TaskId(2) => self.look_from(1, 0),
            _ => {}
        }
    }
}

impl Flags {
    fn new() -> Flags {
        Flags {
            raised: [AtomicU64::new(0), AtomicU64::new(0)],
            seen: [AtomicU64::new(0), AtomicU64::new(0)],
        }
    }

    fn look_from(&self, own: usize, other: usize)
        requires own { own < 2 }
        requires other { other < 2 }
    {
        self.raised[own].store(1, Ordering::SeqCst);
        for _turn in 0..10_000_000u32 {
            if self.raised[other].load(Ordering::SeqCst) == 1 {
                self.seen[own].store(1, Ordering::SeqCst);
                break;
            }
            thread::yield_now();
        }
    }
}

// Refuses the start of one processor.
#[derive(Clone, Copy)]
struct Refusing {
    refused: ProcId,
}

impl Pace for Refusing {
    fn allow_start(&self, p: ProcId) -> bool {
        p != self.refused
    }

    fn before_task(&self, _p: ProcId, _t: TaskId) {}
}

// Whether the bundle, run at this pace, prints this.
fn prints_at<P: Pace, R: Threads + Wait + Sync>(
    rt: &R,
    alloc: Global,
    pace: &P,
    bundle: &[u8],
    printed: &[u8],
) -> Result<bool, AllocError> {
    let mut call = Call::new(alloc, &["run"], bundle)?;
    let status = call.make_at(rt, alloc, pace);
    Ok(status == Status::Ok && call.has_left(printed, b""))
}

#[test]
fn both_processors_run_at_once(rt: HostRuntime) -> Result<(), Fail> {
    let flags = Flags::new();
    assert!(rt; prints_at(&rt, rt.alloc(), &flags, HEAVY_BUNDLE, b"w = 10\n")?);
    assert_eq!(rt; flags.seen[0].load(Ordering::SeqCst), 1);
    assert_eq!(rt; flags.seen[1].load(Ordering::SeqCst), 1);
    Ok(())
}

#[test]
fn a_refused_start_is_made_up_for(rt: HostRuntime) -> Result<(), Fail> {
    let pace = Refusing { refused: ProcId(1) };
    assert!(rt; prints_at(&rt, rt.alloc(), &pace, HEAVY_BUNDLE, b"w = 10\n")?);

    let printed = output(&rt, rt.alloc(), &["seq"], ELIMINATION)?;
    let bundle = output(&rt, rt.alloc(), &["compile", "4"], ELIMINATION)?;
    for p in 1..4 {
        let pace = Refusing { refused: ProcId(p) };
        assert!(rt; prints_at(&rt, rt.alloc(), &pace, &bundle, &printed)?);
    }
    Ok(())
}

// The first word of `w` at a processor.
fn word_at(ran: &[Processor<'_>], p: usize) -> Option<u64> {
    ran.get(p)?.words(DatumId(3))?.first().copied()
}

// Whether both processors have run: only the second has `w`, and it is 10.
fn have_run(ran: &[Processor<'_>]) -> bool {
    ran.len() == 2 && word_at(ran, 0).is_none() && word_at(ran, 1) == Some(10)
}

// Whether just `w` is printed, and it is 10.
fn prints_ten(team: &Team<'_>) -> bool {
    let lists = team.outputs.lists.as_slice();
    lists.len() == 1 && lists[0].as_slice() == [10].as_slice()
}

// Whether the team prints 10, and hands back its processors, or none of them.
fn is_run(team: &Team<'_>, by_processors: bool) -> bool {
    let handed_back = if by_processors {
        have_run(&team.ran)
    } else {
        team.ran.is_empty()
    };
    handed_back && prints_ten(team)
}

// The same of the team of a loaded bundle, run at this pace.
fn runs<P: Pace, R: Threads + Wait + Sync>(
    rt: &R,
    alloc: Global,
    loaded: &Loaded,
    pace: &P,
    by_processors: bool,
) -> Result<bool, AllocError> {
    let processors = Processor::make(rt, alloc, loaded, 1)?;
    let team = run_team(rt, alloc, loaded, processors, pace)?;
    Ok(is_run(&team, by_processors))
}

// The same of the team of the heavy diamond.
fn runs_diamond<P: Pace, R: Threads + Wait + Sync>(
    rt: &R,
    alloc: Global,
    pace: &P,
    by_processors: bool,
) -> bool {
    if HEAVY_BUNDLE.len() > Limits::INPUT {
        return false;
    }
    match load(alloc, HEAVY_BUNDLE) {
        Ok(loaded) => runs(rt, alloc, &loaded, pace, by_processors) == Ok(true),
        Err(_) => false,
    }
}

#[test]
fn a_team_hands_back_what_ran(rt: HostRuntime) {
    let flags = Flags::new();
    assert!(rt; runs_diamond(&rt, rt.alloc(), &flags, true));
    let pace = Refusing { refused: ProcId(1) };
    assert!(rt; runs_diamond(&rt, rt.alloc(), &pace, false));
}
