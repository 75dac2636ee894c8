use crate::tests::reading::bundle_of;
use crate::tests::stepping::{run_out, step_any, step_one};
use crate::tests::texts::{COUNTING, CROSSING, DIAMOND, LEFT, MUTUAL, ROOMY, SWAPPED, UNMADE};
use pyr_bundle::Bundle;
use pyr_machine::{State, Tags};
use pyr_net::{Action, Net, run_to_end};
use pyr_num::{DatumId, ProcId};
use std::alloc::{AllocError, Global};

// A bundle of two processors, with the number of steps of its longest runs, where each processor
// stands at their end and what it does next, and how many parcels are on their way from the first to
// the second.
struct Case {
    text: &'static [u8],
    steps: u64,
    first: (u32, Action),
    second: (u32, Action),
    on_the_way: u32,
}

const CASES: &[Case] = &[
    // each waits for the other
    Case {
        text: MUTUAL,
        steps: 0,
        first: (0, Action::Take { from: 1 }),
        second: (0, Action::Take { from: 0 }),
        on_the_way: 0,
    },
    // both channels are full
    Case {
        text: CROSSING,
        steps: 4,
        first: (2, Action::Send { to: 1 }),
        second: (2, Action::Send { to: 0 }),
        on_the_way: 1,
    },
    // they have room
    Case {
        text: ROOMY,
        steps: 14,
        first: (5, Action::Ended),
        second: (5, Action::Ended),
        on_the_way: 0,
    },
    // nobody receives
    Case {
        text: LEFT,
        steps: 2,
        first: (2, Action::Ended),
        second: (0, Action::Ended),
        on_the_way: 1,
    },
    // a datum is sent before it is made
    Case {
        text: UNMADE,
        steps: 0,
        first: (0, Action::Lacks),
        second: (0, Action::Take { from: 0 }),
        on_the_way: 0,
    },
];

// Whether a processor stands at this place, and does this next.
fn stands_at(tags: &Tags<'_>, p: u32, (place, action): (u32, Action)) -> bool {
    p < tags.actors() && tags.place(ProcId(p)) == place && tags.action(p) == action
}

// The parcels on their way from the first processor to the second.
fn on_the_way(tags: &Tags<'_>) -> Option<u32> {
    if 1 < tags.actors() {
        Some(tags.channel_len(ProcId(0), ProcId(1)))
    } else {
        None
    }
}

impl Case {
    // Whether the tag machine stands so.
    fn is_end(&self, tags: &Tags<'_>) -> bool {
        stands_at(tags, 0, self.first)
            && stands_at(tags, 1, self.second)
            && on_the_way(tags) == Some(self.on_the_way)
    }

    // Whether the run that steps the smallest processor, or the greatest, ends so.
    fn ends_by(&self, alloc: Global, bundle: &Bundle, greatest: bool) -> Result<bool, AllocError> {
        let mut tags = Tags::new(alloc, bundle)?;
        let steps = run_out(&mut tags, greatest);
        Ok(steps == self.steps && self.is_end(&tags))
    }

    // Whether the run that `run_to_end` makes ends so.
    fn ends(&self, alloc: Global, bundle: &Bundle) -> Result<bool, AllocError> {
        let mut tags = Tags::new(alloc, bundle)?;
        let steps = run_to_end(&mut tags, 1_000_000);
        Ok(steps == Some(self.steps) && self.is_end(&tags))
    }

    // Whether all three runs do.
    fn ends_by_all(&self, alloc: Global, bundle: &Bundle) -> bool {
        self.ends(alloc, bundle) == Ok(true)
            && self.ends_by(alloc, bundle, false) == Ok(true)
            && self.ends_by(alloc, bundle, true) == Ok(true)
    }

    fn is_so(&self, alloc: Global) -> bool {
        match bundle_of(alloc, self.text) {
            Ok(bundle) => self.ends_by_all(alloc, &bundle),
            Err(_) => false,
        }
    }
}

#[test]
fn longest_runs_end_so(rt: HostRuntime) {
    for case in CASES {
        assert!(rt; case.is_so(rt.alloc()));
    }
}

// Steps until the second processor has ended its first instruction.
fn run_to_first_receive(tags: &mut Tags<'_>) {
    for _ in 0..100 {
        if 1 < tags.actors() && tags.place(ProcId(1)) == 1 {
            break;
        }
        step_any(tags, false);
    }
}

// Whether the second datum alone is in the store of the second processor, and one parcel in its
// stash.
fn is_stashed(tags: &Tags<'_>) -> bool {
    1 < tags.actors()
        && tags.stash_len(ProcId(1)) == 1
        && tags.has(ProcId(1), DatumId(1))
        && !tags.has(ProcId(1), DatumId(0))
}

// Whether what comes too early is in the stash at the first receive.
fn stashes_first(alloc: Global, bundle: &Bundle) -> Result<bool, AllocError> {
    let mut tags = Tags::new(alloc, bundle)?;
    run_to_first_receive(&mut tags);
    Ok(is_stashed(&tags))
}

// The same of the bundle that has this text.
fn is_stashed_first(alloc: Global, text: &[u8]) -> bool {
    match bundle_of(alloc, text) {
        Ok(bundle) => stashes_first(alloc, &bundle) == Ok(true),
        Err(_) => false,
    }
}

#[test]
fn a_stash_holds_what_comes_too_early(rt: HostRuntime) {
    assert!(rt; is_stashed_first(rt.alloc(), SWAPPED));
}

// The first word of the last datum of four at a processor.
fn word(state: &State<'_>, p: u32) -> Option<u64> {
    if p < state.actors() {
        state.word(ProcId(p), DatumId(3), 0)
    } else {
        None
    }
}

// Whether a run of the diamond has ten steps, and leaves 10 at the second processor alone.
fn makes_ten(alloc: Global, bundle: &Bundle, greatest: bool) -> Result<bool, AllocError> {
    let mut state = State::new(alloc, bundle, 0)?;
    let steps = run_out(&mut state, greatest);
    Ok(steps == 10 && word(&state, 0).is_none() && word(&state, 1) == Some(10))
}

fn makes_ten_in_both_orders(alloc: Global, bundle: &Bundle) -> bool {
    makes_ten(alloc, bundle, false) == Ok(true) && makes_ten(alloc, bundle, true) == Ok(true)
}

// The same of the bundle that has this text.
fn is_ten_in_both_orders(alloc: Global, text: &[u8]) -> bool {
    match bundle_of(alloc, text) {
        Ok(bundle) => makes_ten_in_both_orders(alloc, &bundle),
        Err(_) => false,
    }
}

#[test]
fn words_are_the_same_in_both_orders(rt: HostRuntime) {
    assert!(rt; is_ten_in_both_orders(rt.alloc(), DIAMOND));
}

// The first word of the second of two data at the second processor.
fn counted(state: &State<'_>) -> Option<u64> {
    if 1 < state.actors() {
        state.word(ProcId(1), DatumId(1), 0)
    } else {
        None
    }
}

// Whether a machine that is put back in the middle of a run, or at its end, runs as a new one.
fn restarts(alloc: Global, bundle: &Bundle) -> Result<bool, AllocError> {
    let mut state = State::new(alloc, bundle, 5)?;
    // a parcel is in the stash, and its datum in the store of its sender
    let half = step_one(&mut state, 0) && step_one(&mut state, 0) && step_one(&mut state, 1);
    state.restart(7);
    let fresh = counted(&state).is_none();
    let first = run_out(&mut state, false) == 5 && counted(&state) == Some(17);
    state.restart(8);
    let second = run_out(&mut state, true) == 5 && counted(&state) == Some(18);
    Ok(half && fresh && first && second)
}

// The same of the bundle that has this text.
fn is_put_back(alloc: Global, text: &[u8]) -> bool {
    match bundle_of(alloc, text) {
        Ok(bundle) => restarts(alloc, &bundle) == Ok(true),
        Err(_) => false,
    }
}

#[test]
fn a_machine_runs_again_in_another_frame(rt: HostRuntime) {
    assert!(rt; is_put_back(rt.alloc(), COUNTING));
}
