use crate::tests::reading::loaded_of;
use crate::tests::stepping::{run_alone, run_out, step_one};
use crate::tests::texts::{COUNTING, DIAMOND, EMPTY};
use pyr_frames::{FrameState, frames_are_a_series, frames_are_safe, run_in_turn};
use pyr_machine::Loaded;
use pyr_net::{Action, Net, run_to_end};
use pyr_num::{Limits, ProcId};
use std::alloc::{AllocError, Global};

// The frames that the two processors are in.
fn frames_of(state: &FrameState<'_>) -> Option<(u32, u32)> {
    if 1 < state.actors() {
        Some((state.frame(ProcId(0)), state.frame(ProcId(1))))
    } else {
        None
    }
}

// How many parcels are on their way from the first processor to the second.
fn on_the_way(state: &FrameState<'_>) -> Option<u64> {
    if 1 < state.actors() {
        Some(state.channel_len(ProcId(0), ProcId(1)))
    } else {
        None
    }
}

// Whether the processor does this next.
fn does(state: &FrameState<'_>, p: u32, action: Action) -> bool {
    p < state.actors() && state.action(p) == action
}

// The first word of the print at an index, in a frame that every processor has ended.
fn word_of(
    alloc: Global,
    state: &FrameState<'_>,
    frame: u32,
    print: usize,
) -> Result<Option<u64>, AllocError> {
    if !state.has_passed(frame) {
        return Ok(None);
    }
    let outputs = state.outputs(alloc, frame)?;
    Ok(match outputs.lists.as_slice().get(print) {
        Some(words) => words.as_slice().first().copied(),
        None => None,
    })
}

// Whether a run of two frames of the diamond has 24 steps, after which both processors have ended.
fn makes_24(alloc: Global, loaded: &Loaded, greatest: bool) -> Result<bool, AllocError> {
    let mut state = FrameState::new(alloc, loaded, 2)?;
    let steps = run_out(&mut state, greatest);
    Ok(
        steps == 24
            && does(&state, 0, Action::Ended)
            && does(&state, 1, Action::Ended)
            && frames_of(&state) == Some((2, 2))
            && on_the_way(&state) == Some(0)
            && word_of(alloc, &state, 0, 0)? == Some(10)
            && word_of(alloc, &state, 1, 0)? == Some(10),
    )
}

// Whether a processor that runs alone goes on into the next frame, as far as the channel has room
// for its parcels, and the other one finds the parcels of its own frame in front.
fn runs_ahead(alloc: Global, loaded: &Loaded) -> Result<bool, AllocError> {
    let mut state = FrameState::new(alloc, loaded, 2)?;
    // four instructions, the end of frame 0, and the first instruction of frame 1
    let ahead = run_alone(&mut state, 0) == 6
        && frames_of(&state) == Some((1, 0))
        && on_the_way(&state) == Some(2)
        && does(&state, 0, Action::Send { to: 1 });
    // a take of the other one leaves room for a send of frame 1
    let taken = step_one(&mut state, 1) && step_one(&mut state, 0);
    let both = frames_of(&state) == Some((1, 0)) && on_the_way(&state) == Some(2);
    // nothing of either frame is lost
    let steps = run_out(&mut state, true);
    Ok(
        ahead
            && taken
            && both
            && steps == 16
            && word_of(alloc, &state, 0, 0)? == Some(10)
            && word_of(alloc, &state, 1, 0)? == Some(10),
    )
}

// Whether what is printed in a frame is told as soon as both processors have ended it.
fn counts(alloc: Global, loaded: &Loaded) -> Result<bool, AllocError> {
    let mut state = FrameState::new(alloc, loaded, 3)?;
    run_alone(&mut state, 0);
    let waits = frames_of(&state) == Some((1, 0)) && word_of(alloc, &state, 0, 0)?.is_none();
    // the other one takes, receives, executes, and ends frame 0
    let made = step_one(&mut state, 1)
        && step_one(&mut state, 1)
        && step_one(&mut state, 1)
        && step_one(&mut state, 1);
    let first = made
        && frames_of(&state) == Some((1, 1))
        && word_of(alloc, &state, 0, 0)? == Some(10)
        && word_of(alloc, &state, 1, 0)?.is_none();
    let ended = run_to_end(&mut state, 1_000).is_some();
    Ok(
        waits
            && first
            && ended
            && word_of(alloc, &state, 1, 0)? == Some(11)
            && word_of(alloc, &state, 1, 1)? == Some(1)
            && word_of(alloc, &state, 2, 0)? == Some(12)
            && word_of(alloc, &state, 2, 1)? == Some(2)
            && word_of(alloc, &state, 3, 0)?.is_none(),
    )
}

// Whether as many frames as there may be can be run.
fn runs_many(alloc: Global, loaded: &Loaded) -> Result<bool, AllocError> {
    let mut state = FrameState::new(alloc, loaded, Limits::FRAMES)?;
    state.is_safe();
    let steps = run_to_end(&mut state, 1_000_000);
    Ok(steps == Some(1_024 * 7) && word_of(alloc, &state, 1_023, 0)? == Some(1_033))
}

// Whether the two longest runs of the bundle that has this text are so.
fn makes_24_in_both_orders(alloc: Global, text: &[u8]) -> bool {
    match loaded_of(alloc, text) {
        Ok(loaded) => {
            makes_24(alloc, &loaded, false) == Ok(true)
                && makes_24(alloc, &loaded, true) == Ok(true)
        }
        Err(_) => false,
    }
}

#[test]
fn two_frames_have_their_steps_in_both_orders(rt: HostRuntime) {
    assert!(rt; makes_24_in_both_orders(rt.alloc(), DIAMOND));
    frames_are_a_series();
    frames_are_safe();
}

// The same of a processor that runs ahead.
fn runs_ahead_in(alloc: Global, text: &[u8]) -> bool {
    match loaded_of(alloc, text) {
        Ok(loaded) => runs_ahead(alloc, &loaded) == Ok(true),
        Err(_) => false,
    }
}

#[test]
fn processors_stand_in_different_frames(rt: HostRuntime) {
    assert!(rt; runs_ahead_in(rt.alloc(), DIAMOND));
}

// The same of what is printed in each frame, of a few and of as many as there may be.
fn counts_in(alloc: Global, text: &[u8]) -> bool {
    match loaded_of(alloc, text) {
        Ok(loaded) => {
            counts(alloc, &loaded) == Ok(true) && runs_many(alloc, &loaded) == Ok(true)
        }
        Err(_) => false,
    }
}

#[test]
fn each_frame_prints_its_own_words(rt: HostRuntime) {
    assert!(rt; counts_in(rt.alloc(), COUNTING));
}

// Whether three frames of a processor without code are three steps, one for the end of each.
fn ends_thrice(alloc: Global, loaded: &Loaded) -> Result<bool, AllocError> {
    let mut state = FrameState::new(alloc, loaded, 3)?;
    let steps = run_to_end(&mut state, 1_000);
    Ok(steps == Some(3) && does(&state, 0, Action::Ended) && state.has_passed(2))
}

// The same of the bundle that has this text.
fn ends_thrice_in(alloc: Global, text: &[u8]) -> bool {
    match loaded_of(alloc, text) {
        Ok(loaded) => ends_thrice(alloc, &loaded) == Ok(true),
        Err(_) => false,
    }
}

#[test]
fn a_processor_without_code_goes_through_frames(rt: HostRuntime) {
    assert!(rt; ends_thrice_in(rt.alloc(), EMPTY));
}

// The first word of the first print in a frame of those that are run one after another.
fn printed(alloc: Global, loaded: &Loaded, frame: usize) -> Result<Option<u64>, AllocError> {
    let outputs = run_in_turn(alloc, loaded, 3)?;
    Ok(match outputs.get(frame) {
        Some(lists) => match lists.lists.as_slice().first() {
            Some(words) => words.as_slice().first().copied(),
            None => None,
        },
        None => None,
    })
}

// Whether the frames of the bundle that has this text print their numbers and 10.
fn prints_in_turn(alloc: Global, text: &[u8]) -> bool {
    match loaded_of(alloc, text) {
        Ok(loaded) => {
            printed(alloc, &loaded, 0) == Ok(Some(10))
                && printed(alloc, &loaded, 2) == Ok(Some(12))
                && printed(alloc, &loaded, 3) == Ok(None)
        }
        Err(_) => false,
    }
}

#[test]
fn frames_run_one_after_another(rt: HostRuntime) {
    assert!(rt; prints_in_turn(rt.alloc(), COUNTING));
}
