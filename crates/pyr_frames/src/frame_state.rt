// The frame net of a bundle, as one machine for each frame.
ghost use Rattle.std.specs.Prelude.{◌≡◌, ◌≤◌, length, IfOk};
ghost use Rattle.pyr_frames.specs.FrameState.{HaveProcessors, AreFresh, way_len};
ghost use Rattle.pyr_num.specs.declared.limits.TheConstants.Limits.{FRAMES};

use crate::frame_local::FrameLocal;
use crate::frame_parcel::FrameParcel;
use pyr_bundle::Bundle;
use pyr_machine::{Loaded, State, capacity};
use pyr_net::{Action, Net};
use pyr_num::{Outputs, ProcId};
use std::alloc::{AllocError, Global};
use std::marker::Model;

// The machine of each of so many frames, all at the start.
fn fresh_machines<'a>(
    alloc: Global,
    bundle: &'a Bundle,
    frames: u32,
) -> Result<Vec<State<'a>>, AllocError>
    ensures { IfOk result (λ v. AreFresh bundle.now frames v.items) }
{
    let mut states = Vec::with_capacity(alloc, frames as usize)?;
    for frame in 0..frames {
        states.push(State::new(alloc, bundle, u64::from(frame))?)?;
    }
    Ok(states)
}

// How many parcels are on their way from p to another processor, those of all frames together.
fn on_the_way(states: &[State<'_>], p: u32, to: u32) -> u64
    requires few { length states.now ≤ FRAMES }
    requires from { HaveProcessors p states.now }
    requires to { HaveProcessors to states.now }
    ensures { result ≡ way_len states.now p to (length states.now) }
{
    let mut count = 0;
    for state in states {
        count += u64::from(state.channel_len(ProcId(p), ProcId(to)));
    }
    count
}

/// The machine of a good bundle over several frames: each processor goes through the frames one
/// after another, whatever frame the others are in, and channels hold the parcels of all frames
/// together. `new` takes all memory of a run, and no step takes any.
///
/// It is one [`State`] for each frame, side by side: a processor makes its steps in the one of the
/// frame that it is in.
#[derive(Drop)]
pub struct FrameState<'a> {
    loaded: &'a Loaded,
    frames: u32,
    stages: Vec<u32>,
    states: Vec<State<'a>>,
}

impl<'a> Model for FrameState<'a> {
    ghost use Rattle.std.specs.Coded.{codes};
    ghost use Rattle.std.specs.Prelude.{◌≤◌};
    ghost use Rattle.pyr_code.specs.contracts.op.Op as op;
    ghost use Rattle.pyr_frames.specs.FrameState.{FrameStates, IsFramed};
    ghost use Rattle.pyr_num.specs.declared.limits.TheConstants.Limits.{FRAMES};

    ghost Value = { FrameStates };

    ghost coded = { Prim.hlevel (codes, op.the_row.coded) };

    ghost view = { λ s. record {
      bundle = s.loaded.now.bundle;
      steps = s.loaded.now.steps;
      frames = s.frames;
      stages = s.stages.items;
      states = s.states.items;
    } };

    ghost invariant = { λ s. (s.frames ≤ FRAMES)
        × IsFramed s.loaded.now.bundle s.loaded.now.steps s.frames s.stages.items s.states.items };
}

impl<'a> FrameState<'a> {
    ghost use Rattle.std.specs.Prelude.{◌≡◌, ◌<◌, ◌≤◌, ◌↔◌, length, IfOk, IsTrue};
    ghost use Rattle.pyr_bundle.specs.Parts.{processor_count};
    ghost use Rattle.pyr_frames.specs.Frames.{frame_start, AreGained};
    ghost use Rattle.pyr_machine.specs.Good.{Prints};
    ghost use Rattle.pyr_frames.specs.FrameState.{frame_world, HasPassed};
    ghost use Rattle.pyr_frames.specs.Safe.{AreSafe};
    ghost use Rattle.pyr_num.specs.declared.limits.TheConstants.Limits.{LEAST_FRAMES, FRAMES};

    /// The machine at its start, for 1 to `Limits::FRAMES` frames: every processor is at the start of
    /// frame 0.
    pub fn new(alloc: Global, loaded: &'a Loaded, frames: u32) -> Result<FrameState<'a>, AllocError>
        requires some { LEAST_FRAMES ≤ frames }
        requires few { frames ≤ FRAMES }
        ensures bundle { IfOk result (λ s. s.bundle ≡ loaded.now.bundle) }
        ensures steps { IfOk result (λ s. s.steps ≡ loaded.now.steps) }
        ensures frames { IfOk result (λ s. s.frames ≡ frames) }
        ensures start { IfOk result (λ s. frame_world s ≡ frame_start) }
    {
        loaded.is_good();
        let bundle = loaded.bundle();
        let stages = vec![in alloc; 0; bundle.processors() as usize]?;
        let states = fresh_machines(alloc, bundle, frames)?;
        Ok(FrameState {
            loaded,
            frames,
            stages,
            states,
        })
    }

    /// A law, that takes no time: what is promised of every interleaving.
    pub fn is_safe(&self)
        ensures { AreSafe self.now.bundle self.now.steps self.now.frames }
    {
        self.loaded.is_good();
    }

    /// The frame that a processor is in, or the number of frames once it has ended all of them.
    pub fn frame(&self, p: ProcId) -> u32
        requires { p.0 < processor_count self.now.bundle }
        ensures { result ≡ ((frame_world self.now).locals p.0).stage }
    {
        self.stages[p.0 as usize]
    }

    /// The number of parcels on their way from one processor to another, those of all frames
    /// together.
    pub fn channel_len(&self, from: ProcId, to: ProcId) -> u64
        requires from { from.0 < processor_count self.now.bundle }
        requires to { to.0 < processor_count self.now.bundle }
        ensures { result ≡ length ((frame_world self.now).lists from.0 to.0) }
    {
        on_the_way(&self.states, from.0, to.0)
    }

    /// Whether there is such a frame, and every processor has ended it.
    pub fn has_passed(&self, frame: u32) -> bool
        ensures { IsTrue result ↔ HasPassed self.now frame }
    {
        if frame >= self.frames {
            return false;
        }
        self.stages.iter().all(|stage| frame < *stage)
    }

    /// The words of each printed datum in a frame, in the order of the prints, once every processor
    /// has ended it, whatever frame each of them is in now.
    pub fn outputs(&self, alloc: Global, frame: u32) -> Result<Outputs, AllocError>
        requires { HasPassed self.now frame }
        ensures gained { IfOk result (λ outputs.
            AreGained self.now.bundle (frame_world self.now) frame outputs.lists) }
        ensures printed { IfOk result (λ outputs.
            Prints self.now.bundle frame outputs.lists) }
    {
        self.states[frame as usize].outputs(alloc)
    }
}

impl<'a> Net for FrameState<'a> {
    ghost use Rattle.std.specs.Prelude.{◌≡◌};
    ghost use Rattle.pyr_net.specs.Net.{IsEnabled, next};
    ghost use Rattle.pyr_frames.specs.Frames.{frame_rules};
    ghost use Rattle.pyr_frames.specs.FrameState.{frame_world};

    type Local = FrameLocal;

    type Letter = FrameParcel;

    ghost rules = { λ s. frame_rules s.bundle s.frames };

    ghost world = { frame_world };

    fn actors(&self) -> u32 {
        self.loaded.bundle().processors()
    }

    fn action(&self, p: u32) -> Action {
        let stage = self.stages[p as usize];
        if stage == self.frames {
            return Action::Ended;
        }
        match self.states[stage as usize].action(p) {
            Action::Ended => Action::Internal,
            action => action,
        }
    }

    fn enabled(&self, p: u32) -> bool {
        let stage = self.stages[p as usize];
        if stage == self.frames {
            return false;
        }
        let state = &self.states[stage as usize];
        match state.action(p) {
            Action::Ended => true,
            Action::Send { to } => {
                let room = capacity(self.loaded.bundle(), p, to);
                on_the_way(&self.states, p, to) < u64::from(room)
            }
            Action::Internal | Action::Take { .. } | Action::Lacks => state.enabled(p),
        }
    }

    // A net asks that a step keeps the rules. It keeps the bundle and the number of frames, which
    // says more.
    fn step(&mut self, p: u32)
        requires { IsEnabled (frame_rules self.old.bundle self.old.frames) (frame_world self.old) p }
        ensures bundle { self.new.bundle ≡ self.old.bundle }
        ensures steps { self.new.steps ≡ self.old.steps }
        ensures frames { self.new.frames ≡ self.old.frames }
        ensures fixed { frame_rules self.new.bundle self.new.frames
            ≡ frame_rules self.old.bundle self.old.frames }
        ensures step { frame_world self.new
            ≡ next (frame_rules self.old.bundle self.old.frames) (frame_world self.old) p }
    {
        let stage = self.stages[p as usize];
        match self.states[stage as usize].action(p) {
            Action::Ended => self.stages[p as usize] = stage + 1,
            _ => self.states[stage as usize].step(p),
        }
    }
}
