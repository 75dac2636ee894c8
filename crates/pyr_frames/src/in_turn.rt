// Frames that are run one after another on one machine, each from its start to its end.
ghost use Rattle.std.specs.Prelude.{◌≡◌, IfOk};
ghost use Rattle.pyr_machine.specs.Good.{Prints};
ghost use Rattle.pyr_frames.specs.FrameState.{PrintFrames};

use pyr_machine::{Loaded, State};
use pyr_num::Outputs;
use std::alloc::{AllocError, Global};

// Runs one frame.
fn run_frame(
    alloc: Global,
    loaded: &Loaded,
    state: &mut State<'_>,
    frame: u64,
) -> Result<Outputs, AllocError>
    requires { state.old.bundle ≡ loaded.now.bundle }
    ensures bundle { state.new.bundle ≡ loaded.now.bundle }
    ensures printed { IfOk result (λ outputs. Prints loaded.now.bundle frame outputs.lists) }
{
    loaded.is_good();
    state.restart(frame);
    state.finish();
    state.outputs(alloc)
}

/// What a good bundle prints in each of so many frames, where each is run to its end before the next
/// one begins.
pub fn run_in_turn(alloc: Global, loaded: &Loaded, frames: u32) -> Result<Vec<Outputs>, AllocError>
    ensures { IfOk result (λ v. PrintFrames loaded.now.bundle frames v.items) }
{
    let mut state = State::new(alloc, loaded.bundle(), 0)?;
    let mut printed = Vec::with_capacity(alloc, frames as usize)?;
    for frame in 0..frames {
        printed.push(run_frame(alloc, loaded, &mut state, u64::from(frame))?)?;
    }
    Ok(printed)
}
