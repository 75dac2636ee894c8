//! What holds of every run of a good bundle over several frames. A law takes nothing, does nothing
//! and answers nothing.
ghost use Rattle.pyr_frames.specs.Frames.{FramesAreASeries};
ghost use Rattle.pyr_frames.specs.Safe.{FramesAreSafe};

/// The machines of a good bundle, one for each frame, are nets in series: each completes, and leaves
/// each processor where it can begin the next frame.
pub fn frames_are_a_series()
    ensures { FramesAreASeries }
{}

/// Every good bundle is safe over any number of frames. In every interleaving of its processors'
/// steps, each unfinished state that is reached has an enabled step, each run goes on to one that
/// finishes, no channel passes its capacity, a parcel that is taken in a frame was sent in that frame,
/// and what the processors have gained of each frame in the end is what the tasks print in it, run
/// one by one in any topological order.
pub fn frames_are_safe()
    ensures { FramesAreSafe }
{}
