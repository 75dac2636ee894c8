//! A bundle run in frame after frame: each processor goes through the frames by itself, no processor
//! waits for the others at the end of one, and still each frame prints what it would print alone.
#![tactic(auto)]

mod frame_local;
mod frame_parcel;
mod frame_state;
mod in_turn;
mod laws;

pub use frame_local::FrameLocal;
pub use frame_parcel::FrameParcel;
pub use frame_state::FrameState;
pub use in_turn::run_in_turn;
pub use laws::{frames_are_a_series, frames_are_safe};
