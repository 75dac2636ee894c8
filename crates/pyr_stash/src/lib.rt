//! The stash of a processor: parcels that came before they were asked for, the oldest first. What
//! its calls do is what the step machine says of a stash.
#![tactic(auto)]

mod stash;

pub use stash::Stash;
