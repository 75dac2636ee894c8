//! The ends of each processor's wires, by the number of the processor at the other end, and the
//! wires of all channels of a bundle.
#![tactic(auto)]

mod ends;
mod heads;
mod making;
mod tails;

pub use ends::Ends;
pub use heads::Heads;
pub use making::wires;
pub use tails::Tails;
