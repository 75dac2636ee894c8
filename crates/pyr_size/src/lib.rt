//! Channel capacities by occupancy: `sizes` tells how long each channel of a bundle gets along the
//! run that makes the blocks of its tasks one after another. With these capacities that run is one
//! too, so that every interleaving still comes to its end.
#![tactic(auto)]

mod blocks;
mod following;
mod laws;
mod lengths;
mod schedule;
mod sizing;

pub use laws::sized_completes;
pub use sizing::sizes;
