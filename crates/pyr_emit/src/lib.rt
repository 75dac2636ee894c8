//! From plans to bundles: each task gets a block of instructions, which receives what the task reads
//! and isn't there yet, runs the task, and sends what it writes to where it is read. The code of a
//! processor is the blocks of its tasks, in the plan's order. `specs/Emission.antt` says which bundle
//! a plan gets, and `emit` makes it.
#![tactic(auto)]

mod blocks;
mod channels;
mod codes;
mod emission;
mod laws;
mod parts;
mod readers;
mod rising;

pub use emission::emit;
pub use laws::emissions_keep_the_meaning;
