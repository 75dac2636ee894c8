//! A team: the processors of a bundle, each on a thread of its own, that start at one gate. Where a
//! thread can't be started, the step machine makes the run in their place, with the same outputs.
#![tactic(auto)]

mod gate;
mod homes;
mod printing;
mod team;
mod workers;

pub use team::{Team, run_team};
