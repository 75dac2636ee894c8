//! Generated programs: a large valid input that is made of a number alone. Its tasks stand in
//! layers, and each reads what two tasks of the layer before write; `specs/Layered.antt` has the
//! rule.
#![tactic(auto)]

mod bodies;
mod lists;
mod making;
mod names;
mod rule;

pub use making::make;
