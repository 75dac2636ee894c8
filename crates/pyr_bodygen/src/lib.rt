//! From task bodies to stack code that means the same. `specs/Generated.antt` says which code a
//! body gets, and `generate` makes it.
#![tactic(auto)]

mod generation;
mod laws;

pub use generation::generate;
pub use laws::{code_of_a_body_is_verified, code_runs_as_its_body};
