//! Stack code of task bodies: its ops, the check that settles at once that a run never goes wrong,
//! and the run itself, in place.
#![tactic(auto)]

mod code_fault;
mod copying;
mod effect;
mod op;
mod running;
mod shape;
mod sizes;
mod stack;
mod steps;
mod verified;
mod walking;

pub use code_fault::{BadKind, CodeFault};
pub use copying::copy_ops;
pub use op::Op;
pub use running::{exec, exec_counted};
pub use shape::Shape;
pub use stack::MAX_HEIGHT;
pub use steps::Steps;
pub use verified::{Verified, verify};
