//! Lists of tasks by priority, which are kept from step to step.
#![tactic(auto)]

mod queue;
mod urgency;

pub use queue::TaskQueue;
pub use urgency::Urgency;
