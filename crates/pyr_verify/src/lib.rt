//! The whole way of a generated graph: it is made, planned, compiled, printed, loaded and run
//! serially, and a few numbers tell what came of it. All of it is determined by the numbers of tasks
//! and processors, so the summary is the same at each run.
#![tactic(auto)]

mod counting;
mod laws;
mod loading;
mod running;
mod summary;
mod verifying;

pub use laws::one_summary;
pub use summary::Summary;
pub use verifying::verify_make;
