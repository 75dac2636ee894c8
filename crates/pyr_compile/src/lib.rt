//! From programs to bundles: the tasks are clustered, the clusters go to processors, the tasks are
//! ordered there, and the plan becomes a bundle. That the bundle can't get stuck is proved here: the
//! run that follows the plan is complete, so every run is.
#![tactic(auto)]

mod compiling;
mod laws;
mod planning;

pub use compiling::{compile, compile_plan};
pub use laws::plans_complete;
pub use planning::{Planned, plan};
