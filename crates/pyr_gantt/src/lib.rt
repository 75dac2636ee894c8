//! A plan as text, after the charts of Henry Gantt: when each task runs, and which part of the time
//! each processor is at work.
#![tactic(auto)]

mod bars;
mod chart;
mod time;

pub use bars::{BUSY, COLUMNS, IDLE};
pub use chart::report;
pub use time::time_of;
