//! Orders the tasks on the processors of a placement: ready critical path ordering (after Yang and
//! Gerasoulis, 1992).
#![tactic(auto)]

mod laws;
mod ordering;
mod placed;
mod queue;
mod ready;
mod timetable;

pub use laws::a_placement_has_one_plan;
pub use ordering::order;
pub use placed::places_all;
