//! What a plan takes where its tasks and its messages take other times than it was made for, and a
//! bound that no schedule can beat.
#![tactic(auto)]

mod bound;
mod bounding;
mod duration_fault;
mod duration_line;
mod durations;
mod given;
mod input;
mod laws;
mod line_reading;
mod reading;
mod simulating;
mod times;
mod values;

pub use bound::Bound;
pub use bounding::lower_bound;
pub use duration_fault::DurationFault;
pub use durations::Durations;
pub use input::{InputParts, cut_input};
pub use laws::{no_schedule_is_shorter, simulated_times_are_a_schedule};
pub use reading::read_durations;
pub use simulating::simulate;
pub use times::Times;
