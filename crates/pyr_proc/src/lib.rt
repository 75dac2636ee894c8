//! A running processor: it goes through its code, over wires to the others, until its local run has
//! ended. All memory of a run is taken when the processors of a bundle are made, and a run takes
//! none.
#![tactic(auto)]

mod computing;
mod entry;
mod feed;
mod laws;
mod making;
mod pace;
mod processor;
mod room;
mod seat;
mod station;
mod store;

pub use feed::LoadedFeed;
pub use laws::{ends_have_values, feeds_are_traffic};
pub use pace::{Free, Pace};
pub use processor::Processor;
pub use seat::Seat;
