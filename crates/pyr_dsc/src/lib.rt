//! Clustering by dominant sequences: which tasks are to run on one processor, before the number of
//! processors is known (after Yang and Gerasoulis, 1994).
#![tactic(auto)]

mod clustering;
mod head;
mod laws;
mod lists;
mod placing;
mod progress;
mod sender;
mod turn;

pub use clustering::cluster;
pub use laws::{a_graph_has_one_run, runs_keep_time, steps_keep_time, time_is_of_three};
