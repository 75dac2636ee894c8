//! Merges clusters onto a number of processors by load: the heaviest cluster first, each to the
//! processor that has the least to do so far.
#![tactic(auto)]

mod laws;
mod merging;
mod partition;
mod weighed;

pub use laws::a_clustering_has_one_placement;
pub use merging::merge;
pub use partition::is_partition;
