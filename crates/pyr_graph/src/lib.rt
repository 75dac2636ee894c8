//! The task graph: tasks that read and write data, the weighted edges between them, the order in
//! which they can run, and what is wrong where there is no such graph. Also the records that the
//! scheduling crates hand to one another.
#![tactic(auto)]

mod clustering;
mod cycle;
mod edge;
mod edges;
mod fault;
mod graph;
mod holds;
mod index;
mod laws;
mod limits;
mod order;
mod parts;
mod placement;
mod plan;
mod repeats;
mod writers;

pub use clustering::{Clustering, Step};
pub use edge::Edge;
pub use fault::GraphFault;
pub use graph::Graph;
pub use holds::holds_its_data;
pub use laws::{graphs_have_no_cycle, one_fault_is_told, smallest_first_is_topological};
pub use parts::{DatumParts, TaskParts};
pub use placement::Placement;
pub use plan::Plan;
