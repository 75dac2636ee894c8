// The edges of a graph.
use pyr_num::TaskId;

/// An edge from or to a task that the place of use tells.
#[derive(Clone, Copy, PartialEq, Eq)]
pub struct Edge {
    /// The task at the other end.
    pub task: TaskId,
    /// The sum of the communication weights of the data that the edge carries, in abstract time
    /// units.
    pub weight: u64,
}
