// A task whose lines are all read.
use pyr_body::Body;
use pyr_graph::TaskParts;

/// A task whose lines are all read.
#[derive(Drop)]
pub struct ClosedTask {
    /// What the graph knows of it.
    pub parts: TaskParts,
    /// Its body.
    pub body: Body,
}
