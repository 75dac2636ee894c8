// What a clustering algorithm answers.
use pyr_num::{TaskId, TaskList};
use sqlite_items::Items;

/// One step of a clustering algorithm: a task is examined and put at the end of a cluster.
#[derive(Clone, Copy, PartialEq, Eq)]
pub struct Step {
    /// The task that is examined.
    pub task: TaskId,
    /// The cluster that it goes to, by the order in which the clusters were opened, from 0.
    pub cluster: u32,
    /// When it starts, in abstract time units.
    pub start: u64,
    /// The estimated parallel time after this step, in abstract time units.
    pub pt: u64,
}

/// The run of a clustering algorithm, for any number of processors.
#[derive(Drop)]
pub struct Clustering {
    /// The estimated parallel time before the first step, in abstract time units.
    pub first: u64,
    /// The steps, in order.
    pub steps: Items<Step>,
    /// The clusters after the last step, by number, each with its tasks in order.
    pub clusters: Items<TaskList>,
}
