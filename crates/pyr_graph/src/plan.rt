// When each task runs.
use pyr_num::TaskList;
use sqlite_items::Items;

/// An order of all tasks with their times, on the processors of a placement.
#[derive(Drop)]
pub struct Plan {
    /// The tasks in the order in which they were placed.
    pub order: TaskList,
    /// The start of each task, by task number, in abstract time units.
    pub start: Items<u64>,
    /// The finish of each task, by task number, in abstract time units.
    pub finish: Items<u64>,
}
