// Which processor each task goes to.
use pyr_num::ProcId;
use sqlite_items::Items;

/// A processor for each task.
#[derive(Drop)]
pub struct Placement {
    /// The number of processors.
    pub processors: u32,
    /// The processor of each task, by task number.
    pub of: Items<ProcId>,
}
