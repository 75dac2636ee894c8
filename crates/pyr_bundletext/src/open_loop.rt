use pyr_code::Op;
use sqlite_items::Items;

/// A loop whose lines are being read.
#[derive(Drop)]
pub struct OpenLoop {
    /// The ops that stand before the loop, in the loop around it or in the task.
    pub before: Items<Op>,
    /// The local that each turn sets.
    pub local: u64,
    /// The count of turns.
    pub count: u64,
}
