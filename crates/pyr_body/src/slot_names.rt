// The names of the data that a body may name.
use pyr_num::NameList;

/// The names of the data that a task reads and writes, in the order of its slots.
#[derive(Drop)]
pub struct SlotNames {
    /// The data that it reads: the first slots.
    pub reads: NameList,
    /// The data that it writes: the slots behind them, which are the outputs.
    pub writes: NameList,
}
