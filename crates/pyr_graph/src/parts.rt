// What a graph is made of.
use pyr_num::DatumId;
use sqlite_items::Items;

/// A task as it is handed in.
#[derive(Drop)]
pub struct TaskParts {
    /// The computation weight, in abstract time units: from `Limits::LEAST_COST` to `Limits::COST`.
    pub cost: u32,
    /// The data that the task reads, at most `Limits::READS`, each once.
    pub reads: Items<DatumId>,
    /// The data that the task writes, at most `Limits::WRITES`, each once.
    pub writes: Items<DatumId>,
}

/// A datum as it is handed in.
#[derive(Clone, Copy, PartialEq, Eq)]
pub struct DatumParts {
    /// The number of its words: from `Limits::LEAST_LENGTH` to `Limits::LENGTH`.
    pub length: u32,
    /// The communication weight, in abstract time units, at most `Limits::COMM`: what it costs to
    /// carry the datum from its writer to a reader on another processor.
    pub comm: u32,
}
