// How long tasks and messages take.
use sqlite_items::Items;

/// The durations of the tasks and of the data of a graph, in abstract time units.
#[derive(Drop)]
pub struct Durations {
    /// The time of each task, by task number, at most `Limits::TIME`.
    pub time: Items<u64>,
    /// The delay of each datum between two processors, by datum number, at most `Limits::DELAY`.
    pub delay: Items<u64>,
}
