// The summary.

/// What came of a generated graph that was compiled and run.
#[derive(Clone, Copy, PartialEq, Eq)]
pub struct Summary {
    /// The number of tasks.
    pub tasks: u32,
    /// The number of processors.
    pub processors: u32,
    /// The number of sends in the code of all processors together: in each run so many parcels are
    /// passed on.
    pub messages: u64,
    /// The number of steps of each complete run.
    pub steps: u64,
    /// The greatest finish of the plan, in abstract time units.
    pub time: u64,
    /// The sum of all printed words, modulo 2^64.
    pub sum: u64,
}
