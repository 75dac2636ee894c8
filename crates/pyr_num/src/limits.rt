// How large the inputs of the program may be.

/// What a limit is about. Where several limits are passed at one place, the first variant is told.
#[derive(Clone, Copy, Debug, PartialEq, Eq)]
pub enum Quantity {
    /// The bytes of a text.
    Input,
    /// The processors of a bundle.
    Processors,
    /// The tasks of a graph or of a bundle.
    Tasks,
    /// The data of a graph or of a bundle.
    Datums,
    /// The words of a datum.
    Length,
    /// The communication weight of a datum, in abstract time units.
    Comm,
    /// The computation weight of a task, in abstract time units.
    Cost,
    /// The data that one task reads.
    Reads,
    /// The reads of all tasks together.
    AllReads,
    /// The data that one task writes.
    Writes,
    /// The brackets of a line that are open at once.
    Depth,
    /// The expressions and statements of one body.
    Nodes,
    /// The expressions and statements of all bodies together.
    AllNodes,
    /// The loops that stand in one another.
    Loops,
    /// The turns of a loop.
    Count,
    /// The locals of a body.
    Locals,
    /// The operations that one run of a body makes.
    Work,
    /// The operations that one run of all bodies makes.
    AllWork,
    /// The printed data.
    Prints,
    /// The channels of a bundle.
    Channels,
    /// The instructions of all processors of a bundle together.
    Instructions,
    /// The time that a task takes, in abstract time units.
    Time,
    /// The time that a datum takes from one processor to another, in abstract time units.
    Delay,
}

/// The numbers of the limits, one constant for each. A constant named `LEAST_..` is the least number
/// that is allowed, every other one the greatest; where there is no least one, it is 0.
pub struct Limits;

impl Limits {
    pub const INPUT: usize = 16_777_216;

    pub const LEAST_PROCESSORS: u32 = 1;

    pub const PROCESSORS: u32 = 64;

    pub const TASKS: u32 = 4_096;

    pub const DATUMS: u32 = 8_192;

    pub const LEAST_LENGTH: u32 = 1;

    pub const LENGTH: u32 = 64;

    pub const COMM: u32 = 1_000_000;

    pub const LEAST_COST: u32 = 1;

    pub const COST: u32 = 1_000_000;

    pub const READS: u32 = 64;

    pub const ALL_READS: u32 = 65_536;

    pub const WRITES: u32 = 8_192;

    pub const DEPTH: u32 = 31;

    pub const NODES: u32 = 4_096;

    pub const ALL_NODES: u32 = 262_144;

    pub const LOOPS: u32 = 16;

    pub const COUNT: u32 = 1_000_000;

    pub const LOCALS: u32 = 64;

    pub const WORK: u64 = 1_000_000;

    pub const ALL_WORK: u64 = 50_000_000;

    pub const PRINTS: u32 = 8_192;

    pub const CHANNELS: u32 = 4_032;

    pub const INSTRUCTIONS: u32 = 135_168;

    pub const TIME: u32 = 1_000_000;

    pub const DELAY: u32 = 1_000_000;

    // How many frames a bundle is run in, one after another. No text has them.
    pub const LEAST_FRAMES: u32 = 1;

    pub const FRAMES: u32 = 1_024;
}
