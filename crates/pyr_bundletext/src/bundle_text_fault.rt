use pyr_num::Quantity;

/// Why a text is that of no bundle within the limits. The first faulty line is told, whatever
/// follows it; lines are numbered from 1.
#[derive(Clone, Copy, Debug, PartialEq, Eq)]
pub enum BundleTextFault {
    /// The line is none that may stand there, isn't ended by a line feed, or is missing; or bytes
    /// follow the last line.
    BadText {
        /// The number of the line.
        line: u32,
    },
    /// The line passes a limit: of several limits the one that `Quantity` lists first.
    Limit {
        /// The number of the line.
        line: u32,
        /// The limit.
        which: Quantity,
    },
    /// Memory ran out. This may come in the place of any other answer.
    Memory,
}
