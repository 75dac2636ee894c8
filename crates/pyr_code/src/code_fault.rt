/// Why code is refused.
#[derive(Clone, Copy, Debug, PartialEq, Eq)]
pub enum CodeFault {
    /// The first fault of the code, in text order. The place is the number of an op, from 0, those
    /// within loops counted too; at the end of the whole code it is the count of ops.
    BadCode { place: u32, kind: BadKind },
    /// Memory was wanted.
    Memory,
}

/// What is wrong with an op. Of several kinds at one op, the first in this order is told.
#[derive(Clone, Copy, Debug, PartialEq, Eq)]
pub enum BadKind {
    /// The shape has no such local.
    Local,
    /// The shape has no such slot, or no such output.
    Slot,
    /// The stack holds fewer words than the op takes.
    Underflow,
    /// The op leaves more than `MAX_HEIGHT` words.
    Tall,
    /// The code of a loop doesn't leave the height that it found, told with the loop's number; or
    /// the whole code doesn't leave the stack empty.
    Height,
}
