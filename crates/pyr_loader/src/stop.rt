// Where a processor stands that can't go on.
use pyr_num::{DatumId, ProcId};

/// Where a processor stands that makes no step, and why.
#[derive(Clone, Copy, Debug, PartialEq, Eq)]
pub struct Stop {
    /// The index of its next instruction; at its code's end, the length of the code.
    pub place: u32,
    /// Why it makes no step there.
    pub reason: Reason,
}

/// Why a processor makes no step.
#[derive(Clone, Copy, Debug, PartialEq, Eq)]
pub enum Reason {
    /// It has come to its code's end.
    Ended,
    /// It waits for a parcel, and the channel from this processor is empty.
    Empty {
        /// The processor at the other end of the channel.
        from: ProcId,
    },
    /// It has a parcel to send, and the channel to this processor is full.
    Full {
        /// The processor at the other end of the channel.
        to: ProcId,
    },
    /// A datum isn't in its store: the first missing one that its task reads, in the order of the
    /// reads, or the one that it is to send.
    Lacks {
        /// The datum.
        datum: DatumId,
    },
}
