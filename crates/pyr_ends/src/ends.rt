// All ends of one processor.
use crate::{Heads, Tails};

/// The ends of the wires of one processor.
#[derive(Drop)]
pub struct Ends {
    /// The ends that send.
    pub tails: Tails,
    /// The ends that receive.
    pub heads: Heads,
}
