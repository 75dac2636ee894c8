//! Wires between processors. A wire carries one list of parcels, in order, from one processor to
//! another, over a bounded channel under a rule: the parcels in the channel are those of the list
//! from the count of the end that receives up to the count of the end that sends.
#![tactic(auto)]

mod feed;
mod head;
mod laws;
mod making;
mod rule;
mod tail;

pub use feed::Feed;
pub use head::Head;
pub use laws::wire_keeps_order;
pub use making::wire;
pub use tail::Tail;
