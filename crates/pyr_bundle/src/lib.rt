//! Bundles: one list of instructions for each processor, the code of each task, and the channels
//! between processors; and the laws that every bundle keeps, each with the first place where the
//! parts that are handed in break it.
#![tactic(auto)]

mod bundle;
mod bundle_fault;
mod bundle_task;
mod capacity;
mod channels;
mod codes;
mod counts;
mod instr;
mod lawfulness;
mod laws;
mod names;
mod numbers;
mod operands;
mod raw_bundle;
mod raw_channel;
mod raw_datum;
mod raw_instr;
mod raw_task;
mod receives;
mod sends;
mod typing;

pub use bundle::Bundle;
pub use bundle_fault::BundleFault;
pub use bundle_task::BundleTask;
pub use capacity::Capacity;
pub use instr::Instr;
pub use laws::{any_order_gives_the_values, every_datum_has_a_value, one_fault_is_told};
pub use raw_bundle::RawBundle;
pub use raw_channel::RawChannel;
pub use raw_datum::RawDatum;
pub use raw_instr::RawInstr;
pub use raw_task::RawTask;
