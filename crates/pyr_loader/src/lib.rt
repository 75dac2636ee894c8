//! The loader of bundles. Anyone may write a bundle's text. The loader accepts exactly the texts of
//! those lawful bundles of which a complete run exists, so that of an accepted bundle no
//! interleaving gets stuck, none passes a capacity, and all end alike. Every refusal tells its cause.
#![tactic(auto)]

mod laws;
mod leftover;
mod load_fault;
mod loading;
mod rehearsal;
mod stop;
mod stops;
mod work_list;

pub use laws::{loaded_bundles_are_safe, one_answer_is_told, reasons_are_true};
pub use load_fault::LoadFault;
pub use loading::load;
pub use stop::{Reason, Stop};
