//! The text of a bundle, of which each has exactly one.
#![tactic(auto)]

mod bundle_text_fault;
mod keyword;
mod laws;
mod line;
mod line_fault;
mod line_reading;
mod lines;
mod open_code;
mod open_loop;
mod ops;
mod plain_op;
mod printing;
mod reader;
mod reading;
mod stage;
mod words;

pub use bundle_text_fault::BundleTextFault;
pub use laws::one_answer_is_told;
pub use printing::print_bundle;
pub use reading::read_bundle;
