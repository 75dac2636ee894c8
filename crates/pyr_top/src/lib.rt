//! The commands of the program, from the bytes that it reads to the bytes that it writes.
#![tactic(auto)]

mod calls;
mod cluster_report;
mod command;
mod command_outputs;
mod figures;
mod laws;
mod load_messages;
mod messages;
mod outputs_text;
mod refusal;
mod running;
mod status;
mod streams;
mod summary_text;

pub use calls::{answer, pyrros, run_command};
pub use command::Command;
pub use laws::{one_answer_is_defined, words_spell_one_command};
pub use refusal::Refusal;
pub use status::Status;
