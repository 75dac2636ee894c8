//! Graph texts: programs, which are task graphs with names and bodies, the reader of their texts,
//! the printer of the canonical text, and the tasks run one by one. What a text stands for, and
//! which fault it has, is said over its lines in `specs/`.
#![tactic(auto)]

mod closed_task;
mod form;
mod form_reading;
mod laws;
mod line_fault;
mod making;
mod name_table;
mod names;
mod open_part;
mod open_task;
mod printing;
mod program;
mod program_fault;
mod program_names;
mod reader;
mod reading;
mod room;
mod running;
mod stage;
mod text_lines;
mod whole_fault;

pub use laws::{any_order_gives_the_values, one_answer_is_told};
pub use name_table::NameTable;
pub use printing::print_program;
pub use program::Program;
pub use program_fault::{NameKind, ProgramFault};
pub use reading::read_program;
pub use running::sequential;
pub use text_lines::first_line;
