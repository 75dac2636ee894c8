//! Task bodies: expressions and statements over the data that a task reads and writes, what they
//! mean, how much they do, and the reader and the printer of their lines. `evaluate` runs a body in
//! place; `specs/Meaning.antt` says what it has to leave.
#![tactic(auto)]

mod body;
mod body_reader;
mod counting;
mod cursor;
mod evaluation;
mod expr;
mod expressions;
mod laws;
mod line_fault;
mod line_forms;
mod naming;
mod open_loop;
mod operators;
mod printing;
mod reading;
mod slot_names;
mod stmt;
mod taking;
mod written_expr;
mod written_line;

pub use body::Body;
pub use body_reader::BodyReader;
pub use counting::{nodes, work};
pub use evaluation::evaluate;
pub use expr::Expr;
pub use laws::{
    expressions_are_uniquely_readable, line_is_decided, line_is_unique, lines_are_one_tree,
    lines_taken_stand,
};
pub use line_fault::LineFault;
pub use printing::print_body;
pub use slot_names::SlotNames;
pub use stmt::Stmt;
