// The names of a program.
use crate::name_table::NameTable;

/// The names of a program, each list in the order of its lines.
#[derive(Drop)]
pub struct ProgramNames {
    /// The data.
    pub datums: NameTable,
    /// The tasks.
    pub tasks: NameTable,
    /// The data that are printed.
    pub prints: NameTable,
}
