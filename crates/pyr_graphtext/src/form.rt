// The forms of the lines outside bodies.
use pyr_num::{Name, NameList};

/// What a line says that is no line of a body.
#[derive(Drop)]
pub enum Form {
    /// A datum: its name, the number of its words, and its communication weight.
    Data(Name, u64, u64),
    /// The begin of a task: its name and its computation weight.
    Task(Name, u64),
    /// The data that the task reads.
    Reads(NameList),
    /// The data that the task writes.
    Writes(NameList),
    /// The end of a task.
    End,
    /// A datum that is printed.
    Print(Name),
}
