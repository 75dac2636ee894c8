// The lines of a bundle text.
use crate::plain_op::PlainOp;
use pyr_bundle::{RawChannel, RawInstr};
use pyr_num::Name;
use sqlite_items::Items;

/// What a line of a bundle text says. Numbers that name data, tasks, processors, slots and locals
/// may name none.
#[derive(Drop)]
pub enum Line {
    /// The first line, with the version.
    Pyrros,
    /// The number of processors.
    Processors(u64),
    /// A datum: its name, and the number of its words.
    Datum(Name, u64),
    /// The begin of a task: how many locals its code may name.
    Task(u64),
    /// The data that the task reads.
    Reads(Items<u64>),
    /// The data that the task writes.
    Writes(Items<u64>),
    /// An op of the task's code that is no loop.
    Plain(PlainOp),
    /// The begin of a loop: its local, and its count of turns.
    Loop(u64, u64),
    /// The end of a loop.
    Done,
    /// The end of a task.
    End,
    /// A datum that is printed.
    Print(u64),
    /// A channel.
    Channel(RawChannel),
    /// The begin of a processor's instructions: its number.
    Processor(u64),
    /// An instruction.
    Instr(RawInstr),
    /// The last line.
    Stop,
}
