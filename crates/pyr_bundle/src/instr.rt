use pyr_num::{DatumId, ProcId, TaskId};

/// An instruction of a processor.
#[derive(Clone, Copy, PartialEq, Eq)]
pub enum Instr {
    /// Waits for a datum from another processor.
    Recv { from: ProcId, datum: DatumId },
    /// Executes a task.
    Exec { task: TaskId },
    /// Sends a datum to another processor.
    Send { to: ProcId, datum: DatumId },
}
