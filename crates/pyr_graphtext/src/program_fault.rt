// Why a text is refused.
use pyr_num::{Name, NameList, Quantity};
use std::alloc::AllocError;
use thiserror::Error;

/// Why a name may not stand where it stands.
#[derive(Clone, Copy, Debug, PartialEq, Eq)]
pub enum NameKind {
    /// It stands for nothing there.
    Unknown,
    /// It stands for something already.
    Duplicate,
    /// Another task writes the datum.
    SecondWriter,
}

/// Why a text stands for no program. The first faulty line is told, whatever follows it; lines are
/// numbered from 1, and a fault at the end of the text carries the number of lines plus 1. Only
/// where no line is faulty, the faults of the whole text are told, in the order of this list.
#[derive(Debug, Drop, Error)]
pub enum ProgramFault {
    /// It is no line, or none that may stand there; or the text ends within a task.
    #[error("a line can't stand where it stands")]
    BadText {
        /// The number of the line.
        line: u32,
    },
    /// The line passes a limit: of several limits the one that `Quantity` lists first.
    #[error("a line passes a limit")]
    Limit {
        /// The number of the line.
        line: u32,
        /// The limit.
        which: Quantity,
    },
    /// A name may not stand in the line: the first such name from the left.
    #[error("a name can't stand where it stands")]
    Names {
        /// The number of the line.
        line: u32,
        /// Why not.
        kind: NameKind,
        /// The name.
        name: Name,
    },
    /// There is no task.
    #[error("there is no task")]
    NoTask,
    /// No task writes a datum: the first such datum.
    #[error("a datum has no writer")]
    NoWriter {
        /// The name of the datum.
        name: Name,
    },
    /// The tasks wait for one another. Tasks without remaining predecessors are removed again and
    /// again. A walk starts at the first task left and goes to the first remaining predecessor
    /// until a task repeats; the names are those of the walk from the first place of that task to
    /// before its second.
    #[error("the tasks have a cycle")]
    Cycle {
        /// The names of the tasks: each reads what the next one writes, and the last reads what the
        /// first writes.
        names: NameList,
    },
    /// Memory ran out. This may come in the place of any other answer.
    #[error("memory ran out")]
    Memory,
}

impl From<AllocError> for ProgramFault {
    ghost use Rattle.std.specs.Prelude.{◌≡◌};
    ghost use Rattle.pyr_graphtext.specs.declared.program_fault.ProgramFault.TheVariants.{Memory};

    ghost from_gives = { λ _ fault. fault ≡ Memory };

    fn from(_error: AllocError) -> Self {
        ProgramFault::Memory
    }
}
