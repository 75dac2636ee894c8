// What is wrong with the parts of a graph.
use pyr_num::{DatumId, Quantity, TaskList};
use std::alloc::{AllocError, AllocFailed};

/// Why there is no graph. Where several causes stand, the one that is listed first is told.
#[derive(Debug, Drop)]
pub enum GraphFault {
    /// There is no task.
    NoTask,
    /// A limit is passed: the first one in the order of `Quantity`.
    Limit { which: Quantity },
    /// A datum stands twice in a list of reads or of writes or in the prints. The first such list
    /// is told, by task, reads before writes and the prints last, and of it the datum that stands
    /// first.
    Duplicate { datum: DatumId },
    /// Two tasks write a datum: the smallest such datum.
    TwoWriters { datum: DatumId },
    /// No task writes a datum: the smallest such datum.
    NoWriter { datum: DatumId },
    /// The edges have a cycle. Tasks without remaining predecessors are removed again and again. A
    /// walk starts at the smallest task left and goes to the smallest remaining predecessor until a
    /// task repeats; the list is the walk from the first place of that task to before its second.
    /// So each task of the list reads what the next one writes, and the last reads what the first
    /// writes: backwards the list is a cycle along the edges.
    Cycle { tasks: TaskList },
    /// There was no memory left. This may come in the place of any other answer.
    Memory,
}

impl From<AllocError> for GraphFault {
    ghost use Rattle.std.specs.Prelude.{◌≡◌};
    ghost use Rattle.pyr_graph.specs.declared.fault.GraphFault.TheVariants.{Memory};

    ghost from_gives = { λ _ e. e ≡ Memory };

    fn from(_error: AllocError) -> GraphFault {
        GraphFault::Memory
    }
}

impl<T: Drop> From<AllocFailed<T>> for GraphFault {
    ghost use Rattle.std.specs.Prelude.{◌≡◌};
    ghost use Rattle.pyr_graph.specs.declared.fault.GraphFault.TheVariants.{Memory};

    ghost from_gives = { λ _ e. e ≡ Memory };

    fn from(_error: AllocFailed<T>) -> GraphFault {
        GraphFault::Memory
    }
}
