// The faults of a whole text, with names in the place of numbers.
ghost use Rattle.std.specs.Prelude.{◌≡◌, ◌<◌, All, IfOk, length};
ghost use Rattle.pyr_graphtext.specs.Finishing.{CanBeTold, IsTold, names_of};

use crate::ProgramFault;
use crate::name_table::NameTable;
use pyr_graph::GraphFault;
use pyr_num::{NameList, TaskId};
use sqlite_items::Items;
use std::alloc::{AllocError, Global};

/// The fault of a graph whose lines have none of their own.
pub fn whole_fault(
    alloc: Global,
    fault: GraphFault,
    datums: &NameTable,
    tasks: &NameTable,
) -> Result<ProgramFault, AllocError>
    requires { CanBeTold datums.now tasks.now fault }
    ensures { IfOk result (IsTold datums.now tasks.now fault) }
{
    match fault {
        GraphFault::NoTask => Ok(ProgramFault::NoTask),
        GraphFault::NoWriter { datum } => Ok(ProgramFault::NoWriter {
            name: datums.as_slice()[datum.0 as usize],
        }),
        GraphFault::Cycle { tasks: list } => Ok(ProgramFault::Cycle {
            names: task_names(alloc, tasks, list.as_slice())?,
        }),
        GraphFault::Memory => Ok(ProgramFault::Memory),
        // Each line was tested for these.
        GraphFault::Limit { .. } | GraphFault::Duplicate { .. } | GraphFault::TwoWriters { .. } => {
            unreachable!()
        }
    }
}

// The names of these tasks.
fn task_names(alloc: Global, names: &NameTable, tasks: &[TaskId]) -> Result<NameList, AllocError>
    requires { All (λ t. t.0 < length names.now) tasks.now }
    ensures { IfOk result (λ list. list ≡ names_of names.now tasks.now) }
{
    let mut list = Vec::new(alloc);
    for task in tasks {
        list.push(names.as_slice()[task.0 as usize])?;
    }
    Ok(Items::from_vec(list))
}
