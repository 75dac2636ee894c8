// The generated program.
ghost use Rattle.std.specs.Prelude.{◌≡◌, ◌<◌, ◌≤◌, IfOk};
ghost use Rattle.pyr_make.specs.Layered.{layered_system, layered_program};

use crate::bodies::body_list;
use crate::lists::{datum_list, print_list, task_list};
use crate::names::all_names;
use pyr_graph::{Graph, GraphFault};
use pyr_graphtext::Program;
use pyr_num::Limits;
use std::alloc::{AllocError, Global};

/// The generated program of so many tasks, from 1 to `Limits::TASKS`. The tasks are named `t0`,
/// `t1` and so on, the data `d0`, `d1` and so on; each task writes the datum of its own number, of
/// one word. Tasks stand by number in layers of 64, and those behind the first layer read the data
/// of two tasks of the layer before, or of one. The printed data are those of the last layer. Costs
/// and communication weights are in abstract time units, and vary with the number.
///
/// The error says that memory ran out. This takes time linear in the number of tasks, but for the
/// logarithms of ordered sets.
pub fn make(alloc: Global, tasks: u32) -> Result<Program, AllocError>
    requires some { 0 < tasks }
    requires few { tasks ≤ Limits.TASKS }
    ensures { IfOk result (λ program. program ≡ layered_program tasks) }
{
    let (datums, names) = all_names(alloc, tasks)?;
    let bodies = body_list(alloc, tasks)?;
    let graph = layered_graph(alloc, tasks)?;
    Ok(Program::new(graph, datums, names, bodies))
}

// The graph of so many tasks.
fn layered_graph(alloc: Global, tasks: u32) -> Result<Graph, AllocError>
    requires some { 0 < tasks }
    requires few { tasks ≤ Limits.TASKS }
    ensures { IfOk result (λ graph. graph ≡ layered_system tasks) }
{
    let parts = task_list(alloc, tasks)?;
    let datums = datum_list(alloc, tasks)?;
    let prints = print_list(alloc, tasks)?;
    match Graph::build(alloc, parts, datums, prints) {
        Ok(graph) => Ok(graph),
        Err(fault) => Err(want_of_memory(fault)),
    }
}

// The error where nothing else is wrong with the parts of a graph.
fn want_of_memory(fault: GraphFault) -> AllocError
    requires { fault ≡ GraphFault.Memory }
{
    match fault {
        GraphFault::Memory => AllocError,
        _ => unreachable!(),
    }
}
