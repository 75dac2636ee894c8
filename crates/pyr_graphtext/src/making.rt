// The program of lines without fault.
ghost use Rattle.std.specs.Prelude.{◌≡◌, ◌≤◌, length, IfOk, IfErr};
ghost use Rattle.pyr_graph.specs.declared.fault.GraphFault.{GraphFault};
ghost use Rattle.pyr_graph.specs.System.{HoldsItsData};
ghost use Rattle.pyr_graph.specs.Faults.{IsSound, IsFault};
ghost use Rattle.pyr_graphtext.specs.Program.{IsProgram, program_of};
ghost use Rattle.pyr_graphtext.specs.Finishing.{system_named, CanBeTold, Makes, Refuses};

use crate::names::datum_ids;
use crate::program_names::ProgramNames;
use crate::whole_fault::whole_fault;
use crate::{Program, ProgramFault};
use pyr_body::Body;
use pyr_graph::{DatumParts, Graph, TaskParts};
use pyr_num::{Limits, Name};
use std::alloc::{AllocError, Global};

/// The program of these parts, or the first fault of the whole text.
pub fn make_program(
    alloc: Global,
    names: &ProgramNames,
    datums: Vec<DatumParts>,
    tasks: Vec<TaskParts>,
    bodies: Vec<Body>,
) -> Result<Program, ProgramFault>
    requires few { length names.now.datums ≤ Limits.DATUMS }
    requires holds { HoldsItsData (system_named names.now tasks.items datums.items) }
    requires told { (fault : GraphFault)
        → IsFault (system_named names.now tasks.items datums.items) fault
        → CanBeTold names.now.datums names.now.tasks fault }
    requires program { IsProgram (program_of (system_named names.now tasks.items datums.items)
        names.now.datums names.now.tasks bodies.items) }
    ensures { Makes (system_named names.now tasks.items datums.items) names.now.datums
        names.now.tasks bodies.items result }
{
    let graph = make_graph(alloc, names, datums, tasks)?;
    let program = name_graph(alloc, graph, names, bodies)?;
    Ok(program)
}

// The graph of these parts, or the first fault of the whole text.
fn make_graph(
    alloc: Global,
    names: &ProgramNames,
    datums: Vec<DatumParts>,
    tasks: Vec<TaskParts>,
) -> Result<Graph, ProgramFault>
    requires few { length names.now.datums ≤ Limits.DATUMS }
    requires holds { HoldsItsData (system_named names.now tasks.items datums.items) }
    requires told { (fault : GraphFault)
        → IsFault (system_named names.now tasks.items datums.items) fault
        → CanBeTold names.now.datums names.now.tasks fault }
    ensures graph { IfOk result (λ graph. graph ≡ system_named names.now tasks.items datums.items) }
    ensures sound { IfOk result IsSound }
    ensures fault { IfErr result (Refuses (system_named names.now tasks.items datums.items)
        names.now.datums names.now.tasks) }
{
    let prints = datum_ids(alloc, &names.datums, names.prints.as_slice())?;
    match Graph::build(alloc, tasks, datums, prints) {
        Ok(graph) => Ok(graph),
        Err(fault) => Err(whole_fault(alloc, fault, &names.datums, &names.tasks)?),
    }
}

// The program of this graph, these names and these bodies.
fn name_graph(
    alloc: Global,
    graph: Graph,
    names: &ProgramNames,
    bodies: Vec<Body>,
) -> Result<Program, AllocError>
    requires { IsProgram (program_of graph names.now.datums names.now.tasks bodies.items) }
    ensures { IfOk result (λ program. program
        ≡ program_of graph names.now.datums names.now.tasks bodies.items) }
{
    let (datum_names, task_names) = name_lists(alloc, names)?;
    Ok(Program::new(graph, datum_names, task_names, bodies))
}

// The names of the data and those of the tasks.
fn name_lists(alloc: Global, names: &ProgramNames) -> Result<(Vec<Name>, Vec<Name>), AllocError>
    ensures datums { IfOk result (λ lists. lists.0.items ≡ names.now.datums) }
    ensures tasks { IfOk result (λ lists. lists.1.items ≡ names.now.tasks) }
{
    let datum_names = names.datums.to_names(alloc)?;
    let task_names = names.tasks.to_names(alloc)?;
    Ok((datum_names, task_names))
}
