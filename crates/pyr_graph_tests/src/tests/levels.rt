ghost use Rattle.pyr_levels.specs.Partial.{IsPartialOf};

use crate::tests::programs::{PARTLY_FREE, program_of};
use pyr_graph::Graph;
use pyr_levels::{Partial, blevels};
use pyr_num::TaskId;
use std::alloc::{AllocError, Global};
use std::process::Abort;
use std::test::Fail;

// Whether these are the bottom levels of the tasks.
fn are_blevels(alloc: Global, graph: &Graph, wanted: [u64; 4]) -> Result<bool, AllocError> {
    let levels = blevels(alloc, graph)?;
    Ok(levels.as_slice() == wanted.as_slice())
}

// Whether these are their top levels.
fn are_tlevels(
    alloc: Global,
    graph: &Graph,
    partial: &Partial,
    wanted: [u64; 4],
) -> Result<bool, AllocError>
    requires { IsPartialOf graph.now partial.now }
{
    let levels = partial.tlevels(alloc, graph)?;
    Ok(levels.as_slice() == wanted.as_slice())
}

// Whether the top levels and the parallel time behind the step of task 0 are told.
fn first_step_is_told(rt: &impl Abort, alloc: Global, graph: &Graph) -> Result<bool, AllocError> {
    assert!(rt; graph.task_count() == 4);
    let mut partial = Partial::new(alloc, graph)?;
    assert!(rt; partial.is_next(graph, TaskId(0)) && !partial.is_next(graph, TaskId(3)));
    let cluster = partial.examine(graph, TaskId(0), None);
    let are_told = are_tlevels(alloc, graph, &partial, [0, 8, 0, 12]);
    let time = partial.parallel_time(alloc, graph);
    drop(partial);
    Ok(cluster == 0 && are_told? && time? == 32)
}

#[test]
fn tells_the_levels_and_the_first_step(rt: HostRuntime) -> Result<(), Fail> {
    let program = program_of(&rt, rt.alloc(), PARTLY_FREE)?;
    let graph = program.graph();
    let are_told = are_blevels(rt.alloc(), graph, [32, 16, 22, 20]);
    let is_told = first_step_is_told(&rt, rt.alloc(), graph);
    drop(program);
    assert!(rt; are_told? && is_told?);
    Ok(())
}
