// The way from a graph to its plan.

ghost use Rattle.std.specs.Prelude.{◌≡◌, ◌≤◌, IfOk};
ghost use Rattle.pyr_rcp.specs.Order.{IsPlaced};
ghost use Rattle.pyr_compile.specs.Compiled.{IsPlanned};

use pyr_dsc::cluster;
use pyr_graph::{Graph, Placement, Plan};
use pyr_merge::merge;
use pyr_num::Limits;
use pyr_rcp::order;
use std::alloc::{AllocError, Global};

/// When and where the tasks of a graph run.
#[derive(Drop)]
pub struct Planned {
    /// The processor of each task.
    pub placement: Placement,
    /// The order of the tasks, and their times.
    pub plan: Plan,
}

/// Plans the tasks of a graph for this many processors, from 1 to `Limits::PROCESSORS`, after PYRROS
/// (Yang and Gerasoulis, 1992): the tasks are clustered by dominant sequences, the clusters go to
/// processors by load, and the tasks are ordered there ready critical path first.
///
/// The error says that memory ran out. Beside `cluster` this takes little time.
pub fn plan(alloc: Global, graph: &Graph, processors: u32) -> Result<Planned, AllocError>
    requires some { 1 ≤ processors }
    requires few { processors ≤ Limits.PROCESSORS }

    // It is exactly the plan of the rules, of which a graph has one.
    ensures planned { IfOk result
        (λ planned. IsPlanned graph.now processors planned.placement planned.plan) }

    // One processor for each task, each below the number of them.
    ensures processors { IfOk result (λ planned. planned.placement.processors ≡ processors) }
    ensures placed { IfOk result (λ planned. IsPlaced graph.now planned.placement) }
{
    let clustering = cluster(alloc, graph)?;
    let placement = merge(alloc, graph, &clustering, processors)?;
    let plan = order(alloc, graph, &placement)?;
    Ok(Planned { placement, plan })
}
