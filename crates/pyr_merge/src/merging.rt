// The placement of clusters on processors.

ghost use Rattle.std.specs.Prelude.{◌≡◌, ℕ, ◌<◌, ◌≤◌, if◌then◌else◌, IfOk, All, length, nat_eq, slice_index, slice_index_or};
ghost use Rattle.std.specs.List.{list_any};
ghost use Rattle.pyr_graph.specs.System.{task_count, task_numbers};
ghost use Rattle.pyr_graph.specs.Clusters.{cluster_numbers, IsPartition};
ghost use Rattle.pyr_merge.specs.Merge.{IsLeastLoaded, IsMerged};
ghost use Rattle.pyr_merge.specs.Weighed.{placed_on};

use crate::weighed::by_falling_load;
use pyr_graph::{Clustering, Graph, Placement};
use pyr_num::{Limits, ProcId, TaskId};
use sqlite_items::Items;
use std::alloc::{AllocError, Global};

/// The processor with the least load, ties to the smaller number.
fn least_loaded(loads: &[u64]) -> usize
    requires { 0 < length loads.now }
    ensures { IsLeastLoaded loads.now result }
{
    let mut least = 0;
    for (processor, load) in loads.iter().enumerate() {
        if *load < loads[least] {
            least = processor;
        }
    }
    least
}

/// Notes the processor of these tasks.
fn put_on(of: &mut [ProcId], tasks: &[TaskId], processor: ProcId)
    requires { All (λ t. t.0 < length of.old) tasks.now }
    ensures { (t : ℕ) → placed_on of.new t
        ≡ (if list_any (nat_eq t) (task_numbers tasks.now) then processor.0 else placed_on of.old t) }
{
    for task in tasks {
        of[task.0 as usize] = processor;
    }
}

/// Merges the clusters onto so many processors, from 1 to `Limits::PROCESSORS`. The clusters are
/// taken by falling load, ties to the smaller number, where a cluster's load is the sum of the costs
/// of its tasks. Each goes to the processor with the least load so far, ties to the smaller number.
///
/// Merging by load is after Yang and Gerasoulis (1992), and the longest load first is Graham's rule
/// (1969) for independent jobs.
///
/// Every task stands in exactly one cluster, once, and nothing else stands in a cluster; there may
/// be clusters without a task. `is_partition` is the test of that.
pub fn merge(
    alloc: Global,
    graph: &Graph,
    clustering: &Clustering,
    processors: u32,
) -> Result<Placement, AllocError>
    requires some { 1 ≤ processors }
    requires few { processors ≤ Limits.PROCESSORS }
    requires partition { IsPartition graph.now (cluster_numbers clustering.now.clusters) }

    // It is exactly the placement of the rule, of which there is one.
    ensures merged { IfOk result
        (IsMerged graph.now (cluster_numbers clustering.now.clusters) processors) }

    // One processor for each task, each below the number of them.
    ensures processors { IfOk result (λ placement. placement.processors ≡ processors) }
    ensures full { IfOk result (λ placement. length placement.of ≡ task_count graph.now) }
    ensures inside { IfOk result (λ placement. All (λ p. p.0 < processors) placement.of) }
{
    let clusters = clustering.clusters.as_slice();
    let order = by_falling_load(alloc, graph, clusters)?;
    let mut loads = vec![in alloc; 0u64; processors as usize]?;
    let mut of = vec![in alloc; ProcId(0); graph.task_count() as usize]?;
    for next in &order {
        let processor = least_loaded(&loads);
        loads[processor] += next.load.0;
        let tasks = clusters[next.cluster].as_slice();
        put_on(&mut of, tasks, ProcId(processor as u32));
    }
    Ok(Placement {
        processors,
        of: Items::from_vec(of),
    })
}
