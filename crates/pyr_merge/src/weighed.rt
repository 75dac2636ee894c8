// The clusters by falling load.

ghost use Rattle.std.specs.Prelude.{◌≡◌, ◌<◌, ◌≤◌, ◌^◌, ◌*◌, IfOk, All, sum_by};
ghost use Rattle.pyr_graph.specs.System.{task_count, task_numbers, cost_of};
ghost use Rattle.pyr_graph.specs.Clusters.{cluster_numbers, IsPartition};
ghost use Rattle.pyr_merge.specs.Merge.{IsByFallingLoad, load_of};
ghost use Rattle.pyr_merge.specs.Weighed.{weighed_from, numbers_of};
ghost use Rattle.std.specs.List.Sorted.{IsPermutation};

use pyr_graph::Graph;
use pyr_num::{TaskId, TaskList};
use std::alloc::{AllocError, Global};
use std::cmp::Reverse;

/// A cluster with its load. The heavier one is the smaller, and of equals the one with the smaller
/// number.
#[derive(Clone, Copy, PartialEq, Eq, PartialOrd, Ord)]
pub(crate) struct Weighed {
    /// The sum of the costs of its tasks, in abstract time units.
    pub load: Reverse<u64>,
    /// Its number.
    pub cluster: usize,
}

/// The sum of the costs of these tasks, in abstract time units.
fn load_of(graph: &Graph, tasks: &[TaskId]) -> u64
    requires tasks { All (λ t. t.0 < task_count graph.now) tasks.now }
    requires fits { sum_by (cost_of graph.now) (task_numbers tasks.now) < 2 ^ 64 }
    ensures { result ≡ sum_by (cost_of graph.now) (task_numbers tasks.now) }
{
    let mut load = 0;
    for task in tasks {
        load += u64::from(graph.cost(*task));
    }
    load
}

/// The clusters, each with its load, by number.
fn weighed_clusters(
    alloc: Global,
    graph: &Graph,
    clusters: &[TaskList],
) -> Result<Vec<Weighed>, AllocError>
    requires { IsPartition graph.now (cluster_numbers clusters.now) }
    ensures { IfOk result
        (λ order. order.items ≡ weighed_from graph.now 0 (cluster_numbers clusters.now)) }
{
    graph.well_formed();
    let mut order = Vec::with_capacity(alloc, clusters.len())?;
    for (cluster, tasks) in clusters.iter().enumerate() {
        let load = Reverse(load_of(graph, tasks.as_slice()));
        order.push(Weighed { load, cluster })?;
    }
    Ok(order)
}

/// The clusters, each with its load, by falling load, ties to the smaller number.
pub(crate) fn by_falling_load(
    alloc: Global,
    graph: &Graph,
    clusters: &[TaskList],
) -> Result<Vec<Weighed>, AllocError>
    requires { IsPartition graph.now (cluster_numbers clusters.now) }
    ensures order { IfOk result (λ order. IsByFallingLoad graph.now (cluster_numbers clusters.now)
        (numbers_of order.items)) }
    ensures loads { IfOk result (λ order. All
        (λ w. w.load.0 ≡ load_of graph.now (cluster_numbers clusters.now) w.cluster) order.items) }
    ensures small { IfOk result (λ order. sum_by (λ w. w.load.0) order.items < 2 ^ 64) }
{
    graph.well_formed();
    let mut order = weighed_clusters(alloc, graph, clusters)?;
    order.sort_unstable();
    Ok(order)
}
