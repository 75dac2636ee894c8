// The test of what `merge` asks.

ghost use Rattle.std.specs.Prelude.{◌≡◌, ◌↔◌, ℕ, ◌+◌, ◌<◌, if◌then◌else◌, true, IfOk, IsTrue, All, count_by, length, nat_eq, nat_lt};
ghost use Rattle.std.specs.Bool.{OnTrue, OnFalse};
ghost use Rattle.pyr_graph.specs.System.{task_numbers};
ghost use Rattle.pyr_graph.specs.Clusters.{cluster_numbers, IsPartition};
ghost use Rattle.pyr_merge.specs.Weighed.{marks};

use pyr_graph::Graph;
use pyr_num::{TaskId, TaskList};
use std::alloc::{AllocError, Global};

/// Marks these tasks. Answers whether all of them are tasks, and none was marked before.
fn mark(marked: &mut [bool], tasks: &[TaskId]) -> bool
    ensures yes { OnTrue result ((t : ℕ) → marks marked.new t
        ≡ marks marked.old t + count_by (nat_eq t) (task_numbers tasks.now)) }
    ensures no { OnFalse result ((t : ℕ) × (if nat_lt t (length marked.old) then 1 else 0)
        < marks marked.old t + count_by (nat_eq t) (task_numbers tasks.now)) }
{
    for task in tasks {
        let at = task.0 as usize;
        if at >= marked.len() || marked[at] {
            return false;
        }
        marked[at] = true;
    }
    true
}

/// Whether all of these are marked.
fn are_marked(marked: &[bool]) -> bool
    ensures { IsTrue result ↔ All (λ is. is ≡ true) marked.now }
{
    marked.iter().all(|is| *is)
}

/// Whether every task of the graph stands in exactly one of the clusters, once, and nothing else
/// stands in a cluster: the test of what `merge` asks.
pub fn is_partition(alloc: Global, graph: &Graph, clusters: &[TaskList]) -> Result<bool, AllocError>
    ensures { IfOk result
        (λ is. IsTrue is ↔ IsPartition graph.now (cluster_numbers clusters.now)) }
{
    let mut marked = vec![in alloc; false; graph.task_count() as usize]?;
    for tasks in clusters {
        if !mark(&mut marked, tasks.as_slice()) {
            return Ok(false);
        }
    }
    Ok(are_marked(&marked))
}
