// The bound: a path of greatest sum, and the load of the processors.

ghost use Rattle.std.specs.Prelude.{◌≡◌, ℕ, ◌<◌, ◌≤◌, IfOk, length, slice_index, sum};
ghost use Rattle.std.specs.Int.{div_ceil};
ghost use Rattle.pyr_num.specs.declared.limits.TheConstants.Limits.{TASKS};
ghost use Rattle.pyr_graph.specs.System.{task_count, task_numbers};
ghost use Rattle.pyr_levels.specs.Path.{IsPath, path_sum};
ghost use Rattle.pyr_levels.specs.Levels.{longest};
ghost use Rattle.pyr_simul.specs.Durations.{IsFor, time_of};
ghost use Rattle.pyr_num.specs.declared.limits.TheConstants.Limits.{TIME};
ghost use Rattle.pyr_simul.specs.Bound.{IsSchedule, schedule_length, timed_graph, AreValues, Continues, IsBound};

use crate::values::{first_of, next_of, values_of};
use crate::{Bound, Durations};
use pyr_graph::Graph;
use pyr_num::{TaskId, TaskList};
use sqlite_items::Items;
use std::alloc::{AllocError, Global};

/// The path that begins with a task and goes from each task to the one that comes next. A next task
/// stands later in the topological order, so that one pass along it finds them all.
fn path_from(
    alloc: Global,
    graph: &Graph,
    durations: &Durations,
    values: &[u64],
    first: TaskId,
) -> Result<TaskList, AllocError>
    requires durations { IsFor graph.now durations.now }
    requires values { AreValues graph.now durations.now values.now }
    requires small { (u : ℕ) → slice_index values.now u ≤ longest }
    requires first { first.0 < task_count graph.now }
    ensures continues { IfOk result (λ path. Continues graph.now durations.now values.now
        (task_numbers path)) }
    ensures first { IfOk result (λ path. slice_index (task_numbers path) 0 ≡ first.0) }
{
    let mut path = Vec::new(alloc);
    let mut next = Some(first);
    for task in graph.topological() {
        if next == Some(*task) {
            path.push(*task)?;
            next = next_of(graph, durations, values, *task);
        }
    }
    Ok(Items::from_vec(path))
}

/// The total time, shared out among the processors and rounded up.
fn load_of(durations: &Durations, processors: u32) -> u64
    requires few { length durations.now.time ≤ TASKS }
    requires times { (t : ℕ) → time_of durations.now t ≤ TIME }
    requires processors { 0 < processors }
    ensures { result ≡ div_ceil (sum durations.now.time) processors }
{
    let mut total: u64 = 0;
    for time in durations.time.as_slice() {
        total += *time;
    }
    total.div_ceil(u64::from(processors))
}

/// A bound of the lengths of all schedules of the tasks with these times on so many processors, in
/// which messages take no time: the greater of the greatest sum of times along a path and of the
/// load.
///
/// This takes the time of tasks and edges together.
pub fn lower_bound(
    alloc: Global,
    graph: &Graph,
    durations: &Durations,
    processors: u32,
) -> Result<Bound, AllocError>
    requires durations { IsFor graph.now durations.now }
    requires processors { 0 < processors }
    ensures bound { IfOk result (IsBound graph.now durations.now processors) }

    // The path is a path of the graph with that sum.
    ensures path { IfOk result (λ b. IsPath (timed_graph graph.now durations.now)
        (task_numbers b.path)) }
    ensures path_sum { IfOk result (λ b. path_sum (timed_graph graph.now durations.now)
        (task_numbers b.path) ≡ b.path_sum) }

    // No schedule is shorter.
    ensures least { IfOk result (λ b. (start processor : ℕ → ℕ)
        → IsSchedule graph.now durations.now processors start processor
        → b.bound ≤ schedule_length graph.now durations.now start) }
{
    graph.well_formed();
    let values = values_of(alloc, graph, durations)?;
    let first = first_of(graph, &values);
    let path = path_from(alloc, graph, durations, &values, first)?;
    let path_sum = values[first.0 as usize];
    let load = load_of(durations, processors);
    Ok(Bound {
        path,
        path_sum,
        load,
        bound: path_sum.max(load),
    })
}
