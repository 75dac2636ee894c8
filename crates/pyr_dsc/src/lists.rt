// The tasks that come next, which are kept by their priorities from step to step.

use crate::head::{head_in, key_of};
use crate::progress::Progress;
use pyr_graph::Graph;
use pyr_lists::TaskQueue;
use pyr_num::TaskId;
use std::alloc::{AllocError, Global};

/// The tasks that aren't examined and read from some that are.
#[derive(Drop)]
pub(crate) struct Lists {
    /// Those that read from no others, and those that read from nobody.
    pub free: TaskQueue,
    /// Those that read from others too.
    pub partly_free: TaskQueue,
}

impl Lists {
    ghost use Rattle.std.specs.Prelude.{◌≡◌, ◌<◌, ◌≤◌, ℕ, true, false, None, Some, [], IfSome, IfOk, OnOk};
    ghost use Rattle.pyr_graph.specs.System.{task_count, IsEdge};
    ghost use Rattle.pyr_graph.specs.Edges.{has_edge};
    ghost use Rattle.pyr_levels.specs.Path.{IsParallelTime};
    ghost use Rattle.pyr_levels.specs.Scheduled.{scheduled_graph};
    ghost use Rattle.pyr_levels.specs.Partial.{clusters_of};
    ghost use Rattle.pyr_lists.specs.Queue.{priority_of, IsChanged};
    ghost use Rattle.pyr_dsc.specs.State.{is_examined, is_free, tlevel, partial_tlevel, partial_priority};
    ghost use Rattle.pyr_dsc.specs.Progress.{IsProgress, state_of};
    ghost use Rattle.pyr_dsc.specs.Queues.{free_entry, partly_free_entry};
    ghost use Rattle.pyr_dsc.specs.Lists.{IsPlaced, AreLists, IsWaiting};

    /// Adds a task where it is free. It isn't in the lists yet.
    fn offer(&mut self, progress: &Progress, graph: &Graph, task: TaskId) -> Result<(), AllocError>
        requires progress { IsProgress graph.now progress.now }
        requires task { task.0 < task_count graph.now }
        requires unexamined { is_examined (state_of graph.now progress.now) task.0 ≡ false }
        requires new { priority_of self.old.free task.0 ≡ None }
        ensures free { OnOk result (IsChanged self.old.free self.new.free task.0
            (free_entry (state_of graph.now progress.now) task.0)) }
        ensures partly_free { OnOk result (self.new.partly_free ≡ self.old.partly_free) }
    {
        if progress.all_before(graph, task) {
            let tlevel = progress.latest_arrival(graph, task);
            let blevel = progress.blevels[task.0 as usize];
            self.free.insert(task, tlevel + blevel)?;
        }
        Ok(())
    }

    /// The lists where no task is examined.
    pub fn new(alloc: Global, progress: &Progress, graph: &Graph) -> Result<Lists, AllocError>
        requires progress { IsProgress graph.now progress.now }
        requires none { clusters_of progress.now.partial ≡ [] }
        ensures { IfOk result (AreLists (state_of graph.now progress.now)) }
    {
        let mut lists = Lists {
            free: TaskQueue::new(alloc),
            partly_free: TaskQueue::new(alloc),
        };
        for number in 0..graph.task_count() {
            lists.offer(progress, graph, TaskId(number))?;
        }
        Ok(lists)
    }

    /// Makes a task a free one.
    fn place_free(&mut self, task: TaskId, priority: u64) -> Result<(), AllocError>
        requires { priority_of self.old.free task.0 ≡ None }
        ensures { OnOk result (IsPlaced self.old self.new task.0 (Some priority) None) }
    {
        if self.partly_free.holds(task) {
            self.partly_free.remove(task);
        }
        self.free.insert(task, priority)?;
        Ok(())
    }

    /// Gives a partly free task a place, by a priority that is no lower than before.
    fn place_partly_free(&mut self, task: TaskId, priority: u64) -> Result<(), AllocError>
        requires new { priority_of self.old.free task.0 ≡ None }
        requires lower { IfSome (priority_of self.old.partly_free task.0) (λ p. p ≤ priority) }
        ensures { OnOk result (IsPlaced self.old self.new task.0 None (Some priority)) }
    {
        if self.partly_free.holds(task) {
            self.partly_free.raise(task, priority)?;
        } else {
            self.partly_free.insert(task, priority)?;
        }
        Ok(())
    }

    /// Gives a task its place that reads from one that was just examined.
    fn place(&mut self, progress: &Progress, graph: &Graph, task: TaskId) -> Result<(), AllocError>
        requires progress { IsProgress graph.now progress.now }
        requires task { task.0 < task_count graph.now }
        requires waits { IsWaiting (state_of graph.now progress.now) self.old task.0 }
        ensures { OnOk result (IsPlaced self.old self.new task.0
            (free_entry (state_of graph.now progress.now) task.0)
            (partly_free_entry (state_of graph.now progress.now) task.0)) }
    {
        let arrival = progress.latest_arrival(graph, task);
        let priority = arrival + progress.blevels[task.0 as usize];
        if progress.all_before(graph, task) {
            self.place_free(task, priority)
        } else {
            self.place_partly_free(task, priority)
        }
    }

    /// Brings the lists up to date, now that a task is examined and was taken out: the tasks that read
    /// from it get their places.
    pub fn release(
        &mut self,
        progress: &Progress,
        graph: &Graph,
        task: TaskId,
    ) -> Result<(), AllocError>
        requires progress { IsProgress graph.now progress.now }
        requires task { task.0 < task_count graph.now }
        requires free { (t : ℕ) → has_edge graph.now task.0 t ≡ false
            → priority_of self.old.free t ≡ free_entry (state_of graph.now progress.now) t }
        requires partly_free { (t : ℕ) → has_edge graph.now task.0 t ≡ false
            → priority_of self.old.partly_free t
            ≡ partly_free_entry (state_of graph.now progress.now) t }
        requires waiting { (t : ℕ) → IsEdge graph.now task.0 t
            → IsWaiting (state_of graph.now progress.now) self.old t }
        ensures { OnOk result (AreLists (state_of graph.now progress.now) self.new) }
    {
        for edge in graph.successors(task) {
            self.place(progress, graph, edge.task)?;
        }
        Ok(())
    }

    /// The parallel time: the greatest of the latest finish of an examined task and of the priorities
    /// of the next free and of the next partly free task. Of the examined tasks the exits alone count.
    pub fn parallel_time(&self, progress: &Progress, graph: &Graph) -> u64
        requires progress { IsProgress graph.now progress.now }
        requires lists { AreLists (state_of graph.now progress.now) self.now }
        requires some { 0 < task_count graph.now }
        ensures { IsParallelTime (scheduled_graph graph.now (clusters_of progress.now.partial))
            result }
    {
        // That the graph has an order shows that each path ends.
        let _order = graph.topological();
        let free = key_of(head_in(&self.free));
        let partly_free = key_of(head_in(&self.partly_free));
        progress.latest_exit.max(free).max(partly_free)
    }
}
