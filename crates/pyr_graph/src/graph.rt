// A task graph.

ghost use Rattle.std.specs.Prelude.{◌≡◌, ℕ, ◌<◌, ◌≤◌, IfOk, OnOk, IfErr};
ghost use Rattle.pyr_seq.specs.Walk.{IsTopological};
ghost use Rattle.pyr_graph.specs.System.{system_of, HoldsItsData, task_count, datum_count, task_at, cost_of, length_of, comm_of, writer_of, IsWriter, IsEdge, ArePredecessors, AreSuccessors, task_numbers};
ghost use Rattle.pyr_graph.specs.Removal.{IsSmallestFirst};
ghost use Rattle.pyr_graph.specs.Faults.{IsFault, IsSound};
ghost use Rattle.pyr_graph.specs.WholeGraph.{IsGraph};

use crate::index::Index;
use crate::{DatumParts, Edge, GraphFault, TaskParts};
use pyr_num::{DatumId, TaskId};
use sqlite_items::Items;
use std::alloc::Global;
use std::marker::Model;

/// A task graph within the limits, without a cycle, in which one task writes each datum. Contracts
/// see it as its tasks, its data and its prints.
#[derive(Drop)]
pub struct Graph {
    tasks: Items<TaskParts>,
    datums: Items<DatumParts>,
    prints: Items<DatumId>,
    index: Index,
}

impl Model for Graph {
    ghost use Rattle.pyr_graph.specs.System.{System, system_of};
    ghost use Rattle.pyr_graph.specs.WholeGraph.{IsGraph, IsIndex};

    ghost Value = { System };

    ghost view = { λ g. system_of g.tasks g.datums g.prints };

    ghost invariant = { λ g. IsGraph (system_of g.tasks g.datums g.prints)
        × IsIndex (system_of g.tasks g.datums g.prints) g.index };
}

impl Graph {
    /// The graph with these parts, or what is wrong with them. Every datum that the tasks read or
    /// write, or that is printed, is one of the data; `holds_its_data` is the test of that.
    ///
    /// There is an edge from a task to another where the second reads a datum that the first
    /// writes. This takes time and memory linear in the parts, but for the logarithms of ordered
    /// sets.
    pub fn build(
        alloc: Global,
        tasks: Vec<TaskParts>,
        datums: Vec<DatumParts>,
        prints: Vec<DatumId>,
    ) -> Result<Graph, GraphFault>
        requires { HoldsItsData (system_of tasks.items datums.items prints.items) }

        // Ok comes exactly where no fault stands, want of memory apart.
        ensures ok { IfOk result
            (λ graph. graph ≡ system_of tasks.items datums.items prints.items) }
        ensures sound { OnOk result (IsSound (system_of tasks.items datums.items prints.items)) }

        // Each fault comes exactly where it stands and none before it does, want of memory apart.
        ensures fault { IfErr result (IsFault (system_of tasks.items datums.items prints.items)) }
    {
        let index = Index::build(alloc, &tasks, &datums, &prints)?;
        Ok(Graph {
            tasks: Items::from_vec(tasks),
            datums: Items::from_vec(datums),
            prints: Items::from_vec(prints),
            index,
        })
    }

    /// A law, that takes no time: what holds of every graph.
    pub fn well_formed(&self)
        ensures { IsGraph self.now }
    {
        let _ = &self.index;
    }

    /// The number of tasks. They are known by the numbers below it.
    pub fn task_count(&self) -> u32
        ensures { result ≡ task_count self.now }
    {
        self.tasks.len() as u32
    }

    /// The number of data. They are known by the numbers below it.
    pub fn datum_count(&self) -> u32
        ensures { result ≡ datum_count self.now }
    {
        self.datums.len() as u32
    }

    /// The computation weight of a task, in abstract time units.
    pub fn cost(&self, task: TaskId) -> u32
        requires { task.0 < task_count self.now }
        ensures { result ≡ cost_of self.now task.0 }
    {
        self.tasks.as_slice()[task.0 as usize].cost
    }

    /// The data that a task reads, as they were handed in.
    pub fn reads(&self, task: TaskId) -> &[DatumId]
        requires { task.0 < task_count self.now }
        ensures { result.now ≡ (task_at self.now task.0).reads }
    {
        self.tasks.as_slice()[task.0 as usize].reads.as_slice()
    }

    /// The data that a task writes, as they were handed in.
    pub fn writes(&self, task: TaskId) -> &[DatumId]
        requires { task.0 < task_count self.now }
        ensures { result.now ≡ (task_at self.now task.0).writes }
    {
        self.tasks.as_slice()[task.0 as usize].writes.as_slice()
    }

    /// The number of words of a datum.
    pub fn length(&self, datum: DatumId) -> u32
        requires { datum.0 < datum_count self.now }
        ensures { result ≡ length_of self.now datum.0 }
    {
        self.datums.as_slice()[datum.0 as usize].length
    }

    /// The communication weight of a datum, in abstract time units.
    pub fn comm(&self, datum: DatumId) -> u32
        requires { datum.0 < datum_count self.now }
        ensures { result ≡ comm_of self.now datum.0 }
    {
        self.datums.as_slice()[datum.0 as usize].comm
    }

    /// The task that writes a datum.
    pub fn writer(&self, datum: DatumId) -> TaskId
        requires { datum.0 < datum_count self.now }
        ensures number { result.0 ≡ writer_of self.now datum.0 }
        ensures writes { IsWriter self.now datum.0 result.0 }
    {
        self.index.writers.as_slice()[datum.0 as usize]
    }

    /// The printed data, in order.
    pub fn prints(&self) -> &[DatumId]
        ensures { result.now ≡ self.now.prints }
    {
        self.prints.as_slice()
    }

    /// The edges into a task, by rising task.
    pub fn predecessors(&self, task: TaskId) -> &[Edge]
        requires { task.0 < task_count self.now }
        ensures { ArePredecessors self.now task.0 result.now }
    {
        self.index.predecessors.as_slice()[task.0 as usize].as_slice()
    }

    /// The edges out of a task, by rising task.
    pub fn successors(&self, task: TaskId) -> &[Edge]
        requires { task.0 < task_count self.now }
        ensures { AreSuccessors self.now task.0 result.now }
    {
        self.index.successors.as_slice()[task.0 as usize].as_slice()
    }

    /// The order that always takes the smallest task whose predecessors are all out.
    pub fn topological(&self) -> &[TaskId]
        ensures order { IsTopological (task_count self.now) (IsEdge self.now)
            (task_numbers result.now) }
        ensures smallest { IsSmallestFirst (task_count self.now) (IsEdge self.now)
            (task_numbers result.now) }
    {
        self.index.order.as_slice()
    }
}
