// What a graph keeps beside its parts.

ghost use Rattle.std.specs.Prelude.{◌≡◌, IfOk, OnOk, IfErr};
ghost use Rattle.pyr_graph.specs.System.{system_of, HoldsItsData};
ghost use Rattle.pyr_graph.specs.Faults.{IsDistinct, IsFault, IsSound};
ghost use Rattle.pyr_graph.specs.WholeGraph.{IsGraph, IsIndex};

use crate::edges::{successors_of, turned_rows};
use crate::limits::passed_limit;
use crate::order::order_of;
use crate::repeats::duplicate;
use crate::writers::sole_writers;
use crate::{DatumParts, Edge, GraphFault, TaskParts};
use pyr_num::{DatumId, TaskId, TaskList};
use sqlite_items::Items;
use std::alloc::Global;

/// What a graph keeps beside its parts.
#[derive(Drop)]
pub(crate) struct Index {
    /// The task that writes each datum.
    pub(crate) writers: Items<TaskId>,
    /// The edges into each task.
    pub(crate) predecessors: Items<Items<Edge>>,
    /// The edges out of each task.
    pub(crate) successors: Items<Items<Edge>>,
    /// The order that always takes the smallest task whose predecessors are all out.
    pub(crate) order: TaskList,
}

impl Index {
    /// The index of these parts, or what is wrong with them.
    pub(crate) fn build(
        alloc: Global,
        tasks: &[TaskParts],
        datums: &[DatumParts],
        prints: &[DatumId],
    ) -> Result<Index, GraphFault>
        requires { HoldsItsData (system_of tasks.now datums.now prints.now) }
        ensures index { IfOk result (IsIndex (system_of tasks.now datums.now prints.now)) }
        ensures graph { OnOk result (IsGraph (system_of tasks.now datums.now prints.now)) }
        ensures sound { OnOk result (IsSound (system_of tasks.now datums.now prints.now)) }
        ensures fault { IfErr result (IsFault (system_of tasks.now datums.now prints.now)) }
    {
        check_parts(alloc, tasks, datums, prints)?;
        let writers = sole_writers(alloc, tasks, datums.len())?;
        let successors = successors_of(alloc, tasks, datums, writers.as_slice())?;
        let predecessors = turned_rows(alloc, &successors)?;
        let order = order_of(alloc, &predecessors, &successors)?;
        Ok(Index {
            writers,
            predecessors: Items::from_vec(predecessors),
            successors: Items::from_vec(successors),
            order,
        })
    }
}

/// Refuses parts without a task, with a number past its limit, or with a datum twice in one list.
fn check_parts(
    alloc: Global,
    tasks: &[TaskParts],
    datums: &[DatumParts],
    prints: &[DatumId],
) -> Result<(), GraphFault>
    ensures distinct { OnOk result (IsDistinct (system_of tasks.now datums.now prints.now)) }
    ensures fault { IfErr result (IsFault (system_of tasks.now datums.now prints.now)) }
{
    if tasks.is_empty() {
        return Err(GraphFault::NoTask);
    }
    if let Some(which) = passed_limit(tasks, datums, prints) {
        return Err(GraphFault::Limit { which });
    }
    if let Some(datum) = duplicate(alloc, tasks, prints)? {
        return Err(GraphFault::Duplicate { datum });
    }
    Ok(())
}
