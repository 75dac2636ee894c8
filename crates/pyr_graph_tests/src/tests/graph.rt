use pyr_graph::{DatumParts, Edge, Graph, GraphFault, TaskParts, holds_its_data};
use pyr_num::{DatumId, Limits, TaskId};
use sqlite_items::Items;
use std::alloc::{AllocError, Global};
use std::process::Abort;
use std::test::Fail;

const X: DatumId = DatumId(0);

const Y: DatumId = DatumId(1);

const Z: DatumId = DatumId(2);

// What a task reads, and what it writes.
type Lists = (&'static [DatumId], &'static [DatumId]);

// Tasks of cost 1.
fn tasks_of(alloc: Global, lists: &[Lists]) -> Result<Vec<TaskParts>, AllocError> {
    let mut tasks = Vec::new(alloc);
    for (reads, writes) in lists {
        tasks.push(TaskParts {
            cost: 1,
            reads: Items::from_slice(alloc, reads)?,
            writes: Items::from_slice(alloc, writes)?,
        })?;
    }
    Ok(tasks)
}

// Data of one word.
fn datums_of(alloc: Global, comms: &[u32]) -> Result<Vec<DatumParts>, AllocError> {
    let mut datums = Vec::new(alloc);
    for comm in comms {
        let comm = *comm;
        datums.push(DatumParts { length: 1, comm })?;
    }
    Ok(datums)
}

// Builds a graph of parts that name their own data alone.
fn build(
    rt: &impl Abort,
    alloc: Global,
    tasks: &[Lists],
    comms: &[u32],
    prints: &[DatumId],
) -> Result<Graph, GraphFault> {
    let prints = Vec::from_slice(alloc, prints)?;
    let datums = datums_of(alloc, comms)?;
    let tasks = tasks_of(alloc, tasks)?;
    assert!(rt; holds_its_data(&tasks, &datums, &prints));
    Graph::build(alloc, tasks, datums, prints)
}

// The first fault of the parts of a graph.
fn fault_of(
    rt: &impl Abort,
    alloc: Global,
    tasks: &[Lists],
    comms: &[u32],
) -> Result<String, AllocError> {
    let fault = build(rt, alloc, tasks, comms, &[]).err();
    format!(in alloc; "{fault:?}")
}

// Tasks and the weights of their data, and the first fault of the parts.
const FAULTY: &[(&[Lists], &[u32], &str)] = &[
    (&[], &[Limits::COMM + 1], "Some(NoTask)"),
    (
        &[(&[Y, X, X, Y], &[Z]), (&[], &[Z])],
        &[1, Limits::COMM + 1, 1],
        "Some(Limit { which: Comm })",
    ),
    (
        &[(&[Y, X, X, Y], &[Z]), (&[], &[Z])],
        &[1, Limits::COMM, 1],
        "Some(Duplicate { datum: DatumId(1) })",
    ),
    (
        &[(&[X, Y], &[Z]), (&[], &[Z])],
        &[1, Limits::COMM, 1],
        "Some(TwoWriters { datum: DatumId(2) })",
    ),
    (
        &[(&[Z, Y, X], &[Z])],
        &[1, 1, 1],
        "Some(NoWriter { datum: DatumId(0) })",
    ),
    (
        &[(&[X], &[X])],
        &[0],
        "Some(Cycle { tasks: Items { items: [TaskId(0)] } })",
    ),
    // the walk from task 1
    (
        &[(&[], &[]), (&[Z], &[X]), (&[X], &[Y]), (&[Y], &[Z])],
        &[0, 0, 0],
        "Some(Cycle { tasks: Items { items: [TaskId(1), TaskId(3), TaskId(2)] } })",
    ),
];

#[test]
fn tells_the_first_fault(rt: HostRuntime) -> Result<(), Fail> {
    for (tasks, comms, wanted) in FAULTY {
        let fault = fault_of(&rt, rt.alloc(), tasks, comms)?;
        assert_eq!(rt; fault.as_str(), *wanted);
    }
    Ok(())
}

// Two data from one task to another make one edge.
const READERS: &[Lists] = &[(&[Y, X], &[]), (&[], &[X, Y]), (&[Y], &[Z])];

// The edges from others and to others of each task.
const EDGES: &[(&[Edge], &[Edge])] = &[
    (
        &[Edge {
            task: TaskId(1),
            weight: 7,
        }],
        &[],
    ),
    (
        &[],
        &[
            Edge {
                task: TaskId(0),
                weight: 7,
            },
            Edge {
                task: TaskId(2),
                weight: 4,
            },
        ],
    ),
    (
        &[Edge {
            task: TaskId(1),
            weight: 4,
        }],
        &[],
    ),
];

// The weight and the writer of each datum.
const DATA: &[(u32, TaskId)] = &[(3, TaskId(1)), (4, TaskId(1)), (7, TaskId(2))];

// Whether the graph tells the cost, the data and the edges of each task.
fn tells_tasks(graph: &Graph) -> bool {
    for number in 0..graph.task_count() {
        let (task, at) = (TaskId(number), number as usize);
        let (Some((reads, writes)), Some((from, to))) = (READERS.get(at), EDGES.get(at)) else {
            return false;
        };
        if graph.cost(task) != 1
            || graph.reads(task) != *reads
            || graph.writes(task) != *writes
            || graph.predecessors(task) != *from
            || graph.successors(task) != *to
        {
            return false;
        }
    }
    graph.task_count() as usize == READERS.len()
}

// Whether it tells the length, the weight and the writer of each datum.
fn tells_data(graph: &Graph) -> bool {
    for number in 0..graph.datum_count() {
        let datum = DatumId(number);
        let Some((comm, writer)) = DATA.get(number as usize) else {
            return false;
        };
        if graph.length(datum) != 1
            || graph.comm(datum) != *comm
            || graph.writer(datum) != *writer
        {
            return false;
        }
    }
    graph.datum_count() as usize == DATA.len()
}

#[test]
fn tells_the_parts_and_the_edges(rt: HostRuntime) -> Result<(), Fail> {
    let graph = build(&rt, rt.alloc(), READERS, &[3, 4, 7], &[Z, X])?;
    let order = [TaskId(1), TaskId(0), TaskId(2)];
    graph.well_formed();
    let is_told = tells_tasks(&graph)
        && tells_data(&graph)
        && graph.prints() == [Z, X].as_slice()
        && graph.topological() == order.as_slice();
    assert!(rt; is_told);
    Ok(())
}
