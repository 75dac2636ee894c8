use crate::tests::programs::program_of;
use pyr_decimal::{put_decimal, put_number};
use pyr_graph::{Clustering, Graph, Placement};
use pyr_graphtext::ProgramFault;
use pyr_merge::{is_partition, merge};
use pyr_num::{Limits, TaskId, TaskList};
use sqlite_items::Items;
use std::alloc::{AllocError, Global};
use std::process::Abort;
use std::test::Fail;

const A: TaskId = TaskId(0);

const B: TaskId = TaskId(1);

const C: TaskId = TaskId(2);

const D: TaskId = TaskId(3);

const E: TaskId = TaskId(4);

// The clustering with these clusters.
fn clustering_of(alloc: Global, clusters: &[&[TaskId]]) -> Result<Clustering, AllocError> {
    let mut lists = Vec::new(alloc);
    for cluster in clusters {
        lists.push(TaskList::from_slice(alloc, cluster)?)?;
    }
    Ok(Clustering {
        first: 0,
        steps: Items::new(alloc),
        clusters: Items::from_vec(lists),
    })
}

// The number of processors of a placement, and the processor of each task.
fn told(alloc: Global, placement: &Placement) -> Result<Vec<u8>, AllocError> {
    let mut text = Vec::new(alloc);
    put_decimal(&mut text, u64::from(placement.processors))?;
    text.push(b':')?;
    for processor in placement.of.as_slice() {
        put_number(&mut text, u64::from(processor.0))?;
    }
    Ok(text)
}

// The placement of these clusters, where they are a partition.
fn placed(
    rt: &impl Abort,
    alloc: Global,
    graph: &Graph,
    clustering: &Clustering,
    processors: u32,
) -> Result<Vec<u8>, AllocError> {
    assert!(rt; 1 <= processors && processors <= Limits::PROCESSORS);
    if !is_partition(alloc, graph, clustering.clusters.as_slice())? {
        return Vec::from_slice(alloc, b"no partition");
    }
    let placement = merge(alloc, graph, clustering, processors)?;
    told(alloc, &placement)
}

// Independent tasks.
const FIVE: &str = "task a 1
end
task b 2
end
task c 4
end
task d 9
end
task e 5
end
";

const FOUR: &str = "task a 2
end
task b 1
end
task c 2
end
task d 1
end
";

const TWO: &str = "task a 1
end
task b 7
end
";

// A text, clusters of its tasks, a number of processors, and the placement.
const MERGED: &[(&str, &[&[TaskId]], u32, &str)] = &[
    // Loads 3, 4, 9 and 5: the third cluster goes to processor 0, the fourth to 1, the second to 1
    // and the first to 0 (9 and 9 by then).
    (FIVE, &[&[A, B], &[C], &[D], &[E]], 2, "2: 0 0 1 0 1"),
    // The clusters have load 2 each, whatever the number of their tasks, and so come by number.
    (FOUR, &[&[C], &[B, D], &[A]], 2, "2: 0 1 0 1"),
    // Processors stay without a task.
    (TWO, &[&[A], &[], &[B]], 5, "5: 1 0"),
    // A task is missing, stands twice, or is none.
    (TWO, &[&[A]], 1, "no partition"),
    (TWO, &[&[A, B], &[A]], 1, "no partition"),
    (TWO, &[&[A, B], &[C]], 1, "no partition"),
];

// The same, of the tasks of a text.
fn placed_of(
    rt: &impl Abort,
    alloc: Global,
    text: &str,
    clusters: &[&[TaskId]],
    processors: u32,
) -> Result<Vec<u8>, ProgramFault> {
    let clustering = clustering_of(alloc, clusters)?;
    let program = program_of(rt, alloc, text)?;
    let placed = placed(rt, alloc, program.graph(), &clustering, processors);
    drop(program);
    drop(clustering);
    Ok(placed?)
}

#[test]
fn heavy_clusters_come_first(rt: HostRuntime) -> Result<(), Fail> {
    for (text, clusters, processors, of) in MERGED {
        let found = placed_of(&rt, rt.alloc(), text, clusters, *processors)?;
        assert_eq!(rt; found.as_slice(), of.as_bytes());
    }
    Ok(())
}
