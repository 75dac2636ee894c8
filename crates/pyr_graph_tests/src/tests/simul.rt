// Lines of durations, the simulated times of a plan with them, and the bound.
use crate::tests::programs::HEAVY;
use pyr_decimal::put_number;
use pyr_graph::Placement;
use pyr_graphtext::{NameKind, Program, read_program};
use pyr_num::{ProcId, Quantity};
use pyr_rcp::{order, places_all};
use pyr_simul::{DurationFault, cut_input, lower_bound, read_durations, simulate};
use sqlite_items::Items;
use std::alloc::{AllocError, Global};
use std::process::Abort;
use std::test::Fail;

// Appends the number of a line and what is wrong with it.
fn push_wrong(text: &mut Vec<u8>, line: u32, wrong: &[u8], name: &[u8]) -> Result<(), AllocError> {
    put_number(text, u64::from(line))?;
    text.extend_from_slice(wrong)?;
    text.extend_from_slice(name)
}

fn push_fault(text: &mut Vec<u8>, fault: &DurationFault) -> Result<(), AllocError> {
    match fault {
        DurationFault::BadText { line } => push_wrong(text, *line, b" text", b""),
        DurationFault::Limit {
            line,
            which: Quantity::Time,
        } => push_wrong(text, *line, b" limit time", b""),
        DurationFault::Limit {
            line,
            which: Quantity::Delay,
        } => push_wrong(text, *line, b" limit delay", b""),
        DurationFault::Limit { line, .. } => push_wrong(text, *line, b" limit", b""),
        DurationFault::Names {
            line,
            kind: NameKind::Unknown,
            name,
        } => push_wrong(text, *line, b" unknown ", name.bytes()),
        DurationFault::Names {
            line,
            kind: NameKind::Duplicate,
            name,
        } => push_wrong(text, *line, b" duplicate ", name.bytes()),
        DurationFault::Names { line, name, .. } => push_wrong(text, *line, b" ", name.bytes()),
        DurationFault::Memory => text.extend_from_slice(b" memory"),
    }
}

// Appends the start and the finish of each task of the plan on two processors, the tasks of the path
// and their sum, the load and the bound; or the fault of the lines of durations.
fn push_told(
    rt: &impl Abort,
    alloc: Global,
    text: &mut Vec<u8>,
    program: &Program,
    later: &[u8],
    line: u32,
) -> Result<(), AllocError> {
    assert!(rt; later.len() <= 1_000 && line <= 1_000);
    let durations = match read_durations(alloc, later, line, program) {
        Ok(durations) => durations,
        Err(fault) => return push_fault(text, &fault),
    };
    let placement = Placement {
        processors: 2,
        of: Items::from_slice(alloc, &[ProcId(0), ProcId(0), ProcId(1), ProcId(1)])?,
    };
    let graph = program.graph();
    assert!(rt; places_all(graph, &placement));
    let plan = order(alloc, graph, &placement)?;
    let times = simulate(alloc, graph, &placement, &plan, &durations)?;
    for start in times.start.as_slice() {
        put_number(text, *start)?;
    }
    text.extend_from_slice(b",")?;
    for finish in times.finish.as_slice() {
        put_number(text, *finish)?;
    }
    text.extend_from_slice(b", path")?;
    let bound = lower_bound(alloc, graph, &durations, 2)?;
    for task in bound.path.as_slice() {
        put_number(text, u64::from(task.0))?;
    }
    text.extend_from_slice(b",")?;
    put_number(text, bound.path_sum)?;
    put_number(text, bound.load)?;
    put_number(text, bound.bound)
}

// The lines behind the heavy diamond, of which `durations` is line 20, and what is told.
const ROWS: &[(&str, &str)] = &[
    ("", " 0 2 3 13, 2 12 13 14, path 0 1 3, 13 12 13"),
    ("durations", " 0 2 3 13, 2 12 13 14, path 0 1 3, 13 12 13"),
    (
        "durations\ntime b 1\n",
        " 0 2 3 13, 2 3 13 14, path 0 2 3, 13 7 13",
    ),
    (
        "durations\ndelay x 20\n",
        " 0 2 22 32, 2 12 32 33, path 0 1 3, 13 12 13",
    ),
    (
        "durations\n\n # c\n\t time b\t1 # c\r\n",
        " 0 2 3 13, 2 3 13 14, path 0 2 3, 13 7 13",
    ),
    (
        "durations\ntime a 0\ntime b 0\ntime c 0\ntime d 0\n",
        " 0 0 1 1, 0 0 1 1, path 0, 0 0 0",
    ),
    // what takes no time stands at the front of the path, and not at its end
    (
        "durations\ntime a 0\ntime d 0\ntime b 9\ndelay x 0\ndelay y 0\n",
        " 0 0 0 10, 0 9 10 10, path 0 2, 10 10 10",
    ),
    (
        "durations\ntime b 1000000\n",
        " 0 2 3 1000003, 2 1000002 13 1000004, path 0 1 3, 1000003 500007 1000003",
    ),
    ("durations\ndurations\n", " 21 text"),
    ("durations\ntime q 1\n", " 21 unknown q"),
    ("durations\ntime q 2000000\n", " 21 limit time"),
    ("durations\ntime b 1000001\n", " 21 limit time"),
    ("durations\ndelay x 1000001\n", " 21 limit delay"),
    (
        "durations\ntime b 1\ndelay y 1\ntime b 2\n",
        " 23 duplicate b",
    ),
    ("durations\ndelay b 1\n", " 21 unknown b"),
    ("durations\ntime b 01\n", " 21 text"),
    ("durations\ntime b\n", " 21 text"),
    ("durations\ntime b 1 2\n", " 21 text"),
    ("durations\ntime data 1\n", " 21 text"),
    ("durations\ncost b 1\n", " 21 text"),
    ("durations\ntime b 18446744073709551615\n", " 21 limit time"),
    ("durations\ntime b 18446744073709551616\n", " 21 text"),
];

// What is told of a graph text of four tasks with these lines behind it.
fn told_of(rt: &impl Abort, alloc: Global, graph: &str, later: &str) -> Result<Vec<u8>, Fail> {
    let mut input = Vec::from_slice(alloc, graph.as_bytes())?;
    input.extend_from_slice(later.as_bytes())?;
    assert!(rt; input.len() <= 1_000);
    let parts = cut_input(&input);
    assert_eq!(rt; parts.graph, graph.as_bytes());
    let program = read_program(alloc, parts.graph)?;
    let mut told = Vec::new(alloc);
    let pushed = push_told(rt, alloc, &mut told, &program, parts.later, parts.line);
    drop(program);
    pushed?;
    Ok(told)
}

#[test]
fn simulates_with_the_durations_that_are_given(rt: HostRuntime) -> Result<(), Fail> {
    for (later, wanted) in ROWS {
        let told = told_of(&rt, rt.alloc(), HEAVY, later)?;
        assert_eq!(rt; told.as_slice(), wanted.as_bytes(), "behind {later}");
    }
    Ok(())
}

const INDEPENDENT: &str = "task a 3
end
task b 3
end
task c 3
end
task d 3
end
";

// Eleven units on two processors take six at least, though no path takes more than three.
#[test]
fn the_bound_is_the_load_where_that_is_greater(rt: HostRuntime) -> Result<(), Fail> {
    let told = told_of(&rt, rt.alloc(), INDEPENDENT, "durations\ntime a 2\n")?;
    let wanted = b" 0 2 0 3, 2 5 3 6, path 1, 3 6 6";
    assert_eq!(rt; told.as_slice(), wanted.as_slice());
    Ok(())
}

// A line that isn't exactly `durations` stays in the graph text.
#[test]
fn cuts_at_the_exact_line_alone(rt: HostRuntime) -> Result<(), Fail> {
    for input in [
        " durations\n",
        "durations\r\n",
        "durations # c\n",
        "Durations\n",
        "",
    ] {
        let parts = cut_input(input.as_bytes());
        assert_eq!(rt; parts.graph, input.as_bytes());
        assert_eq!(rt; parts.later.len(), 0);
    }
    let parts = cut_input(b"a\n\ndurations\ndurations\nb");
    assert_eq!(rt; parts.graph, b"a\n\n".as_slice());
    assert_eq!(rt; parts.later, b"durations\nb".as_slice());
    assert_eq!(rt; parts.line, 4);
    Ok(())
}
