// The plans of `pyr_rcp`, and the reports on them.
use crate::tests::programs::{ELIMINATION, HEAVY, program_of};
use pyr_decimal::put_number;
use pyr_gantt::report;
use pyr_graph::{Placement, Plan};
use pyr_graphtext::{Program, ProgramFault};
use pyr_num::ProcId;
use pyr_rcp::{order, places_all};
use sqlite_items::Items;
use std::alloc::{AllocError, Global};
use std::process::Abort;
use std::test::Fail;

const P: ProcId = ProcId(0);

const Q: ProcId = ProcId(1);

const R: ProcId = ProcId(2);

// Appends the tasks of a plan in their order.
fn push_order(text: &mut Vec<u8>, plan: &Plan) -> Result<(), AllocError> {
    for task in plan.order.as_slice() {
        put_number(text, u64::from(task.0))?;
    }
    Ok(())
}

// The report on the plan of a program, and behind it the tasks in their order.
fn told(
    rt: &impl Abort,
    alloc: Global,
    program: &Program,
    placement: &Placement,
) -> Result<Vec<u8>, AllocError> {
    assert!(rt; places_all(program.graph(), placement));
    let plan = order(alloc, program.graph(), placement)?;
    let mut text = report(alloc, program, placement, &plan)?;
    push_order(&mut text, &plan)?;
    Ok(text)
}

// The same, of a text whose tasks stand on these processors.
fn told_of(
    rt: &impl Abort,
    alloc: Global,
    text: &str,
    placement: &Placement,
) -> Result<Vec<u8>, ProgramFault> {
    let program = program_of(rt, alloc, text)?;
    let told = told(rt, alloc, &program, placement);
    drop(program);
    Ok(told?)
}

const INDEPENDENT: &str = "task a 3
end
task b 3
end
";

// Tasks 1 and 2 can start at once, and task 2 has the greater level.
const LEVELS: &str = "data x 1 9
task a 1
writes x
end
task b 2
reads x
end
task c 5
reads x
end
";

// They can start at once on two processors, and have one level.
const TIE: &str = "data x 1 4
task a 1
writes x
end
task b 2
reads x
end
task c 2
reads x
end
";

// A text, the number of processors, the place of each task, and what is told.
const PLANS: &[(&str, u32, &[ProcId], &str)] = &[
    // one task after another
    (
        INDEPENDENT,
        1,
        &[P, P],
        "time 6
a 0 0 3
b 0 3 6
0 ############################################################
 0 1",
    ),
    // an idle processor
    (
        INDEPENDENT,
        3,
        &[R, P],
        "time 3
a 2 0 3
b 0 0 3
0 ############################################################
1 ............................................................
2 ############################################################
 0 1",
    ),
    (
        LEVELS,
        1,
        &[P, P, P],
        "time 8
a 0 0 1
b 0 6 8
c 0 1 6
0 ############################################################
 0 2 1",
    ),
    (
        TIE,
        3,
        &[R, Q, P],
        "time 7
a 2 0 1
b 1 5 7
c 0 5 7
0 ..........................................##################
1 ..........................................##################
2 #########...................................................
 0 1 2",
    ),
    (
        HEAVY,
        2,
        &[P, P, Q, Q],
        "time 14
a 0 0 2
b 0 2 12
c 1 3 13
d 1 13 14
0 ####################################################........
1 ............################################################
 0 1 2 3",
    ),
    (
        ELIMINATION,
        2,
        &[Q, Q, Q, Q, P, P],
        "time 23
l0 1 0 1
l1 1 1 2
l2 1 8 9
u01 1 2 8
u02 0 11 17
u12 0 17 23
0 ............................################################
1 ########################....................................
 0 1 3 2 4 5",
    ),
];

#[test]
fn tells_the_plan_and_when_each_task_runs(rt: HostRuntime) -> Result<(), Fail> {
    for (text, processors, of, wanted) in PLANS {
        let of = Items::from_slice(rt.alloc(), of)?;
        let placement = Placement {
            processors: *processors,
            of,
        };
        let found = told_of(&rt, rt.alloc(), text, &placement);
        drop(placement);
        assert_eq!(rt; found?.as_slice(), wanted.as_bytes(), "at {text}");
    }
    Ok(())
}
