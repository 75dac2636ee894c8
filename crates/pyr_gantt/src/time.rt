// The length of a plan.

ghost use Rattle.std.specs.Prelude.{◌≡◌};
ghost use Rattle.pyr_gantt.specs.Gantt.{time_of};

use pyr_graph::Plan;

/// The greatest finish of a plan, in abstract time units, or 0 where it has no task.
pub fn time_of(plan: &Plan) -> u64
    ensures { result ≡ time_of plan.now }
{
    let mut time: u64 = 0;
    for finish in plan.finish.as_slice() {
        time = time.max(*finish);
    }
    time
}
