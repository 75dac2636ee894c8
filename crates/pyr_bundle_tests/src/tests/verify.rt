use pyr_verify::{Summary, one_summary, verify_make};

const SUMMARY: Summary = Summary {
    tasks: 2,
    processors: 2,
    messages: 0,
    steps: 2,
    time: 38,
    sum: 1,
};

#[test]
fn two_tasks_on_two_processors(rt: HostRuntime) {
    assert!(rt; verify_make(rt.alloc(), 2, 2) == Ok(SUMMARY));
    one_summary();
}
