use pyr_lists::TaskQueue;
use pyr_num::TaskId;
use std::alloc::{AllocError, Global};

type Head = Option<(TaskId, u64)>;

// The heads of a queue: with two tasks of one priority, after one of them was raised, and after each
// of them was taken out.
fn heads(alloc: Global) -> Result<[Head; 5], AllocError> {
    let mut queue = TaskQueue::new(alloc);
    let empty = queue.head();
    queue.insert(TaskId(3), 5)?;
    queue.insert(TaskId(1), 5)?;
    let tie = queue.head();
    queue.raise(TaskId(3), 6)?;
    let raised = queue.head();
    queue.remove(TaskId(3));
    let left = queue.head();
    queue.remove(TaskId(1));
    Ok([empty, tie, raised, left, queue.head()])
}

#[test]
fn the_greatest_priority_comes_first(rt: HostRuntime) {
    let found = heads(rt.alloc());
    assert!(rt;
        found
            == Ok([
                None,
                Some((TaskId(1), 5)),
                Some((TaskId(3), 6)),
                Some((TaskId(1), 5)),
                None,
            ])
    );
}

// A task that was raised to its own priority is still there, and heads where it was put first.
fn raised_to_the_same(alloc: Global) -> Result<[Head; 2], AllocError> {
    let mut queue = TaskQueue::new(alloc);
    queue.insert(TaskId(2), 7)?;
    queue.raise(TaskId(2), 7)?;
    let one = queue.head();
    queue.insert(TaskId(4), 8)?;
    Ok([one, queue.head()])
}

#[test]
fn the_same_priority_changes_nothing(rt: HostRuntime) {
    let found = raised_to_the_same(rt.alloc());
    assert!(rt; found == Ok([Some((TaskId(2), 7)), Some((TaskId(4), 8))]));
}

// Whether tasks 0 and 1 are held, where the first was put in and taken out and the second put in.
fn held(alloc: Global) -> Result<[bool; 2], AllocError> {
    let mut queue = TaskQueue::new(alloc);
    queue.insert(TaskId(0), 1)?;
    queue.remove(TaskId(0));
    queue.insert(TaskId(1), 0)?;
    Ok([queue.holds(TaskId(0)), queue.holds(TaskId(1))])
}

#[test]
fn a_task_is_held_until_it_is_taken_out(rt: HostRuntime) {
    assert!(rt; held(rt.alloc()) == Ok([false, true]));
}

// Whether an insertion was refused, and whether the task is held then.
fn insertion(alloc: Global) -> (bool, bool) {
    let mut queue = TaskQueue::new(alloc);
    let refused = queue.insert(TaskId(9), 1).is_err();
    (refused, queue.holds(TaskId(9)))
}

#[test]
fn a_refused_task_is_not_held(rt: HostRuntime) {
    let (refused, held) = insertion(rt.alloc());
    assert!(rt; refused != held);
}
