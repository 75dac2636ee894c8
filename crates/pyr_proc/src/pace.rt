// What a caller may do beside a run.
use pyr_num::{ProcId, TaskId};

/// Decides whether the worker of a processor is started, and is told of each task before it is
/// executed. No answer of a run rests on it.
pub trait Pace: Sync {
    /// Whether the worker of this processor may be started.
    fn allow_start(&self, p: ProcId) -> bool;

    /// Called by a processor before it executes a task.
    fn before_task(&self, p: ProcId, t: TaskId);
}

/// Lets every worker start, and does nothing before a task.
#[derive(Clone, Copy, PartialEq, Eq)]
pub struct Free;

impl Pace for Free {
    fn allow_start(&self, _p: ProcId) -> bool {
        true
    }

    fn before_task(&self, _p: ProcId, _t: TaskId) {}
}
