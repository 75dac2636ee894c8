// Law 4: each task's code is well-formed.
ghost use Rattle.std.specs.Prelude.{◌≡◌, ◌≤◌, None, All, map, OnOk, IfOk, IfErr};
ghost use Rattle.pyr_bundle.specs.Law.{IsKept};
ghost use Rattle.pyr_bundle.specs.Raw.{datum_count, shape_of, IsTaskWithinLimits};
ghost use Rattle.pyr_bundle.specs.Laws.{accesses, codes, code_fault_of};
ghost use Rattle.pyr_bundle.specs.Faults.{IsBroken};
ghost use Rattle.pyr_bundle.specs.Parts.{bundle_task_of, verified_code_of};
ghost use Rattle.pyr_bundle.specs.Tables.{FitsId, IsCodeFault};

use crate::typing::datum_ids;
use crate::{BundleFault, BundleTask, RawBundle, RawTask};
use pyr_code::{CodeFault, Shape, Verified, copy_ops, verify};
use pyr_num::Limits;
use std::alloc::Global;

// What the code of a task may name.
fn shape_of(task: &RawTask) -> Shape
    requires { IsTaskWithinLimits task.now }
    ensures { result ≡ shape_of task.now }
{
    Shape {
        reads: task.reads.len() as u32,
        writes: task.writes.len() as u32,
        locals: task.locals,
    }
}

// The code of task `t`, checked.
fn checked_code(alloc: Global, t: usize, task: &RawTask) -> Result<Verified, BundleFault>
    requires { IsTaskWithinLimits task.now }
    ensures value { IfOk result (λ code. code ≡ verified_code_of task.now) }
    ensures ok { OnOk result (code_fault_of task.now ≡ None) }
    ensures fault { IfErr result (IsCodeFault t task.now) }
{
    let ops = copy_ops(alloc, task.code.as_slice())?;
    match verify(ops, shape_of(task)) {
        Ok(code) => Ok(code),
        Err(CodeFault::BadCode { place, .. }) => Err(BundleFault::law(4, t, place as usize)),
        Err(CodeFault::Memory) => Err(BundleFault::Memory),
    }
}

// Task `t` with its code checked, whose reads and writes are known to name data.
fn checked_task(alloc: Global, t: usize, task: &RawTask) -> Result<BundleTask, BundleFault>
    requires limits { IsTaskWithinLimits task.now }
    requires reads { All FitsId task.now.reads }
    requires writes { All FitsId task.now.writes }
    ensures value { IfOk result (λ checked. checked ≡ bundle_task_of task.now) }
    ensures ok { OnOk result (code_fault_of task.now ≡ None) }
    ensures fault { IfErr result (IsCodeFault t task.now) }
{
    let reads = datum_ids(alloc, task.reads.as_slice())?;
    let writes = datum_ids(alloc, task.writes.as_slice())?;
    let code = checked_code(alloc, t, task)?;
    Ok(BundleTask {
        reads,
        writes,
        code,
    })
}

/// The tasks with their code checked, whose reads and writes are known to name data.
pub(crate) fn checked_tasks(alloc: Global, raw: &RawBundle) -> Result<Vec<BundleTask>, BundleFault>
    requires few { datum_count raw.now ≤ Limits.DATUMS }
    requires limits { All IsTaskWithinLimits raw.now.tasks }
    requires accesses { IsKept (accesses raw.now) }
    ensures value { IfOk result (λ tasks. tasks.items ≡ map bundle_task_of raw.now.tasks) }
    ensures ok { OnOk result (IsKept (codes raw.now)) }
    ensures fault { IfErr result (IsBroken 4 (codes raw.now)) }
{
    let mut tasks = Vec::with_capacity(alloc, raw.tasks.len())?;
    for (t, task) in raw.tasks.as_slice().iter().enumerate() {
        tasks.push(checked_task(alloc, t, task)?)?;
    }
    Ok(tasks)
}
