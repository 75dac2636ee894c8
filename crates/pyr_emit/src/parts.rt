// What a bundle takes over from its program.

ghost use Rattle.std.specs.Prelude.{◌≡◌, ◌<◌, ℕ, length, All, IfOk};
ghost use Rattle.pyr_graph.specs.System.{task_count, datum_numbers};
ghost use Rattle.pyr_bundle.specs.Raw.{task_in};
ghost use Rattle.pyr_emit.specs.Emission.{datums_of, IsTaskOf};
ghost use Rattle.pyr_emit.specs.Checked.{IsChecked};

use pyr_bodygen::generate;
use pyr_bundle::{RawDatum, RawTask};
use pyr_code::copy_ops;
use pyr_graphtext::Program;
use pyr_num::{DatumId, TaskId};
use sqlite_items::Items;
use std::alloc::{AllocError, Global};

/// The numbers of these data.
pub(crate) fn numbers_of(alloc: Global, datums: &[DatumId]) -> Result<Items<u64>, AllocError>
    ensures { IfOk result (λ numbers. numbers ≡ datum_numbers datums.now) }
{
    let mut numbers = Vec::with_capacity(alloc, datums.len())?;
    for datum in datums {
        numbers.push(u64::from(datum.0))?;
    }
    Ok(Items::from_vec(numbers))
}

/// The data, each with its name and its number of words.
#[tactic(auto, using(crate::proofs::Ranges::made_more))]
pub(crate) fn datums_of(alloc: Global, program: &Program) -> Result<Items<RawDatum>, AllocError>
    ensures { IfOk result (λ datums. datums ≡ datums_of program.now) }
{
    let mut datums = Vec::new(alloc);
    for datum in 0..program.graph().datum_count() {
        datums.push(RawDatum {
            name: program.datum_name(DatumId(datum)),
            length: program.graph().length(DatumId(datum)),
        })?;
    }
    Ok(Items::from_vec(datums))
}

/// A task with the code of its body.
fn task_of(alloc: Global, program: &Program, task: TaskId) -> Result<RawTask, AllocError>
    requires { task.0 < task_count program.now.graph }
    ensures task { IfOk result (IsTaskOf program.now task.0) }
    ensures checked { IfOk result IsChecked }
{
    let body = program.body(task);
    let code = generate(alloc, body)?;
    Ok(RawTask {
        locals: code.shape().locals,
        reads: numbers_of(alloc, program.graph().reads(task))?,
        writes: numbers_of(alloc, program.graph().writes(task))?,
        code: Items::from_vec(copy_ops(alloc, code.ops())?),
    })
}

/// The tasks, each with the code of its body.
pub(crate) fn tasks_of(alloc: Global, program: &Program) -> Result<Items<RawTask>, AllocError>
    ensures count { IfOk result (λ tasks. length tasks ≡ task_count program.now.graph) }
    ensures tasks { IfOk result (λ tasks. (t : ℕ) → t < task_count program.now.graph
        → IsTaskOf program.now t (task_in tasks t)) }
    ensures checked { IfOk result (All IsChecked) }
{
    let mut tasks = Vec::new(alloc);
    for task in 0..program.graph().task_count() {
        tasks.push(task_of(alloc, program, TaskId(task))?)?;
    }
    Ok(Items::from_vec(tasks))
}
