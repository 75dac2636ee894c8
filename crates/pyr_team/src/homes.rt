// Which processor writes each datum.
ghost use Rattle.std.specs.Prelude.{◌≡◌, ◌<◌, ℕ, length, IfOk};
ghost use Rattle.pyr_bundle.specs.Parts.{processor_count, datum_count, task_count, code_at};
ghost use Rattle.pyr_machine.specs.State.{IsExec};
ghost use Rattle.pyr_team.specs.Homes.{AreHomes, KeepsHomes, HasHomes, HaveHomes};

use pyr_bundle::{Bundle, Instr};
use pyr_num::{ProcId, TaskId};
use std::alloc::{AllocError, Global};

// Makes a processor the home of what a task writes that it executes.
fn settle_task(bundle: &Bundle, p: ProcId, task: TaskId, homes: &mut [ProcId])
    requires count { length homes.old ≡ datum_count bundle.now }
    requires task { task.0 < task_count bundle.now }
    requires here { (i : ℕ) × IsExec bundle.now p.0 i task.0 }
    ensures kept { KeepsHomes bundle.now homes.old homes.new }
    ensures settled { HasHomes bundle.now task.0 homes.new }
{
    bundle.well_formed();
    for d in bundle.task(task).writes.as_slice() {
        homes[d.0 as usize] = p;
    }
}

// Makes a processor the home of all that the tasks write that it executes.
fn settle_processor(bundle: &Bundle, p: ProcId, homes: &mut [ProcId])
    requires count { length homes.old ≡ datum_count bundle.now }
    requires known { p.0 < processor_count bundle.now }
    ensures kept { KeepsHomes bundle.now homes.old homes.new }
    ensures settled { HaveHomes bundle.now p.0 (length (code_at bundle.now p.0)) homes.new }
{
    bundle.well_formed();
    let code = bundle.code(p);
    for i in 0..code.len() {
        if let Instr::Exec { task } = code[i] {
            settle_task(bundle, p, task, homes);
        }
    }
}

/// The home of each datum: the processor that executes the task which writes it. The time is linear
/// in the instructions and the writes.
pub fn homes(alloc: Global, bundle: &Bundle) -> Result<Vec<ProcId>, AllocError>
    ensures { IfOk result (λ homes. AreHomes bundle.now homes.items) }
{
    bundle.well_formed();
    let mut homes = vec![in alloc; ProcId(0); bundle.datum_count() as usize]?;
    for p in 0..bundle.processors() {
        settle_processor(bundle, ProcId(p), &mut homes);
    }
    Ok(homes)
}
