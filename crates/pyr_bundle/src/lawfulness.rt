// All laws, from the first to the last.
ghost use Rattle.std.specs.Prelude.{◌≡◌, map, IfOk, OnOk, IfErr};
ghost use Rattle.pyr_bundle.specs.Law.{IsKept};
ghost use Rattle.pyr_bundle.specs.Laws.{names, accesses, writers, codes};
ghost use Rattle.pyr_bundle.specs.Raw.{IsWithinLimits};
ghost use Rattle.pyr_bundle.specs.Faults.{IsLawful, IsCause};
ghost use Rattle.pyr_bundle.specs.Parts.{bundle_task_of, datum_id, capacity_of, instr_of};

use crate::channels::{check_capacities, check_channels, links_of};
use crate::codes::checked_tasks;
use crate::counts::{check_executions, check_writers};
use crate::names::check_names;
use crate::numbers::{check_accesses, check_prints};
use crate::operands::check_operands;
use crate::receives::check_receives;
use crate::sends::check_sends;
use crate::typing::{TypedLists, typed_lists};
use crate::{BundleFault, BundleTask, RawBundle};
use std::alloc::Global;

// The tasks with their code checked, where every law is kept.
fn lawful_tasks(alloc: Global, raw: &RawBundle) -> Result<Vec<BundleTask>, BundleFault>
    requires { IsWithinLimits raw.now }
    ensures value { IfOk result (λ tasks. tasks.items ≡ map bundle_task_of raw.now.tasks) }
    ensures lawful { OnOk result (IsLawful raw.now) }
    ensures fault { IfErr result (IsCause raw.now) }
{
    check_names(alloc, raw)?;
    check_accesses(alloc, raw)?;
    check_writers(alloc, raw)?;
    let tasks = checked_tasks(alloc, raw)?;
    check_others(alloc, raw)?;
    Ok(tasks)
}

// The laws behind that of the codes of tasks, from law 5 on.
fn check_others(alloc: Global, raw: &RawBundle) -> Result<(), BundleFault>
    requires limits { IsWithinLimits raw.now }
    requires names { IsKept (names raw.now) }
    requires accesses { IsKept (accesses raw.now) }
    requires writers { IsKept (writers raw.now) }
    requires codes { IsKept (codes raw.now) }
    ensures lawful { OnOk result (IsLawful raw.now) }
    ensures fault { IfErr result (IsCause raw.now) }
{
    check_prints(alloc, raw)?;
    check_operands(raw)?;
    check_executions(alloc, raw)?;
    check_sends(alloc, raw)?;
    check_receives(alloc, raw)?;
    let links = links_of(alloc, raw)?;
    check_channels(raw, &links)?;
    check_capacities(raw, &links)?;
    Ok(())
}

/// The parts of a bundle beside its data.
#[derive(Drop)]
pub(crate) struct LawfulParts {
    pub(crate) tasks: Vec<BundleTask>,
    pub(crate) lists: TypedLists,
}

/// The parts beside the data, where every law is kept.
pub(crate) fn lawful_parts(alloc: Global, raw: &RawBundle) -> Result<LawfulParts, BundleFault>
    requires { IsWithinLimits raw.now }
    ensures tasks { IfOk result (λ parts. parts.tasks.items ≡ map bundle_task_of raw.now.tasks) }
    ensures prints { IfOk result (λ parts. parts.lists.prints ≡ map datum_id raw.now.prints) }
    ensures channels { IfOk result
        (λ parts. parts.lists.channels ≡ map capacity_of raw.now.channels) }
    ensures code { IfOk result (λ parts. parts.lists.code ≡ map (map instr_of) raw.now.code) }
    ensures lawful { OnOk result (IsLawful raw.now) }
    ensures fault { IfErr result (IsCause raw.now) }
{
    let tasks = lawful_tasks(alloc, raw)?;
    let lists = typed_lists(alloc, raw)?;
    Ok(LawfulParts { tasks, lists })
}
