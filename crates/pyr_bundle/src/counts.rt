// What stands exactly once: law 3 for the writers of data, law 7 for the executions of tasks.
ghost use Rattle.std.specs.Prelude.{◌≡◌, ℕ, ◌+◌, ◌^◌, ◌==◌, ◌<◌, ◌≤◌, if◌then◌else◌, nat_eq, All, length, slice_index, count_by, sum_by, MatchOption, OnOk, IfErr};
ghost use Rattle.std.specs.List.{list_any};
ghost use Rattle.pyr_bundle.specs.Law.{IsKept, IsFirstBreach, single};
ghost use Rattle.pyr_bundle.specs.Raw.{datum_count, task_count};
ghost use Rattle.pyr_bundle.specs.Laws.{fresh, accesses, writers, operands, executions, is_exec};
ghost use Rattle.pyr_bundle.specs.Tables.{IsExecBelow};
ghost use Rattle.pyr_bundle.specs.Faults.{IsBroken};

use crate::{BundleFault, RawBundle, RawInstr};
use pyr_num::Limits;
use std::alloc::Global;

// The first count that isn't 1.
fn first_not_one(counts: &[u32]) -> Option<usize>
    ensures { MatchOption result
        (IsKept (single (length counts.now) (λ k. slice_index counts.now k == 1)))
        (λ k. IsFirstBreach (single (length counts.now) (λ k. slice_index counts.now k == 1)) k 0) }
{
    for (k, count) in counts.iter().enumerate() {
        if *count != 1 {
            return Some(k);
        }
    }
    None
}

// Counts a task more for each datum that it writes.
fn count_writes(counts: &mut [u32], writes: &[u64])
    requires fresh { IsKept (fresh (length counts.old) writes.now) }
    requires few { (d : ℕ) → d < length counts.old → slice_index counts.old d + 1 < 2 ^ 32 }
    ensures { (d : ℕ) → d < length counts.old → slice_index counts.new d
        ≡ slice_index counts.old d + (if list_any (nat_eq d) writes.now then 1 else 0) }
{
    for number in writes {
        counts[*number as usize] += 1;
    }
}

// The first datum that isn't in the writes of exactly one task. All counts are 0 before.
fn uneven_datum(raw: &RawBundle, counts: &mut [u32]) -> Option<usize>
    requires few { task_count raw.now ≤ Limits.TASKS }
    requires accesses { IsKept (accesses raw.now) }
    requires full { length counts.old ≡ datum_count raw.now }
    requires none { All (λ n. n ≡ 0) counts.old }
    ensures { MatchOption result (IsKept (writers raw.now))
        (λ d. IsFirstBreach (writers raw.now) d 0) }
{
    for task in raw.tasks.as_slice() {
        count_writes(counts, task.writes.as_slice());
    }
    first_not_one(counts)
}

pub(crate) fn check_writers(alloc: Global, raw: &RawBundle) -> Result<(), BundleFault>
    requires few { task_count raw.now ≤ Limits.TASKS }
    requires accesses { IsKept (accesses raw.now) }
    ensures ok { OnOk result (IsKept (writers raw.now)) }
    ensures fault { IfErr result (IsBroken 3 (writers raw.now)) }
{
    let mut counts = vec![in alloc; 0; raw.datums.len()]?;
    match uneven_datum(raw, &mut counts) {
        Some(d) => Err(BundleFault::law(3, d, 0)),
        None => Ok(()),
    }
}

// Counts the executions of each task.
fn count_execs(counts: &mut [u32], code: &[RawInstr])
    requires tasks { All (IsExecBelow (length counts.old)) code.now }
    requires few { (t : ℕ) → t < length counts.old
        → slice_index counts.old t + length code.now < 2 ^ 32 }
    ensures { (t : ℕ) → t < length counts.old → slice_index counts.new t
        ≡ slice_index counts.old t + count_by (is_exec t) code.now }
{
    for instr in code {
        if let Some(task) = instr.executed() {
            counts[task as usize] += 1;
        }
    }
}

// The first task that doesn't stand in exactly one exec. All counts are 0 before.
fn uneven_task(raw: &RawBundle, counts: &mut [u32]) -> Option<usize>
    requires few { sum_by length raw.now.code ≤ Limits.INSTRUCTIONS }
    requires operands { IsKept (operands raw.now) }
    requires full { length counts.old ≡ task_count raw.now }
    requires none { All (λ n. n ≡ 0) counts.old }
    ensures { MatchOption result (IsKept (executions raw.now))
        (λ t. IsFirstBreach (executions raw.now) t 0) }
{
    for code in raw.code.as_slice() {
        count_execs(counts, code.as_slice());
    }
    first_not_one(counts)
}

pub(crate) fn check_executions(alloc: Global, raw: &RawBundle) -> Result<(), BundleFault>
    requires few { sum_by length raw.now.code ≤ Limits.INSTRUCTIONS }
    requires operands { IsKept (operands raw.now) }
    ensures ok { OnOk result (IsKept (executions raw.now)) }
    ensures fault { IfErr result (IsBroken 7 (executions raw.now)) }
{
    let mut counts = vec![in alloc; 0; raw.tasks.len()]?;
    match uneven_task(raw, &mut counts) {
        Some(t) => Err(BundleFault::law(7, t, 0)),
        None => Ok(()),
    }
}
