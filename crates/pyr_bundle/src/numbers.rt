// Lists of the numbers of data: law 2 for the reads and the writes of tasks, law 5 for the prints.
ghost use Rattle.std.specs.Prelude.{◌≡◌, ◌<◌, ◌≤◌, All, length, MatchOption, OnOk, IfErr};
ghost use Rattle.pyr_bundle.specs.Law.{IsKept, IsFirstBreach};
ghost use Rattle.pyr_bundle.specs.Raw.{datum_count, task_count};
ghost use Rattle.pyr_bundle.specs.Laws.{fresh, accesses, prints};
ghost use Rattle.pyr_bundle.specs.Faults.{IsBroken};

use crate::{BundleFault, RawBundle};
use pyr_num::Limits;
use std::alloc::Global;

// The index of the first number of the list that names no datum or repeats an earlier one. `named`
// has, for each datum, the round of the last list that names it.
fn first_stale(named: &mut [usize], round: usize, list: &[u64]) -> Option<usize>
    requires { All (λ n. n < round) named.old }
    ensures found { MatchOption result (IsKept (fresh (length named.old) list.now))
        (λ i. IsFirstBreach (fresh (length named.old) list.now) i 0) }
    ensures round { All (λ n. n ≤ round) named.new }
{
    for (i, number) in list.iter().enumerate() {
        let datum = *number as usize;
        if datum >= named.len() {
            return Some(i);
        }
        if named[datum] == round {
            return Some(i);
        }
        named[datum] = round;
    }
    None
}

// The same for the reads and the writes of each task, where no list came before.
fn check_lists(raw: &RawBundle, named: &mut [usize]) -> Result<(), BundleFault>
    requires few { task_count raw.now ≤ Limits.TASKS }
    requires full { length named.old ≡ datum_count raw.now }
    requires none { All (λ n. n ≡ 0) named.old }
    ensures ok { OnOk result (IsKept (accesses raw.now)) }
    ensures fault { IfErr result (IsBroken 2 (accesses raw.now)) }
{
    for (t, task) in raw.tasks.as_slice().iter().enumerate() {
        let reads = task.reads.as_slice();
        if let Some(i) = first_stale(named, 2 * t + 1, reads) {
            return Err(BundleFault::law(2, t, i));
        }
        if let Some(i) = first_stale(named, 2 * t + 2, task.writes.as_slice()) {
            return Err(BundleFault::law(2, t, reads.len() + i));
        }
    }
    Ok(())
}

pub(crate) fn check_accesses(alloc: Global, raw: &RawBundle) -> Result<(), BundleFault>
    requires { task_count raw.now ≤ Limits.TASKS }
    ensures ok { OnOk result (IsKept (accesses raw.now)) }
    ensures fault { IfErr result (IsBroken 2 (accesses raw.now)) }
{
    let mut named = vec![in alloc; 0; raw.datums.len()]?;
    check_lists(raw, &mut named)
}

pub(crate) fn check_prints(alloc: Global, raw: &RawBundle) -> Result<(), BundleFault>
    ensures ok { OnOk result (IsKept (prints raw.now)) }
    ensures fault { IfErr result (IsBroken 5 (prints raw.now)) }
{
    let mut named = vec![in alloc; 0; raw.datums.len()]?;
    match first_stale(&mut named, 1, raw.prints.as_slice()) {
        Some(i) => Err(BundleFault::law(5, i, 0)),
        None => Ok(()),
    }
}
