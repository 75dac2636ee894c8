// Law 1: data names differ.
ghost use Rattle.std.specs.Prelude.{OnOk, IfErr};
ghost use Rattle.pyr_bundle.specs.Law.{IsKept};
ghost use Rattle.pyr_bundle.specs.Laws.{names};
ghost use Rattle.pyr_bundle.specs.Faults.{IsBroken};

use crate::{BundleFault, RawBundle};
use std::alloc::Global;
use std::collections::HashSet;

pub(crate) fn check_names(alloc: Global, raw: &RawBundle) -> Result<(), BundleFault>
    ensures ok { OnOk result (IsKept (names raw.now)) }
    ensures fault { IfErr result (IsBroken 1 (names raw.now)) }
{
    let mut seen = HashSet::new(alloc);
    for (d, datum) in raw.datums.as_slice().iter().enumerate() {
        if !seen.insert(datum.name)? {
            return Err(BundleFault::law(1, d, 0));
        }
    }
    Ok(())
}
