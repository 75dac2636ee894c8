// Law 9: in one processor's code each datum stands in at most one receive.
ghost use Rattle.std.specs.Prelude.{OnOk, IfErr};
ghost use Rattle.pyr_bundle.specs.Law.{IsKept};
ghost use Rattle.pyr_bundle.specs.Laws.{receives};
ghost use Rattle.pyr_bundle.specs.Faults.{IsBroken};

use crate::{BundleFault, RawBundle};
use std::alloc::Global;
use std::collections::HashSet;

pub(crate) fn check_receives(alloc: Global, raw: &RawBundle) -> Result<(), BundleFault>
    ensures ok { OnOk result (IsKept (receives raw.now)) }
    ensures fault { IfErr result (IsBroken 9 (receives raw.now)) }
{
    for (p, code) in raw.code.as_slice().iter().enumerate() {
        let mut seen = HashSet::new(alloc);
        for (i, instr) in code.as_slice().iter().enumerate() {
            if let Some(datum) = instr.received() {
                if !seen.insert(datum)? {
                    return Err(BundleFault::law(9, p, i));
                }
            }
        }
    }
    Ok(())
}
