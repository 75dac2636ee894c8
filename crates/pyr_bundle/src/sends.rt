// Law 8: each pair of datum and destination stands in at most one send.
ghost use Rattle.std.specs.Prelude.{OnOk, IfErr};
ghost use Rattle.pyr_bundle.specs.Law.{IsKept};
ghost use Rattle.pyr_bundle.specs.Laws.{sends};
ghost use Rattle.pyr_bundle.specs.Faults.{IsBroken};

use crate::{BundleFault, RawBundle};
use std::alloc::Global;
use std::collections::HashSet;

pub(crate) fn check_sends(alloc: Global, raw: &RawBundle) -> Result<(), BundleFault>
    ensures ok { OnOk result (IsKept (sends raw.now)) }
    ensures fault { IfErr result (IsBroken 8 (sends raw.now)) }
{
    let mut seen = HashSet::new(alloc);
    for (p, code) in raw.code.as_slice().iter().enumerate() {
        for (i, instr) in code.as_slice().iter().enumerate() {
            if let Some(pair) = instr.sent() {
                if !seen.insert(pair)? {
                    return Err(BundleFault::law(8, p, i));
                }
            }
        }
    }
    Ok(())
}
