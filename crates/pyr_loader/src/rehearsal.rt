// The rehearsal of a bundle.
ghost use Rattle.std.specs.Prelude.{IfOk, IfErr};
ghost use Rattle.pyr_machine.specs.Good.{IsGood};
ghost use Rattle.pyr_loader.specs.Told.{IsRehearsalFault};

use crate::LoadFault;
use crate::leftover::first_unreceived;
use crate::stops::{all_ended, stops};
use crate::work_list::run_out;
use pyr_bundle::Bundle;
use pyr_machine::Tags;
use std::alloc::Global;

/// Makes a longest run of the tag machine, and tells its number of steps where it is complete, or
/// how it ends.
pub fn rehearse(alloc: Global, bundle: &Bundle) -> Result<u64, LoadFault>
    ensures good { IfOk result (IsGood bundle.now) }
    ensures fault { IfErr result (IsRehearsalFault bundle.now) }
{
    bundle.is_bundle();
    let mut tags = Tags::new(alloc, bundle)?;
    let steps = run_out(alloc, bundle, &mut tags)?;
    if !all_ended(&tags) {
        let processors = stops(alloc, bundle, &tags)?;
        return Err(LoadFault::Stuck { processors });
    }
    if let Some(left) = first_unreceived(alloc, bundle)? {
        return Err(LoadFault::Leftover {
            from: left.from,
            to: left.to,
            datum: left.datum,
        });
    }
    Ok(steps)
}
