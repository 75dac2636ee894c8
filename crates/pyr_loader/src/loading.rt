// The loader.
ghost use Rattle.std.specs.Prelude.{◌≤◌, length, IfOk, IfErr};
ghost use Rattle.pyr_loader.specs.Answer.{IsLoadOf, IsRefusal};
ghost use Rattle.pyr_loader.specs.Safe.{IsSafe};

use crate::LoadFault;
use crate::rehearsal::rehearse;
use pyr_bundle::Bundle;
use pyr_bundletext::read_bundle;
use pyr_machine::Loaded;
use pyr_num::Limits;
use std::alloc::Global;

/// The bundle that has this text, with the number of steps of its complete runs; or the first fault:
/// of the text, of its laws, or of its runs.
///
/// To find whether a complete run exists it rehearses one, over data without words: no task is
/// executed. The time of that is linear in the instructions and sends, beyond searches in stashes.
pub fn load(alloc: Global, text: &[u8]) -> Result<Loaded, LoadFault>
    requires { length text.now ≤ Limits.INPUT }

    // A bundle is loaded exactly where the text is that of a lawful bundle within the limits of
    // which a complete run exists, want of memory apart.
    ensures loaded { IfOk result (IsLoadOf text.now) }

    // In every interleaving of its processors' steps, in every frame: none gets stuck, none is
    // longer than the rehearsal, none passes a capacity, and all end alike, with the outputs of the
    // tasks run one by one.
    ensures safe { IfOk result (λ l. IsSafe l.bundle l.steps) }

    // Each refusal comes exactly where it stands for the text.
    ensures refused { IfErr result (IsRefusal text.now) }
{
    let raw = read_bundle(alloc, text)?;
    let bundle = Bundle::build(alloc, raw)?;
    let steps = rehearse(alloc, &bundle)?;
    Ok(Loaded::new(bundle, steps))
}
