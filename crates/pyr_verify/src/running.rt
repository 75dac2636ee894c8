// The serial run of a bundle.

ghost use Rattle.std.specs.Prelude.{◌≡◌, ℕ, List, IfOk};
ghost use Rattle.pyr_bundle.specs.Values.{IsOrderOf, printed};
ghost use Rattle.pyr_verify.specs.Summary.{wrapping_sum};

use crate::counting::wrapping_sum;
use pyr_machine::{Loaded, State};
use pyr_num::Outputs;
use std::alloc::{AllocError, Global};

// What a bundle prints in frame 0, by the step machine: that of its tasks run one by one, in
// whatever order.
fn run_serially(alloc: Global, loaded: &Loaded) -> Result<Outputs, AllocError>
    ensures { IfOk result (λ outputs. (order : List ℕ) → IsOrderOf loaded.now.bundle 0 order
        → outputs.lists ≡ printed loaded.now.bundle 0 order) }
{
    loaded.is_good();
    let mut state = State::new(alloc, loaded.bundle(), 0)?;
    state.finish();
    let outputs = state.outputs(alloc)?;
    Ok(outputs)
}

/// Runs a bundle serially in frame 0, and sums up all words that it prints, modulo 2^64.
pub(crate) fn printed_sum(alloc: Global, loaded: &Loaded) -> Result<u64, AllocError>
    ensures { IfOk result (λ total. (order : List ℕ) → IsOrderOf loaded.now.bundle 0 order
        → total ≡ wrapping_sum (printed loaded.now.bundle 0 order)) }
{
    let outputs = run_serially(alloc, loaded)?;
    let total = wrapping_sum(&outputs);
    Ok(total)
}
