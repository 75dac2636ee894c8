// The sends and takes of a complete run.
ghost use Rattle.std.specs.Prelude.{IfOk, IfSome, IfNone};
ghost use Rattle.pyr_net.specs.Net.{IsEnabled};
ghost use Rattle.pyr_net.specs.Run.{HasNoStep};
ghost use Rattle.pyr_calm.specs.Course.{IsCourse};

use crate::passage::{Passage, note};
use pyr_bundle::Bundle;
use pyr_machine::Tags;
use pyr_net::Net;
use std::alloc::{AllocError, Global};

// The first actor that can make a step, from `from` on and around. So one that goes on stepping is
// found at once.
fn next_enabled<N: Net>(net: &N, from: u32) -> Option<u32>
    ensures some { IfSome result (IsEnabled (N.rules net.now) (N.world net.now)) }
    ensures none { IfNone result (HasNoStep (N.rules net.now) (N.world net.now)) }
{
    for p in from..net.actors() {
        if net.enabled(p) {
            return Some(p);
        }
    }
    for p in 0..from.min(net.actors()) {
        if net.enabled(p) {
            return Some(p);
        }
    }
    None
}

/// The passages of a run of the tag machine from its start to a state without a step.
pub(crate) fn course(alloc: Global, bundle: &Bundle) -> Result<Vec<Passage>, AllocError>
    ensures { IfOk result (λ passages. IsCourse bundle.now passages.items) }
{
    bundle.well_formed();
    let mut tags = Tags::new(alloc, bundle)?;
    let mut passages = Vec::new(alloc);
    let mut last = 0;
    'steps: while let Some(p) = next_enabled(&tags, last) {
        note(&mut passages, p, tags.action(p))?;
        tags.step(p);
        last = p;
    }
    Ok(passages)
}
