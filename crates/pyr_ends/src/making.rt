// The wires of all channels.
ghost use Rattle.std.specs.Prelude.{◌≡◌, ℕ, All, Some, length, slice_get, replicate, IfOk};
ghost use Rattle.pyr_bundle.specs.declared.capacity.Capacity.{Capacity};
ghost use Rattle.pyr_ends.specs.Ends.{idle};
ghost use Rattle.pyr_ends.specs.Wired.{Covers, IsBetween, AreEndsOf};
ghost use Rattle.pyr_ends.specs.declared.ends.Ends.{Ends};

use crate::{Ends, Heads, Tails};
use pyr_bundle::Capacity;
use pyr_wire::{Feed, wire};
use std::alloc::{AllocError, Global};
use std::sync::Wait;

// The ends of so many processors, none of them wired: one for each pair, and there are at most 64
// processors.
fn unwired(alloc: Global, processors: u32) -> Result<Vec<Ends>, AllocError>
    ensures { IfOk result (λ rows. rows.items ≡ replicate processors
        (record { tails = replicate processors idle; heads = replicate processors idle })) }
{
    let mut rows = Vec::with_capacity(alloc, processors as usize)?;
    for _ in 0..processors {
        let tails = Tails::unwired(alloc, processors)?;
        let heads = Heads::unwired(alloc, processors)?;
        rows.push_reserved(Ends { tails, heads });
    }
    Ok(rows)
}

/// The ends of each of so many processors, by its number, with a wire for each channel. Each wire is
/// made for the list that the feed gives for the channel's two processors, and holds at most the
/// channel's capacity. All memory of the wires is taken here.
pub fn wires<F: Feed, R: Wait>(
    rt: &R,
    alloc: Global,
    feed: &F,
    processors: u32,
    channels: &[Capacity],
) -> Result<Vec<Ends>, AllocError>
    requires between { All (IsBetween processors) channels.now }
    requires covers { Covers processors (F.feed feed.now) channels.now }
    ensures count { IfOk result (λ rows. length rows.items ≡ processors) }
    ensures ends { IfOk result (λ rows. (p : ℕ) (e : Ends) → slice_get rows.items p ≡ Some e
        → AreEndsOf processors (F.feed feed.now) channels.now p e) }
{
    let mut rows = unwired(alloc, processors)?;
    // From the last to the first: of two channels between the same processors the first counts, as
    // in the step machine.
    for at in (0..channels.len()).rev() {
        let channel = channels[at];
        let (tail, head) = wire(rt, alloc, feed, channel.from, channel.to, channel.capacity)?;
        rows[channel.from.0 as usize].tails.put(channel.to, tail);
        rows[channel.to.0 as usize].heads.put(channel.from, head);
    }
    Ok(rows)
}
