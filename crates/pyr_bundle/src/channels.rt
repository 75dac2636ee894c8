// Laws 10 and 11: the channels are the pairs of processors with a send, and their capacities are
// at most their numbers of sends.
ghost use Rattle.std.specs.Prelude.{◌≡◌, ℕ, ◌+◌, ◌^◌, ◌<◌, ◌≤◌, ◌&&◌, nat_le, All, length, map, slice_get, slice_index, count_by, sum_by, OnOk, IfOk, IfErr};
ghost use Rattle.std.specs.Option.{option_map};
ghost use Rattle.pyr_bundle.specs.Law.{IsKept};
ghost use Rattle.pyr_bundle.specs.Laws.{operands, channels, capacities, is_send_to, is_line_of, pairs_of};
ghost use Rattle.pyr_bundle.specs.Links.{link_of, pair_of};
ghost use Rattle.pyr_bundle.specs.Tables.{IsSendBelow};
ghost use Rattle.pyr_bundle.specs.Faults.{IsBroken};

use crate::{BundleFault, RawBundle, RawChannel, RawInstr};
use pyr_num::Limits;
use sqlite_items::Items;
use std::alloc::{AllocError, Global};

// Two processors, and how many sends there are from the one to the other.
#[derive(Clone, Copy)]
pub(crate) struct Link {
    from: u64,
    to: u64,
    sends: u64,
}

// Counts the sends to each processor.
fn count_sends(counts: &mut [u32], code: &[RawInstr])
    requires below { All (IsSendBelow (length counts.old)) code.now }
    requires few { (q : ℕ) → q < length counts.old
        → slice_index counts.old q + length code.now < 2 ^ 32 }
    ensures { (q : ℕ) → q < length counts.old → slice_index counts.new q
        ≡ slice_index counts.old q + count_by (is_send_to q) code.now }
{
    for instr in code {
        if let Some((to, _)) = instr.sent() {
            counts[to as usize] += 1;
        }
    }
}

// How many sends there are to each processor.
fn send_counts(alloc: Global, processors: usize, code: &[RawInstr]) -> Result<Vec<u32>, AllocError>
    requires below { All (IsSendBelow processors) code.now }
    requires few { length code.now < 2 ^ 32 }
    ensures full { IfOk result (λ counts. length counts.items ≡ processors) }
    ensures counts { IfOk result (λ counts. (q : ℕ) → q < processors
        → slice_index counts.items q ≡ count_by (is_send_to q) code.now) }
{
    let mut counts = vec![in alloc; 0; processors]?;
    count_sends(&mut counts, code);
    Ok(counts)
}

/// The pairs of processors with at least one send, by rising pair.
pub(crate) fn links_of(alloc: Global, raw: &RawBundle) -> Result<Vec<Link>, AllocError>
    requires few { sum_by length raw.now.code ≤ Limits.INSTRUCTIONS }
    requires operands { IsKept (operands raw.now) }
    ensures { IfOk result
        (λ links. links.items ≡ map (link_of raw.now.code) (pairs_of raw.now.code)) }
{
    let mut links = Vec::new(alloc);
    for (from, code) in raw.code.as_slice().iter().enumerate() {
        let counts = send_counts(alloc, raw.code.len(), code.as_slice())?;
        for (to, count) in counts.iter().enumerate() {
            if *count > 0 {
                links.push(Link {
                    from: from as u64,
                    to: to as u64,
                    sends: u64::from(*count),
                })?;
            }
        }
    }
    Ok(links)
}

// The channel line of this index.
fn line_at(lines: &[RawChannel], i: usize) -> Option<RawChannel>
    ensures { result ≡ slice_get lines.now i }
{
    lines.get(i).copied()
}

// The link of this index.
fn link_at(links: &[Link], i: usize) -> Option<Link>
    ensures { result ≡ slice_get links.now i }
{
    links.get(i).copied()
}

// Whether the line is that of the link.
fn is_line_of(channel: Option<RawChannel>, link: Option<Link>) -> bool
    ensures { result ≡ is_line_of channel (option_map pair_of link) }
{
    match (channel, link) {
        (Some(channel), Some(link)) => channel.from == link.from && channel.to == link.to,
        (None, None) => true,
        (Some(_), None) | (None, Some(_)) => false,
    }
}

pub(crate) fn check_channels(raw: &RawBundle, links: &[Link]) -> Result<(), BundleFault>
    requires { links.now ≡ map (link_of raw.now.code) (pairs_of raw.now.code) }
    ensures ok { OnOk result (IsKept (channels raw.now)) }
    ensures fault { IfErr result (IsBroken 10 (channels raw.now)) }
{
    let lines = raw.channels.as_slice();
    for i in 0..lines.len().max(links.len()) {
        if !is_line_of(line_at(lines, i), link_at(links, i)) {
            return Err(BundleFault::law(10, i, 0));
        }
    }
    Ok(())
}

impl Link {
    // Whether a channel of the link may have this capacity.
    fn allows(self, capacity: u64) -> bool
        ensures { result ≡ (nat_le 1 capacity && nat_le capacity self.sends) }
    {
        1 <= capacity && capacity <= self.sends
    }
}

pub(crate) fn check_capacities(raw: &RawBundle, links: &[Link]) -> Result<(), BundleFault>
    requires links { links.now ≡ map (link_of raw.now.code) (pairs_of raw.now.code) }
    requires channels { IsKept (channels raw.now) }
    ensures ok { OnOk result (IsKept (capacities raw.now)) }
    ensures fault { IfErr result (IsBroken 11 (capacities raw.now)) }
{
    for (i, channel) in raw.channels.as_slice().iter().enumerate() {
        if !links[i].allows(channel.capacity) {
            return Err(BundleFault::law(11, i, 0));
        }
    }
    Ok(())
}
