// The calm capacities of a bundle.
ghost use Rattle.std.specs.Prelude.{◌≡◌, ℕ, ◌<◌, ◌≤◌, length, slice_index, IfOk};
ghost use Rattle.pyr_bundle.specs.Parts.{channel_at, processor_count};
ghost use Rattle.pyr_machine.specs.Good.{IsGood};
ghost use Rattle.pyr_machine.specs.Counts.{step_count};
ghost use Rattle.pyr_calm.specs.Capacities.{AreCalm, AreFine, IsCalmed, HasPairs, with_channels};
ghost use Rattle.pyr_calm.specs.Course.{AreAmong};
ghost use Rattle.pyr_calm.specs.Seats.{AreTold, way_at};

use crate::course::course;
use crate::passage::Passage;
use crate::watching::most_waiting;
use pyr_bundle::{Bundle, Capacity};
use sqlite_items::Items;
use std::alloc::{AllocError, Global};

// For each receiver, and each sender to it, the greatest length that the passages tell.
fn lengths(
    alloc: Global,
    processors: u32,
    passages: &[Passage],
) -> Result<Vec<Items<usize>>, AllocError>
    requires { AreAmong processors passages.now }
    ensures { IfOk result (λ v. AreTold processors passages.now processors v.items) }
{
    let mut rows = Vec::with_capacity(alloc, processors as usize)?;
    for q in 0..processors {
        rows.push(Items::from_vec(most_waiting(alloc, processors, q, passages)?))?;
    }
    Ok(rows)
}

// The length that is told of the channel of these processors.
fn length_told(rows: &[Items<usize>], from: u32, to: u32) -> usize
    requires to { to < length rows.now }
    requires from { from < length (way_at rows.now to) }
    ensures { result ≡ slice_index (way_at rows.now to) from }
{
    rows[to as usize].as_slice()[from as usize]
}

/// The calm capacities of a good bundle: its channels in their order, each with the greatest number
/// of parcels that it holds in any interleaving in which no send waits for room.
///
/// One run tells them, in whatever order its steps are made. Before a send some of the receiver's
/// takes from this channel have to come in every run: those of which the sender has heard, by its own
/// takes or through others (a clock: Lamport, 1978). All other parcels that were sent may still be on
/// their way. So the run is made once, and its sends and takes are gone over once for each receiver.
///
/// The error says that memory ran out.
pub fn calm(alloc: Global, bundle: &Bundle) -> Result<Vec<Capacity>, AllocError>
    requires good { IsGood bundle.now (step_count bundle.now) }
    ensures calm { IfOk result (λ lines. AreCalm bundle.now lines.items) }
    ensures fine { IfOk result (λ lines. AreFine bundle.now lines.items) }
{
    bundle.is_bundle();
    bundle.well_formed();
    let passages = course(alloc, bundle)?;
    let rows = lengths(alloc, bundle.processors(), &passages)?;
    let mut lines = Vec::with_capacity(alloc, bundle.channels().len())?;
    for channel in bundle.channels() {
        let most = length_told(&rows, channel.from.0, channel.to.0);
        lines.push(Capacity {
            capacity: most as u32,
            ..*channel
        })?;
    }
    Ok(lines)
}

// The bundle with other capacities.
fn with_capacities(mut bundle: Bundle, lines: &[Capacity]) -> Bundle
    requires pairs { HasPairs bundle lines.now }
    requires fine { AreFine bundle lines.now }
    ensures { result ≡ with_channels bundle lines.now }
{
    bundle.well_formed();
    for (i, line) in lines.iter().enumerate() {
        bundle.set_capacity(i as u32, line.capacity);
    }
    bundle
}

/// The bundle with its calm capacities: it is good, no send ever waits, and no channel holds fewer
/// without a send that waits in some interleaving.
///
/// The error says that memory ran out.
pub fn calmed(alloc: Global, bundle: Bundle) -> Result<Bundle, AllocError>
    requires good { IsGood bundle (step_count bundle) }
    ensures { IfOk result (IsCalmed bundle) }
{
    bundle.is_bundle();
    let lines = calm(alloc, &bundle)?;
    Ok(with_capacities(bundle, &lines))
}
