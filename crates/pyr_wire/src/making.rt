// Making a wire.
ghost use Rattle.std.specs.Prelude.{◌≡◌, ◌<◌, IfOk};
ghost use Rattle.crossbeam_channel.specs.Claims.{view, IsSeatAt};
ghost use Rattle.crossbeam_channel.specs.Ends.{sends_on};
ghost use Rattle.pyr_wire.specs.End.{end_at};
ghost use Rattle.pyr_wire.specs.InOrder.{progress, unsplit};
ghost use Rattle.pyr_wire.specs.declared.rule.Part.TheVariants.{Sends, Receives};

use crate::rule::{Cut, Entrance, InOrder, Picked, Progress};
use crate::{Feed, Head, Tail};
use crossbeam_channel::{Pass, bounded_with};
use pyr_num::{Parcel, ProcId};
use std::alloc::{AllocError, Global};
use std::marker::Brand;
use std::sync::Wait;

// Splits the first pass, for the list and the capacity that this call picks.
fn cut_for<K: Picked, F: Feed>(
    channel: &Entrance,
    pass: &mut Pass<Parcel, Progress>,
    _feed: &F,
    _from: ProcId,
    _to: ProcId,
    _capacity: u32,
) -> Pass<Parcel, Progress>
    requires whole { K.whole ≡ F.feed _feed.now _from _to }
    requires capacity { K.capacity ≡ _capacity }
    requires seat { IsSeatAt (sends_on channel.now) pass.old }
    requires unsplit { view pass.old ≡ unsplit }
    ensures seats { IsSeatAt (sends_on channel.now) pass.new
        × IsSeatAt (sends_on channel.now) result }
    ensures sends { view pass.new ≡ progress Sends (F.feed _feed.now _from _to) 0 _capacity }
    ensures receives { view result ≡ progress Receives (F.feed _feed.now _from _to) 0 _capacity }
{
    channel.another::<Cut<K>>(pass)
}

/// The two ends of a new wire. It carries the list that the feed gives for these processors, and
/// holds at most so many parcels, at least 1. All its memory is taken here. The ends don't keep the
/// feed: the list exists in contracts alone.
pub fn wire<F: Feed, R: Wait>(
    _rt: &R,
    alloc: Global,
    feed: &F,
    from: ProcId,
    to: ProcId,
    capacity: u32,
) -> Result<(Tail, Head), AllocError>
    requires some { 0 < capacity }
    ensures tail { IfOk result (λ ends. ends.0 ≡ end_at (F.feed feed.now from to) 0 capacity) }
    ensures head { IfOk result (λ ends. ends.1 ≡ end_at (F.feed feed.now from to) 0 capacity) }
{
    let (entrance, exit, mut sends) = bounded_with::<Parcel, Progress, InOrder, Global>(
        alloc,
        capacity as usize,
    )?;
    let receives = cut_for::<Brand, F>(&entrance, &mut sends, feed, from, to, capacity);
    Ok((
        Tail {
            channel: entrance,
            pass: sends,
        },
        Head {
            channel: exit,
            pass: receives,
        },
    ))
}
