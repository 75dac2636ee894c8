ghost use Rattle.std.specs.Prelude.{◌≡◌, ◌<◌, ◌∷◌, [], Some, length, slice_get, IfOk, IfSome};
ghost use Rattle.pyr_ends.specs.Ends.{end_for};
ghost use Rattle.pyr_bundle_tests.specs.Parcels.{parcel_of, swapped};
ghost use Rattle.pyr_wire.specs.End.{end_at};

use crate::tests::parcels::{is_parcel, parcel};
use pyr_bundle::Capacity;
use pyr_ends::{Ends, wires};
use pyr_num::{Parcel, ProcId};
use pyr_wire::Feed;
use std::alloc::{AllocError, Global};
use std::sync::Wait;
use std::test::*;
use std::thread;
use std::thread::Threads;

// One word from processor 0 to 1, and one back.
#[derive(Clone, Copy)]
struct Swapped(u64, u64);

impl Feed for Swapped {
    ghost use Rattle.pyr_bundle_tests.specs.Parcels.{swapped};

    ghost feed = { λ s. swapped s.0 s.1 };
}

// The first two of these.
fn two_of(rows: Vec<Ends>) -> Option<(Ends, Ends)>
    ensures { IfSome result (λ r. (slice_get rows.items 0 ≡ Some r.0)
        × (slice_get rows.items 1 ≡ Some r.1)) }
{
    let mut rows = rows.into_iter();
    let first = rows.next()?;
    let second = rows.next()?;
    Some((first, second))
}

// The ends of processors 0 and 1, with a wire each way.
fn wired<R: Wait>(rt: &R, alloc: Global, a: u64, b: u64) -> Result<Option<(Ends, Ends)>, AllocError>
    ensures first { IfOk result (λ r. IfSome r (λ e.
        (end_for e.0.tails 1 ≡ end_at (parcel_of 0 a ∷ []) 0 1)
        × (end_for e.0.heads 1 ≡ end_at (parcel_of 1 b ∷ []) 0 2))) }
    ensures second { IfOk result (λ r. IfSome r (λ e.
        (end_for e.1.tails 0 ≡ end_at (parcel_of 1 b ∷ []) 0 2)
        × (end_for e.1.heads 0 ≡ end_at (parcel_of 0 a ∷ []) 0 1))) }
{
    let there = Capacity {
        from: ProcId(0),
        to: ProcId(1),
        capacity: 1,
    };
    let back = Capacity {
        from: ProcId(1),
        to: ProcId(0),
        capacity: 2,
    };
    let rows = wires(rt, alloc, &Swapped(a, b), 2, &[there, back])?;
    Ok(two_of(rows))
}

// Sends a parcel to a processor, and receives one from it.
fn swap_with<R: Wait>(rt: &R, mut ends: Ends, peer: ProcId, parcel: Parcel) -> Parcel
    requires next { slice_get (end_for ends.tails peer.0).whole (end_for ends.tails peer.0).count
        ≡ Some parcel }
    requires more { (end_for ends.heads peer.0).count < length (end_for ends.heads peer.0).whole }
    ensures { slice_get (end_for ends.heads peer.0).whole (end_for ends.heads peer.0).count
        ≡ Some result }
{
    ends.tails.send(rt, peer, parcel);
    ends.heads.receive(rt, peer)
}

// A thread for each of two processors: all ends of a processor move to its thread.
fn across<R: Threads + Wait + Sync>(
    rt: &R,
    alloc: Global,
    a: u64,
    b: u64,
) -> Result<Option<(Parcel, Parcel)>, AllocError>
    ensures { IfOk result (λ r. IfSome r
        (λ got. (got.0 ≡ parcel_of 1 b) × (got.1 ≡ parcel_of 0 a))) }
{
    let first = parcel(alloc, 0, a)?;
    let second = parcel(alloc, 1, b)?;
    let Some((zero, one)) = wired(rt, alloc, a, b)? else {
        return Ok(None);
    };
    let got = thread::join(
        rt,
        move || -> Parcel
            requires next { slice_get (end_for zero.tails 1).whole (end_for zero.tails 1).count
                ≡ Some first }
            requires more { (end_for zero.heads 1).count < length (end_for zero.heads 1).whole }
            ensures { slice_get (end_for zero.heads 1).whole (end_for zero.heads 1).count
                ≡ Some result }
        { swap_with(rt, zero, ProcId(1), first) },
        move || -> Parcel
            requires next { slice_get (end_for one.tails 0).whole (end_for one.tails 0).count
                ≡ Some second }
            requires more { (end_for one.heads 0).count < length (end_for one.heads 0).whole }
            ensures { slice_get (end_for one.heads 0).whole (end_for one.heads 0).count
                ≡ Some result }
        { swap_with(rt, one, ProcId(0), second) },
    );
    Ok(Some(got))
}

#[test]
fn parcels_cross_both_ways(rt: HostRuntime) -> Result<(), Fail> {
    let (at_zero, at_one) = across(&rt, rt.alloc(), 7, 9)?.ok_or("two processors")?;
    assert!(rt; is_parcel(&at_zero, 1, 9));
    assert!(rt; is_parcel(&at_one, 0, 7));
    Ok(())
}
