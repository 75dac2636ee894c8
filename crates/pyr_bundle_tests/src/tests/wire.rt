ghost use Rattle.std.specs.Prelude.{◌≡◌, ◌∷◌, [], IfOk};
ghost use Rattle.pyr_wire.specs.End.{end_at};
ghost use Rattle.pyr_bundle_tests.specs.Parcels.{parcel_of, two};

use crate::tests::parcels::{is_parcel, parcel};
use pyr_num::{Parcel, ProcId};
use pyr_wire::{Feed, Head, Tail, wire};
use std::alloc::{AllocError, Global};
use std::sync::Wait;
use std::test::*;
use std::thread;
use std::thread::Threads;

// Two parcels of one word each, between any two processors.
#[derive(Clone, Copy)]
struct Two(u64, u64);

impl Feed for Two {
    ghost use Rattle.pyr_bundle_tests.specs.Parcels.{two};

    ghost feed = { λ s p q. two s.0 s.1 };
}

fn send_both<R: Wait>(rt: &R, mut tail: Tail, first: Parcel, second: Parcel, a: u64, b: u64) -> Tail
    requires tail { tail ≡ end_at (two a b) 0 1 }
    requires first { first ≡ parcel_of 0 a }
    requires second { second ≡ parcel_of 1 b }
    ensures { result ≡ end_at (two a b) 2 1 }
{
    tail.send(rt, first);
    tail.send(rt, second);
    tail
}

fn receive_both<R: Wait>(rt: &R, mut head: Head, a: u64, b: u64) -> (Parcel, Parcel)
    requires head { head ≡ end_at (two a b) 0 1 }
    ensures { (result.0 ≡ parcel_of 0 a) × (result.1 ≡ parcel_of 1 b) }
{
    let first = head.receive(rt);
    let second = head.receive(rt);
    (first, second)
}

// Two threads, one for each end of a wire that holds one parcel: each end, and the parcels, move to
// the thread that uses them.
fn across<R: Threads + Wait + Sync>(
    rt: &R,
    alloc: Global,
    a: u64,
    b: u64,
) -> Result<(Parcel, Parcel), AllocError>
    ensures { IfOk result (λ r. (r.0 ≡ parcel_of 0 a) × (r.1 ≡ parcel_of 1 b)) }
{
    let (tail, head) = wire(rt, alloc, &Two(a, b), ProcId(0), ProcId(1), 1)?;
    let first = parcel(alloc, 0, a)?;
    let second = parcel(alloc, 1, b)?;
    let (_tail, got) = thread::join(
        rt,
        move || send_both(rt, tail, first, second, a, b),
        move || -> (Parcel, Parcel)
            requires { head ≡ end_at (two a b) 0 1 }
            ensures { (result.0 ≡ parcel_of 0 a) × (result.1 ≡ parcel_of 1 b) }
        { receive_both(rt, head, a, b) },
    );
    Ok(got)
}

#[test]
fn two_parcels_cross_in_order(rt: HostRuntime) -> Result<(), Fail> {
    let (first, second) = across(&rt, rt.alloc(), 7, 9)?;
    assert!(rt; is_parcel(&first, 0, 7));
    assert!(rt; is_parcel(&second, 1, 9));
    Ok(())
}
