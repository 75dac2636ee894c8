use crate::tests::parcels::parcel;
use pyr_num::{DatumId, Parcel};
use pyr_stash::Stash;
use std::alloc::{AllocError, Global};

// The first word of a parcel.
fn word_of(parcel: Option<Parcel>) -> Option<u64> {
    parcel?.words.get(0).copied()
}

// Two parcels are put, of the data 4 and 1, and taken out by datum 1, 1 and 4.
fn taken(alloc: Global) -> Result<[Option<u64>; 3], AllocError> {
    let mut stash = Stash::new(alloc, 2)?;
    let first = parcel(alloc, 4, 40)?;
    let second = parcel(alloc, 1, 10)?;
    stash.put(first);
    stash.put(second);
    let one = stash.take(DatumId(1));
    let again = stash.take(DatumId(1));
    let four = stash.take(DatumId(4));
    Ok([word_of(one), word_of(again), word_of(four)])
}

#[test]
fn parcels_are_taken_by_datum(rt: HostRuntime) {
    assert!(rt; taken(rt.alloc()) == Ok([Some(10), None, Some(40)]));
}
