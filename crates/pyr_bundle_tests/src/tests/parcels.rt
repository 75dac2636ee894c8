// What the tests send.
ghost use Rattle.std.specs.Prelude.{◌≡◌, IfOk};
ghost use Rattle.pyr_bundle_tests.specs.Parcels.{parcel_of};

use pyr_num::{DatumId, Parcel, Words};
use std::alloc::{AllocError, Global};

// A parcel of one word.
pub(crate) fn parcel(alloc: Global, tag: u32, word: u64) -> Result<Parcel, AllocError>
    ensures { IfOk result (λ p. p ≡ parcel_of tag word) }
{
    Ok(Parcel {
        tag: DatumId(tag),
        words: Words::from_slice(alloc, &[word])?,
    })
}

// Whether a parcel is this.
pub(crate) fn is_parcel(parcel: &Parcel, tag: u32, word: u64) -> bool {
    parcel.tag == DatumId(tag) && parcel.words.as_slice() == [word].as_slice()
}
