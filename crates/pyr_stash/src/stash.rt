// Parcels that came before they were asked for.
ghost use Rattle.std.specs.Prelude.{◌≡◌, position};
ghost use Rattle.pyr_stash.specs.Held.{has_tag};

use pyr_num::{DatumId, Parcel};
use std::alloc::{AllocError, Global};
use std::marker::Model;

/// Parcels in the order in which they were put, with room for a fixed number of them. Contracts see
/// the list of the parcels, the oldest first, and how many more there is room for.
#[derive(Drop)]
pub struct Stash {
    parcels: Vec<Parcel>,
    capacity: u32,
}

impl Model for Stash {
    ghost use Rattle.std.specs.Prelude.{◌≤◌, ◌-◌, length, vec_capacity};
    ghost use Rattle.pyr_stash.specs.Held.{Held, held};

    ghost Value = { Held };

    ghost view = { λ s. held s.parcels.items (s.capacity - length s.parcels.items) };

    ghost invariant = { λ s. (length s.parcels.items ≤ s.capacity)
        × (s.capacity ≤ vec_capacity s.parcels) };
}

// The index of the first parcel of a datum.
fn index_of(parcels: &[Parcel], tag: DatumId) -> Option<usize>
    ensures { result ≡ position (has_tag tag.0) parcels.now }
{
    parcels.iter().position(|parcel| parcel.tag == tag)
}

impl Stash {
    ghost use Rattle.std.specs.Prelude.{◌≡◌, ◌+◌, ◌<◌, ◌++◌, ◌∷◌, [], false, is_some};
    ghost use Rattle.std.specs.Prelude.{IfNone, IfOk, IfSome, MatchOption};
    ghost use Rattle.pyr_machine.specs.Machine.{holds, without};
    ghost use Rattle.pyr_machine.specs.Parcels.{parcel_tag};
    ghost use Rattle.pyr_stash.specs.Held.{held, parcel_in};

    /// An empty stash with room for so many parcels. All its memory is taken here.
    pub fn new(alloc: Global, capacity: u32) -> Result<Stash, AllocError>
        ensures { IfOk result (λ s. s ≡ held [] capacity) }
    {
        Ok(Stash {
            parcels: Vec::with_capacity(alloc, capacity as usize)?,
            capacity,
        })
    }

    /// Appends a parcel. There must be room, and no parcel of the same datum. It takes no memory.
    pub fn put(&mut self, parcel: Parcel)
        requires room { 0 < self.old.spare }
        requires absent { holds parcel_tag parcel.tag.0 self.old.parcels ≡ false }
        ensures parcels { self.new.parcels ≡ self.old.parcels ++ parcel ∷ [] }
        ensures spare { self.new.spare + 1 ≡ self.old.spare }
    {
        self.parcels.push_reserved(parcel);
    }

    /// Takes the parcel of a datum out; None exactly where there is none. The others keep their
    /// order. The time is that of a search through the stash. It takes no memory.
    pub fn take(&mut self, tag: DatumId) -> Option<Parcel>
        ensures found { is_some result ≡ holds parcel_tag tag.0 self.old.parcels }
        ensures parcel { IfSome result (λ x. x ≡ parcel_in tag self.old.parcels) }
        ensures others { self.new.parcels ≡ without parcel_tag tag.0 self.old.parcels }
        ensures spare { MatchOption result (self.new.spare ≡ self.old.spare)
            (λ _. self.new.spare ≡ self.old.spare + 1) }
        ensures same { IfNone result (self.new ≡ self.old) }
    {
        let at = index_of(&self.parcels, tag)?;
        Some(self.parcels.remove(at))
    }
}
