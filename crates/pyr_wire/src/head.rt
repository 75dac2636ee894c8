// The end of a wire that receives.
use crate::rule::{Exit, Got, Progress};
use crossbeam_channel::Pass;
use pyr_num::Parcel;
use std::marker::Model;
use std::sync::Wait;

/// The end of a wire that receives. Contracts see the list of parcels that the wire was made for,
/// how many of them were received, and how many parcels the wire holds at most.
#[derive(Drop)]
pub struct Head {
    pub(crate) channel: Exit,
    pub(crate) pass: Pass<Parcel, Progress>,
}

impl Model for Head {
    ghost use Rattle.std.specs.Prelude.{◌≡◌};
    ghost use Rattle.crossbeam_channel.specs.Claims.{view as view_of, IsSeatAt};
    ghost use Rattle.crossbeam_channel.specs.Ends.{receives_on, ruled_capacity};
    ghost use Rattle.pyr_wire.specs.declared.rule.Part.TheVariants.{Receives};
    ghost use Rattle.pyr_wire.specs.End.{End};
    ghost use Rattle.pyr_wire.specs.InOrder.{end_of};

    ghost Value = { End };

    ghost view = { λ h. end_of (view_of h.pass) };

    ghost invariant = { λ h. IsSeatAt (receives_on h.channel) h.pass
        × ((view_of h.pass).part ≡ Receives)
        × (ruled_capacity (receives_on h.channel) ≡ (view_of h.pass).capacity) };
}

impl Head {
    ghost use Rattle.std.specs.Prelude.{◌≡◌, ◌<◌, Some, length, slice_get};
    ghost use Rattle.pyr_wire.specs.End.{passed_on};

    /// Receives the next parcel of the list. It waits while the wire is empty. It takes no memory,
    /// and it can't fail.
    pub fn receive<R: Wait>(&mut self, rt: &R) -> Parcel
        requires more { self.old.count < length self.old.whole }
        ensures parcel { slice_get self.old.whole self.old.count ≡ Some result }
        ensures received { self.new ≡ passed_on self.old }
    {
        for _ in rt.forever() {
            if let Ok(parcel) = self.channel.recv_as::<Got, R>(rt, &mut self.pass) {
                return parcel;
            }
        }
        unreachable!()
    }
}
