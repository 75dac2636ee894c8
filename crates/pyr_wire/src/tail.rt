// The end of a wire that sends.
use crate::rule::{Entrance, Progress, Sent};
use crossbeam_channel::Pass;
use pyr_num::Parcel;
use std::marker::Model;
use std::sync::Wait;

/// The end of a wire that sends. Contracts see the list of parcels that the wire was made for, how
/// many of them were sent, and how many parcels the wire holds at most.
#[derive(Drop)]
pub struct Tail {
    pub(crate) channel: Entrance,
    pub(crate) pass: Pass<Parcel, Progress>,
}

impl Model for Tail {
    ghost use Rattle.std.specs.Prelude.{◌≡◌};
    ghost use Rattle.crossbeam_channel.specs.Claims.{view as view_of, IsSeatAt};
    ghost use Rattle.crossbeam_channel.specs.Ends.{sends_on, ruled_capacity};
    ghost use Rattle.pyr_wire.specs.declared.rule.Part.TheVariants.{Sends};
    ghost use Rattle.pyr_wire.specs.End.{End};
    ghost use Rattle.pyr_wire.specs.InOrder.{end_of};

    ghost Value = { End };

    ghost view = { λ t. end_of (view_of t.pass) };

    ghost invariant = { λ t. IsSeatAt (sends_on t.channel) t.pass
        × ((view_of t.pass).part ≡ Sends)
        × (ruled_capacity (sends_on t.channel) ≡ (view_of t.pass).capacity) };
}

impl Tail {
    ghost use Rattle.std.specs.Prelude.{◌≡◌, Some, slice_get};
    ghost use Rattle.pyr_wire.specs.End.{passed_on};

    /// Sends the next parcel of the list. It waits while the wire is full. It takes no memory, and
    /// it can't fail.
    pub fn send<R: Wait>(&mut self, rt: &R, mut parcel: Parcel)
        requires next { slice_get self.old.whole self.old.count ≡ Some parcel }
        ensures sent { self.new ≡ passed_on self.old }
    {
        for _ in rt.forever() {
            match self.channel.send_as::<Sent, R>(rt, &mut self.pass, parcel) {
                Ok(()) => return,
                Err(refused) => parcel = refused.into_inner(),
            }
        }
        unreachable!()
    }
}
