// The ends that send, by processor.
ghost use Rattle.std.specs.Prelude.{◌≡◌, ◌<◌, Some, length, slice_get, slice_set, replicate, IfOk};
ghost use Rattle.pyr_ends.specs.Ends.{idle, end_for};
ghost use Rattle.pyr_wire.specs.End.{passed_on};

use pyr_num::{Parcel, ProcId};
use pyr_wire::Tail;
use std::alloc::{AllocError, Global};
use std::marker::Model;
use std::sync::Wait;

/// The ends of a processor that send, one for each processor at the other end. Contracts see the
/// list of the ends by the number of that processor: where there is no wire, the end is idle.
#[derive(Drop)]
pub struct Tails {
    ends: Vec<Option<Tail>>,
}

impl Model for Tails {
    ghost use Rattle.std.specs.Prelude.{List, map};
    ghost use Rattle.pyr_ends.specs.Ends.{end_or_idle};
    ghost use Rattle.pyr_wire.specs.End.{End};

    ghost Value = { List End };

    ghost view = { λ t. map end_or_idle t.ends.items };
}

impl Tails {
    // No wire to any of so many processors.
    pub(crate) fn unwired(alloc: Global, processors: u32) -> Result<Tails, AllocError>
        ensures { IfOk result (λ row. row ≡ replicate processors idle) }
    {
        let mut ends = Vec::with_capacity(alloc, processors as usize)?;
        for _ in 0..processors {
            ends.push_reserved(None);
        }
        Ok(Tails { ends })
    }

    // Puts the end of the wire to a processor.
    pub(crate) fn put(&mut self, peer: ProcId, tail: Tail)
        requires { peer.0 < length self.old }
        ensures { self.new ≡ slice_set self.old peer.0 tail }
    {
        self.ends[peer.0 as usize] = Some(tail);
    }

    /// Sends the next parcel of the list that goes to a processor. It waits while the wire is full.
    /// It takes no memory, and it can't fail.
    pub fn send<R: Wait>(&mut self, rt: &R, to: ProcId, parcel: Parcel)
        requires next { slice_get (end_for self.old to.0).whole (end_for self.old to.0).count
            ≡ Some parcel }
        ensures sent { self.new ≡ slice_set self.old to.0 (passed_on (end_for self.old to.0)) }
    {
        if let Some(tail) = &mut self.ends[to.0 as usize] {
            tail.send(rt, parcel);
        } else {
            unreachable!()
        }
    }
}
