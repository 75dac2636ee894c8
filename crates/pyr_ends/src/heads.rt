// The ends that receive, by processor.
ghost use Rattle.std.specs.Prelude.{◌≡◌, ◌<◌, Some, length, slice_get, slice_set, replicate, IfOk};
ghost use Rattle.pyr_ends.specs.Ends.{idle, end_for};
ghost use Rattle.pyr_wire.specs.End.{passed_on};

use pyr_num::{Parcel, ProcId};
use pyr_wire::Head;
use std::alloc::{AllocError, Global};
use std::marker::Model;
use std::sync::Wait;

/// The ends of a processor that receive, one for each processor at the other end. Contracts see the
/// list of the ends by the number of that processor: where there is no wire, the end is idle.
#[derive(Drop)]
pub struct Heads {
    ends: Vec<Option<Head>>,
}

impl Model for Heads {
    ghost use Rattle.std.specs.Prelude.{List, map};
    ghost use Rattle.pyr_ends.specs.Ends.{end_or_idle};
    ghost use Rattle.pyr_wire.specs.End.{End};

    ghost Value = { List End };

    ghost view = { λ t. map end_or_idle t.ends.items };
}

impl Heads {
    // No wire to any of so many processors.
    pub(crate) fn unwired(alloc: Global, processors: u32) -> Result<Heads, AllocError>
        ensures { IfOk result (λ row. row ≡ replicate processors idle) }
    {
        let mut ends = Vec::with_capacity(alloc, processors as usize)?;
        for _ in 0..processors {
            ends.push_reserved(None);
        }
        Ok(Heads { ends })
    }

    // Puts the end of the wire from a processor.
    pub(crate) fn put(&mut self, peer: ProcId, head: Head)
        requires { peer.0 < length self.old }
        ensures { self.new ≡ slice_set self.old peer.0 head }
    {
        self.ends[peer.0 as usize] = Some(head);
    }

    /// Receives the next parcel of the list that comes from a processor. It waits while the wire is
    /// empty. It takes no memory, and it can't fail.
    pub fn receive<R: Wait>(&mut self, rt: &R, from: ProcId) -> Parcel
        requires more { (end_for self.old from.0).count < length (end_for self.old from.0).whole }
        ensures parcel { slice_get (end_for self.old from.0).whole (end_for self.old from.0).count
            ≡ Some result }
        ensures received { self.new
            ≡ slice_set self.old from.0 (passed_on (end_for self.old from.0)) }
    {
        if let Some(head) = &mut self.ends[from.0 as usize] {
            head.receive(rt)
        } else {
            unreachable!()
        }
    }
}
