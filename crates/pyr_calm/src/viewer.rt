// A processor, seen in one pass for a receiver.
ghost use Rattle.std.specs.Prelude.{◌≡◌, ◌==◌, ◌++◌, ◌∷◌, [], count_by, drop, slice_get, OnOk};

use std::alloc::{AllocError, Global};
use std::collections::VecDeque;
use std::marker::Model;

// The stamps of the parcels on their way from one processor to another, the oldest first.
#[derive(Drop)]
struct Way {
    stamps: VecDeque<usize>,
}

impl Model for Way {
    ghost use Rattle.std.specs.Prelude.{ℕ, List};

    ghost Value = { List ℕ };

    ghost view = { λ w. w.stamps.items };
}

impl Way {
    fn new(alloc: Global) -> Way
        ensures { result ≡ [] }
    {
        Way {
            stamps: VecDeque::new(alloc),
        }
    }

    fn push(&mut self, stamp: usize) -> Result<(), AllocError>
        ensures { OnOk result (self.new ≡ self.old ++ stamp ∷ []) }
    {
        self.stamps.push_back(stamp)?;
        Ok(())
    }

    fn pop(&mut self) -> Option<usize>
        ensures front { result ≡ slice_get self.old 0 }
        ensures rest { self.new ≡ drop 1 self.old }
    {
        self.stamps.pop_front()
    }
}

// How many of these takes are from p.
fn takes_from(takes: &[u32], p: u32) -> usize
    ensures { result ≡ count_by (λ s. p == s) takes.now }
{
    takes.iter().filter(|s| p == **s).count()
}

/// What a pass for a receiver keeps of one processor.
#[derive(Drop)]
pub(crate) struct Viewer {
    // of how many of the receiver's takes it has heard
    known: usize,
    // of these, how many are counted, and how many of the counted are takes from it
    counted: usize,
    received: usize,
    // how many parcels it has sent to the receiver
    sent: usize,
    // the greatest length that one of these sends may leave
    most: usize,
    // the stamps of what is on its way from it to each other processor
    ways: Vec<Way>,
}

impl Model for Viewer {
    ghost use Rattle.pyr_calm.specs.Seats.{Seat};

    ghost Value = { Seat };

    ghost view = { λ v. record {
      known = v.known;
      counted = v.counted;
      received = v.received;
      sent = v.sent;
      most = v.most;
      ways = v.ways.items;
    } };
}

impl Viewer {
    ghost use Rattle.std.specs.Prelude.{◌≡◌, ◌^◌, ◌<◌, ◌≤◌, max, drop, length, slice_get, IfOk, OnOk};
    ghost use Rattle.pyr_calm.specs.Seats.{way_at, fresh_seat, stamped, handed_over, sent_once, IsCounted};

    /// A processor at the start of a pass, among so many.
    pub(crate) fn new(alloc: Global, processors: u32) -> Result<Viewer, AllocError>
        ensures { IfOk result (λ v. v ≡ fresh_seat processors) }
    {
        let mut ways = Vec::with_capacity(alloc, processors as usize)?;
        for _ in 0..processors {
            ways.push(Way::new(alloc))?;
        }
        Ok(Viewer {
            known: 0,
            counted: 0,
            received: 0,
            sent: 0,
            most: 0,
            ways,
        })
    }

    /// The greatest length that one of its sends to the receiver may leave.
    pub(crate) fn most(&self) -> usize
        ensures { result ≡ self.now.most }
    {
        self.most
    }

    /// Sends a parcel, which carries what is known here.
    pub(crate) fn send(&mut self, to: usize) -> Result<(), AllocError>
        requires { to < length self.old.ways }
        ensures { OnOk result (self.new ≡ stamped self.old to) }
    {
        let stamp = self.known;
        self.ways[to].push(stamp)
    }

    /// The stamp of the oldest parcel on its way to this processor, which is taken.
    pub(crate) fn hand_over(&mut self, to: usize) -> Option<usize>
        requires { to < length self.old.ways }
        ensures front { result ≡ slice_get (way_at self.old.ways to) 0 }
        ensures rest { self.new ≡ handed_over self.old to }
    {
        self.ways[to].pop()
    }

    /// Counts a send of this processor, p, to the receiver, whose takes so far are from these. Each
    /// take is counted once in a pass.
    pub(crate) fn count_send(&mut self, p: u32, takes: &[u32])
        requires within { self.old.known ≤ length takes.now }
        requires counted { IsCounted p takes.now self.old }
        requires few { self.old.sent < 2 ^ 63 }
        ensures { self.new ≡ sent_once p takes.now self.old }
    {
        self.received += takes_from(&takes[self.counted..self.known], p);
        self.counted = self.known;
        self.sent += 1;
        self.most = self.most.max(self.sent.saturating_sub(self.received));
    }

    /// Hears of so many takes.
    pub(crate) fn hear(&mut self, takes: usize)
        ensures { self.new ≡ record self.old { known = max self.old.known takes } }
    {
        self.known = self.known.max(takes);
    }

    /// Makes the last of so many takes: this is the receiver, which knows of all.
    pub(crate) fn count_take(&mut self, takes: usize)
        ensures { self.new ≡ record self.old { known = takes } }
    {
        self.known = takes;
    }
}
