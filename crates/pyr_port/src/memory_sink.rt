// A sink in memory, which takes and fails by a plan.
ghost use Rattle.std.specs.Prelude.{◌≡◌, ◌↔◌, ◌-◌, ◌<◌, ◌||◌, min, length, Some, IsTrue, IfOk, IsErr};
ghost use Rattle.std.specs.Prelude.{is_some};
ghost use Rattle.std.specs.Io.{WritesAtMost};
ghost use Rattle.std.specs.Io.KnownBytes.{WriteAppends};
ghost use Rattle.pyr_port.specs.Causes.{HasCause};
ghost use Rattle.pyr_port.specs.Plans.{is_planned, next_call, faults_of, fails_at};
ghost use Rattle.pyr_port.specs.Memory.{empty_sink, after_give};

use crate::plan::next_call;
use crate::{CallPlan, Failed, Sink};
use std::alloc::{AllocError, Global};
use std::marker::Model;

/// A sink with room for so many bytes in memory. Contracts see what was written, the room, the plan,
/// how many calls were made, and the number of the call that used up the room. Its faults are the
/// calls so far that were to fail or came after that one; a counter of calls at its last value stands
/// for as many faults.
#[derive(Drop)]
pub struct MemorySink {
    bytes: Vec<u8>,
    room: usize,
    plan: CallPlan,
    calls: u64,
    used_up: Option<u64>,
}

impl Model for MemorySink {
    ghost use Rattle.pyr_port.specs.Memory.{SinkState};

    ghost Value = { SinkState };

    ghost use Rattle.pyr_port.specs.MemoryInside.{sink_in, IsReserved};

    ghost view = { sink_in };

    ghost invariant = { IsReserved };
}

impl MemorySink {
    /// An empty sink, no call of which was made yet. It takes its room at once.
    pub fn new(alloc: Global, room: usize, plan: CallPlan) -> Result<MemorySink, AllocError>
        ensures { IfOk result (λ sink. sink ≡ empty_sink room plan.most plan.fail.items) }
    {
        Ok(MemorySink {
            bytes: Vec::with_capacity(alloc, room)?,
            room,
            plan,
            calls: 0,
            used_up: if room == 0 { Some(0) } else { None },
        })
    }

    /// What was written.
    pub fn bytes(&self) -> &[u8]
        ensures { result.now ≡ self.now.written }
    {
        &self.bytes
    }
}

impl Sink for MemorySink {
    ghost written = { λ s. Some s.written };

    ghost faults = { λ s. faults_of (fails_at s.fail s.used_up) s.calls };

    fn give(&mut self, piece: &[u8]) -> Result<usize, Failed>
        ensures bound { WritesAtMost result piece.now }
        ensures some { IfOk result (λ count. 0 < length piece.now → 0 < count) }
        ensures bytes { WriteAppends (Some self.old.written) (Some self.new.written) result piece.now }
        ensures cause { HasCause (faults_of (fails_at self.old.fail self.old.used_up) self.old.calls)
            (faults_of (fails_at self.new.fail self.new.used_up) self.new.calls) result }

        // A call fails exactly where the plan says so or no room is left. Any other takes what fits.
        ensures fails { IsErr result
            ↔ IsTrue (is_planned self.old.fail (next_call self.old.calls) || is_some self.old.used_up) }
        ensures count { IfOk result (λ count. count
            ≡ min self.old.most (min (length piece.now) (self.old.room - length self.old.written))) }
        ensures state { self.new ≡ after_give self.old result piece.now }
    {
        self.calls = next_call(self.calls);
        if self.plan.fails(self.calls) || self.used_up.is_some() {
            return Err(Failed);
        }
        let room = self.room - self.bytes.len();
        let count = self.plan.most.min(room).min(piece.len());
        let Ok(()) = self.bytes.extend_from_slice(&piece[..count]) else {
            unreachable!()
        };
        if count == room {
            self.used_up = Some(self.calls);
        }
        Ok(count)
    }
}
