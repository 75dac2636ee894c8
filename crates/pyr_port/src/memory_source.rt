// A source in memory, which gives and fails by a plan.
ghost use Rattle.std.specs.Prelude.{◌≡◌, ◌↔◌, ◌≤◌, min, length, Some, IsTrue, IfOk, IsErr};
ghost use Rattle.std.specs.Io.{ReadsAtMost};
ghost use Rattle.std.specs.Io.KnownBytes.{ReadConsumes};
ghost use Rattle.pyr_port.specs.Causes.{HasCause};
ghost use Rattle.pyr_port.specs.Plans.{is_planned, next_call, faults_of};
ghost use Rattle.pyr_port.specs.Memory.{unread_source, after_take};

use crate::plan::next_call;
use crate::{CallPlan, Failed, Source};
use std::marker::Model;

/// A source of bytes in memory. Contracts see the bytes that are left, the plan, and how many calls
/// were made. Its faults are the calls so far that were to fail; a counter of calls at its last
/// value stands for as many faults.
#[derive(Drop)]
pub struct MemorySource {
    bytes: Vec<u8>,
    at: usize,
    plan: CallPlan,
    calls: u64,
}

impl Model for MemorySource {
    ghost use Rattle.std.specs.Prelude.{◌≤◌, length};
    ghost use Rattle.pyr_port.specs.Memory.{SourceState};

    ghost Value = { SourceState };

    ghost use Rattle.pyr_port.specs.MemoryInside.{source_in};

    ghost view = { source_in };

    ghost invariant = { λ s. s.at ≤ length s.bytes.items };
}

impl MemorySource {
    /// A source of these bytes, no call of which was made yet.
    pub fn new(bytes: Vec<u8>, plan: CallPlan) -> MemorySource
        ensures { result ≡ unread_source bytes.items plan.most plan.fail.items }
    {
        MemorySource {
            bytes,
            at: 0,
            plan,
            calls: 0,
        }
    }
}

impl Source for MemorySource {
    ghost left = { λ s. Some s.left };

    ghost faults = { λ s. faults_of (is_planned s.fail) s.calls };

    fn take(&mut self, into: &mut [u8]) -> Result<usize, Failed>
        ensures bound { ReadsAtMost result into.new }
        ensures bytes { ReadConsumes (Some self.old.left) (Some self.new.left) result into.new }
        ensures cause { HasCause (faults_of (is_planned self.old.fail) self.old.calls)
            (faults_of (is_planned self.new.fail) self.new.calls) result }

        // A call fails exactly where the plan says so. Any other gives as many bytes as fit.
        ensures fails { IsErr result ↔ IsTrue (is_planned self.old.fail (next_call self.old.calls)) }
        ensures count { IfOk result (λ count.
            count ≡ min self.old.most (min (length into.old) (length self.old.left))) }
        ensures state { self.new ≡ after_take self.old result }
    {
        self.calls = next_call(self.calls);
        if self.plan.fails(self.calls) {
            return Err(Failed);
        }
        let left = &self.bytes[self.at..];
        let count = self.plan.most.min(left.len()).min(into.len());
        into[..count].copy_from_slice(&left[..count]);
        self.at += count;
        Ok(count)
    }
}
