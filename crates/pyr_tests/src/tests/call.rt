// One call of the program.
ghost use Rattle.std.specs.Prelude.{◌≤◌};

use pyr_port::{CallPlan, MemorySink, MemorySource};
use pyr_proc::{Free, Pace};
use pyr_top::{Status, pyrros};
use std::alloc::{AllocError, Global};
use std::sync::Wait;
use std::thread::Threads;

// The most bytes that one call of a source or a sink moves, where it doesn't matter.
const MANY: usize = 1_000_000;

// The room of a sink, where it doesn't matter.
const ROOM: usize = 10_000;

pub(crate) fn plan(alloc: Global, most: usize, fail: &[u32]) -> Result<CallPlan, AllocError>
    requires { 1 ≤ most }
{
    let fail = fail.to_vec(alloc)?;
    Ok(CallPlan { most, fail })
}

// What a call is given, and what it leaves.
#[derive(Drop)]
pub(crate) struct Call {
    words: Vec<String>,
    pub(crate) source: MemorySource,
    pub(crate) out: MemorySink,
    pub(crate) err: MemorySink,
}

impl Call {
    pub(crate) fn new(alloc: Global, words: &[&str], text: &[u8]) -> Result<Call, AllocError> {
        let mut spelled = Vec::new(alloc);
        for word in words {
            spelled.push(String::from_str(alloc, word)?)?;
        }
        Ok(Call {
            words: spelled,
            source: MemorySource::new(text.to_vec(alloc)?, plan(alloc, MANY, &[])?),
            out: MemorySink::new(alloc, ROOM, plan(alloc, MANY, &[])?)?,
            err: MemorySink::new(alloc, ROOM, plan(alloc, MANY, &[])?)?,
        })
    }

    // Makes the call at this pace.
    pub(crate) fn make_at<P: Pace, R: Threads + Wait + Sync>(
        &mut self,
        rt: &R,
        alloc: Global,
        pace: &P,
    ) -> Status {
        let Call {
            words,
            source,
            out,
            err,
        } = self;
        pyrros(rt, alloc, words, source, out, err, pace)
    }

    // Makes the call.
    pub(crate) fn make<R: Threads + Wait + Sync>(&mut self, rt: &R, alloc: Global) -> Status {
        self.make_at(rt, alloc, &Free)
    }

    // Whether just this was written.
    pub(crate) fn has_left(&self, out: &[u8], err: &[u8]) -> bool {
        self.out.bytes() == out && self.err.bytes() == err
    }
}

// Whether the command succeeds with this output.
pub(crate) fn gives<R: Threads + Wait + Sync>(
    rt: &R,
    alloc: Global,
    words: &[&str],
    text: &[u8],
    output: &[u8],
) -> Result<bool, AllocError> {
    let mut call = Call::new(alloc, words, text)?;
    let status = call.make(rt, alloc);
    Ok(status == Status::Ok && call.has_left(output, b""))
}

// Whether the command is refused with this status and this line, and writes no output.
pub(crate) fn refuses<R: Threads + Wait + Sync>(
    rt: &R,
    alloc: Global,
    words: &[&str],
    text: &[u8],
    status: Status,
    line: &[u8],
) -> Result<bool, AllocError> {
    let mut call = Call::new(alloc, words, text)?;
    let found = call.make(rt, alloc);
    Ok(found == status && call.has_left(b"", line))
}

// What the command writes; nothing where it is refused.
pub(crate) fn output<R: Threads + Wait + Sync>(
    rt: &R,
    alloc: Global,
    words: &[&str],
    text: &[u8],
) -> Result<Vec<u8>, AllocError> {
    let mut call = Call::new(alloc, words, text)?;
    call.make(rt, alloc);
    call.out.bytes().to_vec(alloc)
}
