// Each call of the source and of the sink failing in turn.
use crate::tests::bundles::{HEAVY_BUNDLE, TWO_BUNDLE};
use crate::tests::call::{Call, plan};
use crate::tests::graphs::{ARITHMETIC, SEVEN, TWO};
use pyr_port::{MemorySink, MemorySource};
use pyr_top::Status;
use std::alloc::{AllocError, Global};
use std::sync::Wait;
use std::test::Fail;
use std::thread::Threads;

// A command with its output, and how many calls it makes of a source that gives 7 bytes a call, the
// last of which tells the end, and of a sink that takes 3.
struct Case {
    words: &'static [&'static str],
    text: &'static [u8],
    output: &'static [u8],
    takes: u32,
    gives: u32,
}

const CASES: &[Case] = &[
    Case {
        words: &["seq"],
        text: SEVEN,
        output: b"x = 7\n",
        takes: 9,
        gives: 2,
    },
    Case {
        words: &["seq"],
        text: ARITHMETIC,
        output: b"r = 0 0 5 1 22\n",
        takes: 33,
        gives: 5,
    },
    Case {
        words: &["compile", "2"],
        text: TWO,
        output: TWO_BUNDLE,
        takes: 17,
        gives: 65,
    },
    Case {
        words: &["check"],
        text: HEAVY_BUNDLE,
        output: b"accepted\nsteps 10\n",
        takes: 62,
        gives: 6,
    },
    Case {
        words: &["run"],
        text: HEAVY_BUNDLE,
        output: b"w = 10\n",
        takes: 62,
        gives: 3,
    },
];

impl Case {
    // The call in which the source fails at its call of the first number, and the sink at its call of
    // the second.
    fn failing_at(&self, alloc: Global, take: u32, give: u32) -> Result<Call, AllocError> {
        let mut call = Call::new(alloc, self.words, self.text)?;
        call.source = MemorySource::new(self.text.to_vec(alloc)?, plan(alloc, 7, &[take])?);
        call.out = MemorySink::new(alloc, 1000, plan(alloc, 3, &[give])?)?;
        Ok(call)
    }

    // Whether a source that fails at this call is told, and nothing is written.
    fn lacks_source<R: Threads + Wait + Sync>(
        &self,
        rt: &R,
        alloc: Global,
        take: u32,
    ) -> Result<bool, AllocError> {
        let mut call = self.failing_at(alloc, take, 1)?;
        let status = call.make(rt, alloc);
        Ok(status == Status::Source && call.has_left(b"", b"source failed\n"))
    }

    // Whether a sink that fails behind so many calls is told, and just what those took was written.
    fn lacks_sink<R: Threads + Wait + Sync>(
        &self,
        rt: &R,
        alloc: Global,
        before: u32,
    ) -> Result<bool, AllocError> {
        let after = self.takes.saturating_add(1);
        let mut call = self.failing_at(alloc, after, before.saturating_add(1))?;
        let status = call.make(rt, alloc);
        let written = self.output.get(..3 * before as usize).unwrap_or(b"");
        Ok(status == Status::Sink && call.has_left(written, b"sink failed\n"))
    }

    // Whether the call succeeds where source and sink fail after all the calls that are made of them.
    fn succeeds<R: Threads + Wait + Sync>(
        &self,
        rt: &R,
        alloc: Global,
    ) -> Result<bool, AllocError> {
        let (take, give) = (self.takes.saturating_add(1), self.gives.saturating_add(1));
        let mut call = self.failing_at(alloc, take, give)?;
        let status = call.make(rt, alloc);
        Ok(status == Status::Ok && call.has_left(self.output, b""))
    }
}

#[test]
fn each_call_of_the_source_fails_in_turn(rt: HostRuntime) -> Result<(), Fail> {
    for case in CASES {
        for take in 1..=case.takes {
            assert!(rt; case.lacks_source(&rt, rt.alloc(), take)?);
        }
    }
    Ok(())
}

#[test]
fn each_call_of_the_sink_fails_in_turn(rt: HostRuntime) -> Result<(), Fail> {
    for case in CASES {
        for before in 0..case.gives {
            assert!(rt; case.lacks_sink(&rt, rt.alloc(), before)?);
        }
        assert!(rt; case.succeeds(&rt, rt.alloc())?);
    }
    Ok(())
}

#[test]
fn a_sink_that_fails_holds_what_it_took(rt: HostRuntime) -> Result<(), Fail> {
    let alloc = rt.alloc();
    let mut call = Call::new(alloc, &["seq"], SEVEN)?;
    call.out = MemorySink::new(alloc, 100, plan(alloc, 5, &[2])?)?;
    assert_eq!(rt; call.make(&rt, alloc), Status::Sink);
    assert!(rt; call.has_left(b"x = 7", b"sink failed\n"));
    Ok(())
}
