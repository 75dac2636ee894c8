// Calls that may lack memory: `rt try --test --fail-alloc N` refuses each test its Nth allocation.
use crate::tests::bundles::HEAVY_BUNDLE;
use crate::tests::call::Call;
use crate::tests::graphs::{ARITHMETIC, ELIMINATION};
use pyr_top::Status;
use std::alloc::Global;
use std::sync::Wait;
use std::thread::Threads;

// Whether the command succeeds with an output that ends so, or lacks memory, and tells so. It counts
// as this where the call can't be made at all for want of memory.
fn succeeds_or_lacks_memory<R: Threads + Wait + Sync>(
    rt: &R,
    alloc: Global,
    words: &[&str],
    text: &[u8],
    end: &[u8],
) -> bool {
    let Ok(mut call) = Call::new(alloc, words, text) else {
        return true;
    };
    match call.make(rt, alloc) {
        Status::Ok => call.out.bytes().ends_with(end) && call.err.bytes().is_empty(),
        Status::Memory => call.has_left(b"", b"no memory\n"),
        _ => false,
    }
}

#[test]
fn seq_tells_want_of_memory(rt: HostRuntime) {
    let printed = b"r = 0 0 5 1 22\n";
    assert!(rt; succeeds_or_lacks_memory(&rt, rt.alloc(), &["seq"], ARITHMETIC, printed));
}

#[test]
fn compile_tells_want_of_memory(rt: HostRuntime) {
    let words = ["compile", "2"];
    let end = b"exec 2\nsend 0 2\nstop\n";
    assert!(rt; succeeds_or_lacks_memory(&rt, rt.alloc(), &words, ELIMINATION, end));
}

#[test]
fn check_tells_want_of_memory(rt: HostRuntime) {
    let report = b"accepted\nsteps 10\n";
    assert!(rt; succeeds_or_lacks_memory(&rt, rt.alloc(), &["check"], HEAVY_BUNDLE, report));
}

#[test]
fn run_tells_want_of_memory(rt: HostRuntime) {
    let printed = b"w = 10\n";
    assert!(rt; succeeds_or_lacks_memory(&rt, rt.alloc(), &["run"], HEAVY_BUNDLE, printed));
}
