// Words that are no command.
use crate::tests::call::{Call, plan};
use crate::tests::graphs::SEVEN;
use pyr_port::{MemorySink, Source};
use pyr_top::Status;
use std::alloc::{AllocError, Global};
use std::sync::Wait;
use std::test::Fail;
use std::thread::Threads;

// Whether the words are no command, and the source isn't read.
fn is_no_command<R: Threads + Wait + Sync>(
    rt: &R,
    alloc: Global,
    words: &[&str],
) -> Result<bool, AllocError> {
    let mut call = Call::new(alloc, words, SEVEN)?;
    let status = call.make(rt, alloc);
    let mut rest = [0; 100];
    let left = call.source.take(&mut rest);
    Ok(status == Status::Usage && call.has_left(b"", b"usage\n") && left == Ok(SEVEN.len()))
}

#[test]
fn words_that_are_no_command(rt: HostRuntime) -> Result<(), Fail> {
    for words in &[
        [].as_slice(),
        &["seq", "x"],
        &["Seq"],
        &["gantt"],
        &["gantt", "0"],
        &["gantt", "65"],
        &["gantt", "01"],
        &["gantt", "2", "2"],
        &["compile"],
        &["compile", "0"],
        &["compile", "65"],
        &["compile", "01"],
        &["compile", "2", "calm"],
        &["check", "1"],
        &["run", "1"],
        &["make"],
        &["make", "0"],
        &["make", "4097"],
        &["make", "01"],
        &["make", "1x"],
        &["make", "18446744073709551617"],
        &["verify-make"],
        &["verify-make", "2"],
        &["verify-make", "0", "2"],
        &["verify-make", "4097", "2"],
        &["verify-make", "2", "0"],
        &["verify-make", "2", "65"],
        &["verify-make", "2", "02"],
        &["verify-make", "2", "2", "2"],
    ] {
        assert!(rt; is_no_command(&rt, rt.alloc(), words)?);
    }
    Ok(())
}

#[test]
fn a_failing_err_changes_no_status(rt: HostRuntime) -> Result<(), Fail> {
    let alloc = rt.alloc();
    let mut call = Call::new(alloc, &["seq", "x"], b"")?;
    call.err = MemorySink::new(alloc, 100, plan(alloc, 3, &[2])?)?;
    assert_eq!(rt; call.make(&rt, alloc), Status::Usage);
    assert_eq!(rt; call.err.bytes(), b"usa".as_slice());
    Ok(())
}
