// The commands on bundle texts.
use crate::tests::bundles::{
    CROSSING_BUNDLE, HEAVY_BUNDLE, LEFT_BUNDLE, TURNED_BUNDLE, TWO_BUNDLE, WAITING_BUNDLE,
    with_lines,
};
use crate::tests::call::{gives, output, refuses};
use crate::tests::graphs::{DIAMOND, ELIMINATION, FIVE, WAVEFRONT};
use pyr_top::Status;
use std::alloc::{AllocError, Global};
use std::sync::Wait;
use std::test::Fail;
use std::thread::Threads;

#[test]
fn check_tells_the_steps_and_run_the_printed_data(rt: HostRuntime) -> Result<(), Fail> {
    let roomy = b"channel 0 1 2\nchannel 1 0 2\n";
    let roomy = with_lines(rt.alloc(), CROSSING_BUNDLE, &(15..=16), roomy)?;
    for (text, report, output) in &[
        (
            HEAVY_BUNDLE,
            b"accepted\nsteps 10\n".as_slice(),
            b"w = 10\n".as_slice(),
        ),
        (TWO_BUNDLE, b"accepted\nsteps 2\n", b"x = 1\ny = 2\n"),
        (
            TURNED_BUNDLE,
            b"accepted\nsteps 8\n",
            b"z = 18446744073709551615\n",
        ),
        (&roomy, b"accepted\nsteps 14\n", b""),
    ] {
        assert!(rt; gives(&rt, rt.alloc(), &["check"], text, report)?);
        assert!(rt; gives(&rt, rt.alloc(), &["run"], text, output)?);
    }
    Ok(())
}

// Whether the compiled bundle is accepted with this report, and prints what its graph does.
fn is_kept<R: Threads + Wait + Sync>(
    rt: &R,
    alloc: Global,
    processors: &str,
    text: &[u8],
    report: &[u8],
) -> Result<bool, AllocError> {
    let printed = output(rt, alloc, &["seq"], text)?;
    let bundle = output(rt, alloc, &["compile", processors], text)?;
    Ok(
        gives(rt, alloc, &["check"], &bundle, report)?
            && gives(rt, alloc, &["run"], &bundle, &printed)?,
    )
}

#[test]
fn what_is_compiled_prints_what_its_graph_does(rt: HostRuntime) -> Result<(), Fail> {
    for (processors, text, report) in &[
        ("3", DIAMOND, b"accepted\nsteps 4\n".as_slice()),
        ("2", FIVE, b"accepted\nsteps 11\n"),
        ("2", ELIMINATION, b"accepted\nsteps 15\n"),
        ("4", ELIMINATION, b"accepted\nsteps 18\n"),
        ("1", WAVEFRONT, b"accepted\nsteps 9\n"),
        ("2", WAVEFRONT, b"accepted\nsteps 21\n"),
        ("4", WAVEFRONT, b"accepted\nsteps 24\n"),
        ("8", WAVEFRONT, b"accepted\nsteps 24\n"),
    ] {
        assert!(rt; is_kept(&rt, rt.alloc(), processors, text, report)?);
    }
    Ok(())
}

// Whether the bundle is refused so, checked and run.
fn is_refused<R: Threads + Wait + Sync>(
    rt: &R,
    alloc: Global,
    text: &[u8],
    status: Status,
    line: &[u8],
) -> Result<bool, AllocError> {
    Ok(
        refuses(rt, alloc, &["check"], text, status, line)?
            && refuses(rt, alloc, &["run"], text, status, line)?,
    )
}

#[test]
fn one_changed_place_is_refused(rt: HostRuntime) -> Result<(), Fail> {
    for (lines, by, status, line) in &[
        (
            2..=2,
            b"processors 02\n".as_slice(),
            Status::Text,
            b"line 2: text\n".as_slice(),
        ),
        (
            2..=2,
            b"processors 65\n",
            Status::Limit,
            b"line 2: limit processors\n",
        ),
        (
            11..=11,
            b"push 18446744073709551616\n",
            Status::Text,
            b"line 11: text\n",
        ),
        (11..=11, b"get 0\n", Status::Law, b"law 4 at 0 2\n"),
        (46..=46, b"", Status::Law, b"law 10 at 0 0\n"),
        (46..=46, b"channel 0 1 0\n", Status::Law, b"law 11 at 0 0\n"),
        (49..=49, b"send 0 0\n", Status::Law, b"law 6 at 0 1\n"),
        (
            53..=53,
            b"recv 0 0\nrecv 0 0\n",
            Status::Law,
            b"law 9 at 1 1\n",
        ),
        (
            53..=54,
            b"exec 2\nrecv 0 0\n",
            Status::Stuck,
            b"stuck 0:4 ended, 1:0 lacks 0\n",
        ),
        (
            55..=55,
            b"",
            Status::Stuck,
            b"stuck 0:4 ended, 1:2 lacks 1\n",
        ),
        (56..=56, b"exec 4\n", Status::Law, b"law 6 at 1 3\n"),
        (57..=57, b"stop", Status::Text, b"line 57: text\n"),
        (57..=57, b"stop\n\n", Status::Text, b"line 58: text\n"),
    ] {
        let text = with_lines(rt.alloc(), HEAVY_BUNDLE, lines, by)?;
        assert!(rt; is_refused(&rt, rt.alloc(), &text, *status, line)?);
    }
    Ok(())
}

#[test]
fn what_cannot_be_run_is_refused(rt: HostRuntime) -> Result<(), Fail> {
    let alloc = rt.alloc();
    let wide = with_lines(alloc, CROSSING_BUNDLE, &(15..=15), b"channel 0 1 3\n")?;
    let twice = with_lines(alloc, LEFT_BUNDLE, &(13..=13), b"processor 1\nexec 0\n")?;
    let early = b"send 1 0\nexec 0\nprocessor 1\nrecv 0 0\n";
    let early = with_lines(alloc, LEFT_BUNDLE, &(11..=13), early)?;
    for (text, status, line) in &[
        (
            WAITING_BUNDLE,
            Status::Stuck,
            b"stuck 0:0 empty 1, 1:0 empty 0\n".as_slice(),
        ),
        (
            CROSSING_BUNDLE,
            Status::Stuck,
            b"stuck 0:2 full 1, 1:2 full 0\n",
        ),
        (&wide, Status::Law, b"law 11 at 0 0\n"),
        (LEFT_BUNDLE, Status::Leftover, b"leftover 0 1 0\n"),
        (&twice, Status::Law, b"law 7 at 0 0\n"),
        (&early, Status::Stuck, b"stuck 0:0 lacks 0, 1:0 empty 0\n"),
        (&HEAVY_BUNDLE[..10], Status::Text, b"line 2: text\n"),
        (&HEAVY_BUNDLE[..9], Status::Text, b"line 2: text\n"),
        (b"", Status::Text, b"line 1: text\n"),
    ] {
        assert!(rt; is_refused(&rt, alloc, text, *status, line)?);
    }
    Ok(())
}
