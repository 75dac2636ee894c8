// Graphs that are made of a number.
use crate::tests::call::{Call, gives, output};
use crate::tests::graphs::SEVEN;
use pyr_port::Source;
use pyr_top::Status;
use std::test::Fail;

#[test]
fn make_writes_the_generated_graph(rt: HostRuntime) -> Result<(), Fail> {
    let alloc = rt.alloc();
    let mut call = Call::new(alloc, &["make", "1"], SEVEN)?;
    assert_eq!(rt; call.make(&rt, alloc), Status::Ok);
    let text = b"data d0 1 0\ntask t0 1\nwrites d0\nput d0[0] = (frame + 0)\nend\nprint d0\n";
    assert!(rt; call.has_left(text, b""));
    let mut rest = [0; 100];
    assert_eq!(rt; call.source.take(&mut rest), Ok(SEVEN.len()));
    Ok(())
}

#[test]
fn seq_runs_the_generated_graph(rt: HostRuntime) -> Result<(), Fail> {
    let text = output(&rt, rt.alloc(), &["make", "66"], b"")?;
    assert!(rt; gives(&rt, rt.alloc(), &["seq"], &text, b"d64 = 65\nd65 = 74\n")?);
    Ok(())
}

// The capacities were counted along the plan by a program apart from this one.
#[test]
fn compile_gives_channels_the_room_that_the_plan_needs(rt: HostRuntime) -> Result<(), Fail> {
    let text = output(&rt, rt.alloc(), &["make", "66"], b"")?;
    let bundle = output(&rt, rt.alloc(), &["compile", "4"], &text)?;
    let channels = b"\nchannel 0 3 1\nchannel 1 0 1\nchannel 1 3 1\nprocessor 0\n".as_slice();
    assert!(rt;
        bundle
            .windows(channels.len())
            .any(|piece| piece == channels)
    );
    Ok(())
}

#[test]
fn verify_make_tells_a_summary(rt: HostRuntime) -> Result<(), Fail> {
    let summary = b"tasks 2\nprocessors 2\nmessages 0\nsteps 2\ntime 38\nsum 1\n";
    assert!(rt; gives(&rt, rt.alloc(), &["verify-make", "2", "2"], b"", summary)?);
    Ok(())
}

// As compiled it takes a second; stepped by `rt try`, more than two minutes.
#[test]
fn verify_make_ends_on_the_largest_graph(rt: HostRuntime) -> Result<(), Fail> {
    let words = ["verify-make", "4096", "64"];
    let summary = b"tasks 4096\nprocessors 64\nmessages 5093\nsteps 19375\ntime 9736\n\
sum 14347467612885118304\n";
    assert!(rt; gives(&rt, rt.alloc(), &words, b"", summary)?);
    Ok(())
}
