// The commands on graph texts.
use crate::tests::bundles::{HEAVY_BUNDLE, TWO_BUNDLE};
use crate::tests::call::{Call, gives};
use crate::tests::graphs::{
    ARITHMETIC, CHAIN, DIAMOND, ELIMINATION, FIVE, HEAVY, JOINED, LOOPS, RESERVED, SEVEN, TWO,
    WAVEFRONT,
};
use pyr_top::Status;
use std::alloc::{AllocError, Global};
use std::sync::Wait;
use std::test::Fail;
use std::thread::Threads;

#[test]
fn seq_prints_the_printed_data(rt: HostRuntime) -> Result<(), Fail> {
    for (text, output) in &[
        (SEVEN, b"x = 7\n".as_slice()),
        (DIAMOND, b"w = 10\n"),
        (TWO, b"x = 1\ny = 2\n"),
        (ARITHMETIC, b"r = 0 0 5 1 22\n"),
        (LOOPS, b"x = 0\n"),
        (ELIMINATION, b"e2 = 0 0 18446744073709551556\nd1 = 0 6 6\n"),
        (FIVE, b"w = 6\n"),
        (WAVEFRONT, b"row1_0 = 1 2 3\nrow1_1 = 3 3 3\n"),
    ] {
        assert!(rt; gives(&rt, rt.alloc(), &["seq"], text, output)?);
    }
    Ok(())
}

#[test]
fn cluster_tells_its_steps(rt: HostRuntime) -> Result<(), Fail> {
    for (text, report) in &[
        (
            DIAMOND,
            b"pt 13\na 0 0 13\nc 0 2 12\nb 0 6 11\nd 0 9 10\nclusters 1\n".as_slice(),
        ),
        (
            HEAVY,
            b"pt 15\na 0 0 15\nb 0 2 15\nc 1 3 15\nd 1 13 14\nclusters 2\n",
        ),
        (CHAIN, b"pt 2\na 0 0 2\nb 1 1 2\nclusters 2\n"),
        (
            RESERVED,
            b"pt 32\na 0 0 32\nx 1 8 32\nb 2 0 32\ny 0 2 24\nclusters 3\n",
        ),
        (
            ELIMINATION,
            b"pt 23\nl0 0 0 23\nl1 1 0 23\nu01 0 3 22\nl2 2 0 22\nu02 3 7 22\nu12 3 13 19\n\
clusters 4\n",
        ),
        (
            FIVE,
            b"pt 22\na 0 0 22\nb 0 2 21\ne 0 6 17\nc 1 3 17\nd 1 15 16\nclusters 2\n",
        ),
    ] {
        assert!(rt; gives(&rt, rt.alloc(), &["cluster"], text, report)?);
    }
    Ok(())
}

#[test]
fn gantt_tells_the_plan(rt: HostRuntime) -> Result<(), Fail> {
    for (processors, text, report) in &[
        (
            "2",
            HEAVY,
            b"time 14\na 0 0 2\nb 0 2 12\nc 1 3 13\nd 1 13 14\n\
0 ####################################################........\n\
1 ............################################################\n"
                .as_slice(),
        ),
        (
            "1",
            TWO,
            b"time 2\na 0 0 1\nb 0 1 2\n\
0 ############################################################\n",
        ),
        (
            "2",
            ELIMINATION,
            b"time 23\nl0 1 0 1\nl1 1 1 2\nl2 1 8 9\nu01 1 2 8\nu02 0 11 17\nu12 0 17 23\n\
0 ............................################################\n\
1 ########################....................................\n",
        ),
        (
            "2",
            FIVE,
            b"time 16\na 1 0 2\nb 1 2 6\nc 0 3 15\ne 1 6 10\nd 0 15 16\n\
0 ...........#################################################\n\
1 ######################################......................\n",
        ),
        (
            "2",
            JOINED,
            b"time 13\na 0 0 2\nb 1 0 2\nc 0 12 13\n\
0 ##########.............................................#####\n\
1 ##########..................................................\n",
        ),
    ] {
        assert!(rt; gives(&rt, rt.alloc(), &["gantt", *processors], text, report)?);
    }
    Ok(())
}

#[test]
fn compile_writes_the_bundle(rt: HostRuntime) -> Result<(), Fail> {
    let seven = b"pyrros 1\nprocessors 1\ndatum x 1\ntask 0\nreads\nwrites 0\n\
push 0\npush 7\nput 0\nend\nprint 0\nprocessor 0\nexec 0\nstop\n";
    let loops = b"pyrros 1\nprocessors 1\ndatum x 1\ntask 3\nreads\nwrites 0\n\
loop 0 27\nloop 1 12345\npush 0\nstore 2\ndone\ndone\nend\n\
print 0\nprocessor 0\nexec 0\nstop\n";
    let two = b"pyrros 1\nprocessors 1\ndatum x 1\ndatum y 1\n\
task 0\nreads\nwrites 0\npush 0\npush 1\nput 0\nend\n\
task 0\nreads\nwrites 1\npush 0\npush 2\nput 0\nend\n\
print 0\nprint 1\nprocessor 0\nexec 0\nexec 1\nstop\n";
    for (processors, text, bundle) in &[
        ("1", SEVEN, seven.as_slice()),
        ("1", LOOPS, loops),
        ("1", TWO, two),
        ("2", TWO, TWO_BUNDLE),
        ("2", HEAVY, HEAVY_BUNDLE),
    ] {
        assert!(rt; gives(&rt, rt.alloc(), &["compile", *processors], text, bundle)?);
    }
    Ok(())
}

// Whether the text of the compiled bundle ends so.
fn ends<R: Threads + Wait + Sync>(
    rt: &R,
    alloc: Global,
    processors: &str,
    text: &[u8],
    end: &[u8],
) -> Result<bool, AllocError> {
    let mut call = Call::new(alloc, &["compile", processors], text)?;
    Ok(call.make(rt, alloc) == Status::Ok && call.out.bytes().ends_with(end))
}

#[test]
fn compile_shares_the_tasks(rt: HostRuntime) -> Result<(), Fail> {
    for (processors, text, end) in &[
        (
            "3",
            DIAMOND,
            b"print 3\nprocessor 0\nexec 0\nexec 2\nexec 1\nexec 3\n\
processor 1\nprocessor 2\nstop\n"
                .as_slice(),
        ),
        (
            "2",
            FIVE,
            b"print 4\nchannel 1 0 1\nprocessor 0\nrecv 1 0\nexec 2\nrecv 1 2\nexec 4\n\
processor 1\nexec 0\nsend 0 0\nexec 1\nexec 3\nsend 0 2\nstop\n",
        ),
        (
            "2",
            ELIMINATION,
            b"print 5\nprint 3\nchannel 1 0 3\n\
processor 0\nrecv 1 0\nrecv 1 2\nexec 4\nrecv 1 3\nexec 5\n\
processor 1\nexec 0\nsend 0 0\nexec 1\nexec 3\nsend 0 3\nexec 2\nsend 0 2\nstop\n",
        ),
        (
            "4",
            ELIMINATION,
            b"print 5\nprint 3\nchannel 1 0 2\nchannel 2 1 1\nchannel 3 0 1\n\
processor 0\nrecv 1 0\nrecv 3 2\nexec 4\nrecv 1 3\nexec 5\n\
processor 1\nexec 0\nsend 0 0\nrecv 2 1\nexec 3\nsend 0 3\n\
processor 2\nexec 1\nsend 1 1\nprocessor 3\nexec 2\nsend 0 2\nstop\n",
        ),
    ] {
        assert!(rt; ends(&rt, rt.alloc(), processors, text, end)?);
    }
    Ok(())
}
