ghost use Rattle.std.specs.Prelude.{◌≤◌};

use pyr_port::{
    CallPlan, MemorySink, MemorySource, NullSink, ReadFault, Sink, Source, StdSink, StdSource,
    SteadySource, read_all, write_all,
};
use std::alloc::{AllocError, Global};
use std::io;
use std::io::Read;
use std::test::Fail;

fn source(
    alloc: Global,
    bytes: &[u8],
    most: usize,
    fail: &[u32],
) -> Result<MemorySource, AllocError>
    requires { 1 ≤ most }
{
    let fail = fail.to_vec(alloc)?;
    let bytes = bytes.to_vec(alloc)?;
    Ok(MemorySource::new(bytes, CallPlan { most, fail }))
}

fn sink(alloc: Global, room: usize, most: usize, fail: &[u32]) -> Result<MemorySink, AllocError>
    requires { 1 ≤ most }
{
    let fail = fail.to_vec(alloc)?;
    MemorySink::new(alloc, room, CallPlan { most, fail })
}

// Whether `abcde` is read of the source, or this is told in its place.
fn is_read<S: Source>(
    alloc: Global,
    source: &mut S,
    limit: usize,
    fault: Option<ReadFault>,
) -> bool {
    match read_all(alloc, source, limit) {
        Ok(bytes) => fault.is_none() && bytes.as_slice() == b"abcde".as_slice(),
        Err(told) => fault == Some(told),
    }
}

// The same of a source that gives so many bytes a call and fails at these calls.
fn is_read_in_pieces(
    alloc: Global,
    most: usize,
    fail: &[u32],
    limit: usize,
    fault: Option<ReadFault>,
) -> Result<bool, AllocError>
    requires { 1 ≤ most }
{
    let mut source = source(alloc, b"abcde", most, fail)?;
    Ok(is_read(alloc, &mut source, limit, fault))
}

#[test]
fn reads_to_the_end_or_tells_a_fault(rt: HostRuntime) -> Result<(), Fail> {
    for (most, fail, limit, fault) in &[
        (1, [].as_slice(), 5, None),
        (2, &[], 5, None),
        (5, &[], 5, None),
        (100, &[], 5, None),
        (100, &[], 4, Some(ReadFault::TooLong)),
        (100, &[2], 100, Some(ReadFault::SourceFault)),
    ] {
        assert!(rt; is_read_in_pieces(rt.alloc(), *most, fail, *limit, *fault)?);
    }
    Ok(())
}

#[test]
fn a_text_that_is_too_long_loses_a_byte_more(rt: HostRuntime) -> Result<(), Fail> {
    let mut source = source(rt.alloc(), b"abcdefgh", 100, &[])?;
    let is_told = is_read(rt.alloc(), &mut source, 4, Some(ReadFault::TooLong));
    let mut rest = [0; 9];
    let taken = source.take(&mut rest);
    assert!(rt; is_told && taken == Ok(3) && &rest[..3] == b"fgh".as_slice());
    Ok(())
}

#[test]
fn fails_at_the_planned_calls_alone(rt: HostRuntime) -> Result<(), Fail> {
    let mut source = source(rt.alloc(), b"abcde", 2, &[2, 3])?;
    let mut piece = [0; 4];
    let first = source.take(&mut piece);
    let fail = source.take(&mut piece).is_err() && source.take(&mut piece).is_err();
    let last = source.take(&mut piece);
    assert!(rt; first == Ok(2) && fail && last == Ok(2) && &piece[..2] == b"cd".as_slice());
    Ok(())
}

// Whether this part of the text is written to a sink of such room, that takes so many bytes a call
// and fails at these calls, and whether it is full then.
fn is_written(
    alloc: Global,
    room: usize,
    most: usize,
    fail: &[u32],
    text: &[u8],
    written: &[u8],
) -> Result<bool, AllocError>
    requires { 1 ≤ most }
{
    let mut sink = sink(alloc, room, most, fail)?;
    let is_whole = write_all(&mut sink, text).is_ok();
    let is_left = sink.bytes() == written;
    let is_full = sink.give(b"").is_err();
    Ok(is_left && is_whole == (text == written) && is_full == (written.len() == room))
}

#[test]
fn writes_all_or_a_prefix(rt: HostRuntime) -> Result<(), Fail> {
    for (room, most, fail, text, written) in &[
        (
            5,
            2,
            [].as_slice(),
            b"abcde".as_slice(),
            b"abcde".as_slice(),
        ),
        (5, 2, &[2], b"abcde", b"ab"),
        (3, 100, &[], b"abcde", b"abc"),
        (0, 100, &[], b"", b""),
    ] {
        assert!(rt; is_written(rt.alloc(), *room, *most, fail, text, written)?);
    }
    Ok(())
}

#[test]
fn steady_ends_never_fail(rt: HostRuntime) -> Result<(), Fail> {
    let mut source = SteadySource::new(b"abcde".to_vec(rt.alloc())?);
    let is_read = is_read(rt.alloc(), &mut source, 5, None);
    assert!(rt; is_read && NullSink.give(b"abcde") == Ok(5));
    Ok(())
}

// A reader that gives one byte, and then fails.
#[derive(Drop)]
struct Torn {
    whole: bool,
}

impl Read for Torn {
    fn read(&mut self, into: &mut [u8]) -> io::Result<usize> {
        match into {
            [first, ..] if self.whole => {
                *first = b'a';
                self.whole = false;
                Ok(1)
            }
            _ => Err(io::Error::from(io::ErrorKind::Other)),
        }
    }
}

#[test]
fn sources_pass_on_bytes_and_errors(rt: HostRuntime) {
    let mut slice = StdSource::new(b"abcde".as_slice());
    let mut torn = StdSource::new(Torn { whole: true });
    let fault = Some(ReadFault::SourceFault);
    let is_told = is_read(rt.alloc(), &mut torn, 5, fault);
    assert!(rt; is_told && is_read(rt.alloc(), &mut slice, 5, None));
}

#[test]
fn sinks_pass_on_bytes_and_errors(rt: HostRuntime) {
    // A slice takes what fits, and then no byte, which is a failure.
    let mut room = [0; 3];
    let mut slice = StdSink::new(room.as_mut_slice());
    let mut vector = StdSink::new(Vec::new(rt.alloc()));
    let fails = write_all(&mut slice, b"abcde").is_err();
    assert!(rt; fails && write_all(&mut vector, b"abcde").is_ok());
}
