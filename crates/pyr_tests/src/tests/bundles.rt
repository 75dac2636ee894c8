// The bundle texts of the tests.
use std::alloc::{AllocError, Global};
use std::ops::RangeInclusive;

// The bundle of the heavy diamond on two processors.
pub(crate) const HEAVY_BUNDLE: &[u8] = b"pyrros 1\nprocessors 2\n\
datum x 1\ndatum y 1\ndatum z 1\ndatum w 1\n\
task 0\nreads\nwrites 0\npush 0\npush 3\nput 0\nend\n\
task 0\nreads 0\nwrites 1\npush 0\npush 0\nget 0\npush 1\nadd\nput 0\nend\n\
task 0\nreads 0\nwrites 2\npush 0\npush 0\nget 0\npush 2\nmul\nput 0\nend\n\
task 0\nreads 1 2\nwrites 3\npush 0\npush 0\nget 0\npush 0\nget 1\nadd\nput 0\nend\n\
print 3\nchannel 0 1 2\n\
processor 0\nexec 0\nsend 1 0\nexec 1\nsend 1 1\n\
processor 1\nrecv 0 0\nexec 2\nrecv 0 1\nexec 3\nstop\n";

// That of the two independent tasks.
pub(crate) const TWO_BUNDLE: &[u8] = b"pyrros 1\nprocessors 2\ndatum x 1\ndatum y 1\n\
task 0\nreads\nwrites 0\npush 0\npush 1\nput 0\nend\n\
task 0\nreads\nwrites 1\npush 0\npush 2\nput 0\nend\n\
print 0\nprint 1\nprocessor 0\nexec 0\nprocessor 1\nexec 1\nstop\n";

// Each of two tasks waits for what the other writes.
pub(crate) const WAITING_BUNDLE: &[u8] = b"pyrros 1\nprocessors 2\ndatum x 1\ndatum y 1\n\
task 0\nreads 1\nwrites 0\npush 0\npush 0\nget 0\nput 0\nend\n\
task 0\nreads 0\nwrites 1\npush 0\npush 0\nget 0\nput 0\nend\n\
print 0\nchannel 0 1 1\nchannel 1 0 1\n\
processor 0\nrecv 1 1\nexec 0\nsend 1 0\n\
processor 1\nrecv 0 0\nexec 1\nsend 0 1\nstop\n";

// Its data are received in another order than they are sent.
pub(crate) const TURNED_BUNDLE: &[u8] = b"pyrros 1\nprocessors 2\ndatum x 1\ndatum y 1\ndatum z 1\n\
task 0\nreads\nwrites 0 1\npush 0\npush 1\nput 0\npush 0\npush 2\nput 1\nend\n\
task 0\nreads 0 1\nwrites 2\npush 0\npush 0\nget 0\npush 0\nget 1\nsub\nput 0\nend\n\
print 2\nchannel 0 1 2\nprocessor 0\nexec 0\nsend 1 0\nsend 1 1\n\
processor 1\nrecv 0 1\nrecv 0 0\nexec 1\nstop\n";

// Both processors send before they receive.
pub(crate) const CROSSING_BUNDLE: &[u8] = b"pyrros 1\nprocessors 2\n\
datum x 1\ndatum y 1\ndatum z 1\ndatum w 1\n\
task 0\nreads\nwrites 0 1\nend\ntask 0\nreads\nwrites 2 3\nend\n\
channel 0 1 1\nchannel 1 0 1\n\
processor 0\nexec 0\nsend 1 0\nsend 1 1\nrecv 1 2\nrecv 1 3\n\
processor 1\nexec 1\nsend 0 2\nsend 0 3\nrecv 0 0\nrecv 0 1\nstop\n";

// What is sent is never received.
pub(crate) const LEFT_BUNDLE: &[u8] = b"pyrros 1\nprocessors 2\ndatum x 1\n\
task 0\nreads\nwrites 0\nend\nprint 0\nchannel 0 1 1\n\
processor 0\nexec 0\nsend 1 0\nprocessor 1\nstop\n";

// The text with something else in place of these lines, of which the first is line 1.
pub(crate) fn with_lines(
    alloc: Global,
    text: &[u8],
    lines: &RangeInclusive<u32>,
    by: &[u8],
) -> Result<Vec<u8>, AllocError> {
    let mut changed = Vec::new(alloc);
    let mut number = 1u32;
    for byte in text {
        if !lines.contains(&number) {
            changed.push(*byte)?;
        }
        if *byte == b'\n' {
            if number == *lines.end() {
                changed.extend_from_slice(by)?;
            }
            number = number.saturating_add(1);
        }
    }
    Ok(changed)
}
