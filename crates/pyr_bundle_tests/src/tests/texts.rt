// The bundle texts of the tests.
use std::alloc::{AllocError, Global};

// x is 3, y is x + 1 on the first of two processors, z is 2 x on the second, and there w is y + z.
pub(crate) const DIAMOND: &[u8] = b"pyrros 1\nprocessors 2\n\
datum x 1\ndatum y 1\ndatum z 1\ndatum w 1\n\
task 0\nreads\nwrites 0\npush 0\npush 3\nput 0\nend\n\
task 0\nreads 0\nwrites 1\npush 0\npush 0\nget 0\npush 1\nadd\nput 0\nend\n\
task 0\nreads 0\nwrites 2\npush 0\npush 0\nget 0\npush 2\nmul\nput 0\nend\n\
task 0\nreads 1 2\nwrites 3\npush 0\npush 0\nget 0\npush 0\nget 1\nadd\nput 0\nend\n\
print 3\nchannel 0 1 2\n\
processor 0\nexec 0\nsend 1 0\nexec 1\nsend 1 1\n\
processor 1\nrecv 0 0\nexec 2\nrecv 0 1\nexec 3\nstop\n";

// The second of two tasks reads what the first writes, on another processor.
pub(crate) const PAIR: &[u8] = b"pyrros 1\nprocessors 2\ndatum x 1\ndatum y 1\n\
task 0\nreads\nwrites 0\npush 0\npush 3\nput 0\nend\n\
task 0\nreads 0\nwrites 1\npush 0\npush 0\nget 0\nput 0\nend\n\
print 1\nchannel 0 1 1\n\
processor 0\nexec 0\nsend 1 0\n\
processor 1\nrecv 0 0\nexec 1\nstop\n";

// x is the number of the frame, on the first of two processors; y is x + 10, on the second.
pub(crate) const COUNTING: &[u8] = b"pyrros 1\nprocessors 2\ndatum x 1\ndatum y 1\n\
task 0\nreads\nwrites 0\npush 0\nframe\nput 0\nend\n\
task 0\nreads 0\nwrites 1\npush 0\npush 0\nget 0\npush 10\nadd\nput 0\nend\n\
print 1\nprint 0\nchannel 0 1 1\n\
processor 0\nexec 0\nsend 1 0\n\
processor 1\nrecv 0 0\nexec 1\nstop\n";

// Each of two processors waits for the other first.
pub(crate) const MUTUAL: &[u8] = b"pyrros 1\nprocessors 2\ndatum x 1\ndatum y 1\n\
task 0\nreads 1\nwrites 0\npush 0\npush 0\nget 0\nput 0\nend\n\
task 0\nreads 0\nwrites 1\npush 0\npush 0\nget 0\nput 0\nend\n\
print 0\nchannel 0 1 1\nchannel 1 0 1\n\
processor 0\nrecv 1 1\nexec 0\nsend 1 0\n\
processor 1\nrecv 0 0\nexec 1\nsend 0 1\nstop\n";

// Two processors send each other two data before they receive. A channel has room for one of them.
pub(crate) const CROSSING: &[u8] = b"pyrros 1\nprocessors 2\n\
datum x 1\ndatum y 1\ndatum z 1\ndatum w 1\n\
task 0\nreads\nwrites 0 1\nend\ntask 0\nreads\nwrites 2 3\nend\n\
channel 0 1 1\nchannel 1 0 1\n\
processor 0\nexec 0\nsend 1 0\nsend 1 1\nrecv 1 2\nrecv 1 3\n\
processor 1\nexec 1\nsend 0 2\nsend 0 3\nrecv 0 0\nrecv 0 1\nstop\n";

// The same with room for both.
pub(crate) const ROOMY: &[u8] = b"pyrros 1\nprocessors 2\n\
datum x 1\ndatum y 1\ndatum z 1\ndatum w 1\n\
task 0\nreads\nwrites 0 1\nend\ntask 0\nreads\nwrites 2 3\nend\n\
channel 0 1 2\nchannel 1 0 2\n\
processor 0\nexec 0\nsend 1 0\nsend 1 1\nrecv 1 2\nrecv 1 3\n\
processor 1\nexec 1\nsend 0 2\nsend 0 3\nrecv 0 0\nrecv 0 1\nstop\n";

// x is 1 and y is 2, sent in this order and received in the other; z is x - y.
pub(crate) const SWAPPED: &[u8] = b"pyrros 1\nprocessors 2\ndatum x 1\ndatum y 1\ndatum z 1\n\
task 0\nreads\nwrites 0 1\npush 0\npush 1\nput 0\npush 0\npush 2\nput 1\nend\n\
task 0\nreads 0 1\nwrites 2\npush 0\npush 0\nget 0\npush 0\nget 1\nsub\nput 0\nend\n\
print 2\nchannel 0 1 2\nprocessor 0\nexec 0\nsend 1 0\nsend 1 1\n\
processor 1\nrecv 0 1\nrecv 0 0\nexec 1\nstop\n";

// A datum that is sent and never received.
pub(crate) const LEFT: &[u8] = b"pyrros 1\nprocessors 2\ndatum x 1\n\
task 0\nreads\nwrites 0\nend\nprint 0\nchannel 0 1 1\n\
processor 0\nexec 0\nsend 1 0\nprocessor 1\nstop\n";

// A datum that is sent before its task is executed.
pub(crate) const UNMADE: &[u8] = b"pyrros 1\nprocessors 2\ndatum x 1\n\
task 0\nreads\nwrites 0\nend\nprint 0\nchannel 0 1 1\n\
processor 0\nsend 1 0\nexec 0\nprocessor 1\nrecv 0 0\nstop\n";

// No task, on one processor.
pub(crate) const EMPTY: &[u8] = b"pyrros 1\nprocessors 1\nprocessor 0\nstop\n";

// The text with other bytes in the place of these lines and their line feeds. The first line is
// line 1; no line is changed where the first one is 0.
pub(crate) fn with_lines(
    alloc: Global,
    text: &[u8],
    first: u32,
    last: u32,
    bytes: &[u8],
) -> Result<Vec<u8>, AllocError> {
    let mut changed = Vec::new(alloc);
    let mut number = 1u32;
    for byte in text {
        if number < first || last < number {
            changed.push(*byte)?;
        }
        if *byte == b'\n' {
            if number == last {
                changed.extend_from_slice(bytes)?;
            }
            number = number.saturating_add(1);
        }
    }
    Ok(changed)
}
