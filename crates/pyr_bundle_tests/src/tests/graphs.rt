// From the text of a graph to a program.
use pyr_graphtext::{Program, read_program};
use pyr_num::Limits;
use std::alloc::Global;

pub(crate) const HEAVY_DIAMOND: &[u8] = b"data x 1 1\ndata y 1 1\ndata z 1 1\ndata w 1 0\n\
task a 2\nwrites x\nput x[0] = 3\nend\n\
task b 10\nreads x\nwrites y\nput y[0] = (x[0] + 1)\nend\n\
task c 10\nreads x\nwrites z\nput z[0] = (x[0] * 2)\nend\n\
task d 1\nreads y z\nwrites w\nput w[0] = (y[0] + z[0])\nend\nprint w\n";

// The program that has this text.
pub(crate) fn program_of(alloc: Global, text: &[u8]) -> Option<Program> {
    if text.len() > Limits::INPUT {
        return None;
    }
    read_program(alloc, text).ok()
}
