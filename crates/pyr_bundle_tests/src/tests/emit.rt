use crate::tests::graphs::{HEAVY_DIAMOND, program_of};
use crate::tests::reading::prints_at_end;
use pyr_bundle::Bundle;
use pyr_emit::{emissions_keep_the_meaning, emit};
use pyr_graph::Placement;
use pyr_graphtext::Program;
use pyr_num::{Limits, ProcId};
use pyr_rcp::{order, places_all};
use sqlite_items::Items;
use std::alloc::{AllocError, Global};

const DIAMOND: &[u8] = b"data x 1 5\ndata y 1 1\ndata z 1 1\ndata w 1 0\n\
task a 2\nwrites x\nput x[0] = 3\nend\n\
task b 3\nreads x\nwrites y\nput y[0] = (x[0] + 1)\nend\n\
task c 4\nreads x\nwrites z\nput z[0] = (x[0] * 2)\nend\n\
task d 1\nreads y z\nwrites w\nput w[0] = (y[0] + z[0])\nend\nprint w\n";

const TWO: &[u8] = b"data x 1 0\ndata y 1 0\n\
task a 1\nwrites x\nput x[0] = 1\nend\n\
task b 1\nwrites y\nput y[0] = 2\nend\nprint x\nprint y\n";

const ELIMINATION: &[u8] = b"data c0 3 6\ndata c1 3 2\ndata c2 3 2\ndata d1 3 4\ndata d2 3 3\n\
data e2 3 0\n\
task l0 1\nwrites c0\nput c0[0] = 2\nput c0[1] = 1\nput c0[2] = 3\nend\n\
task l1 1\nwrites c1\nput c1[0] = 4\nput c1[1] = 5\nput c1[2] = 9\nend\n\
task l2 1\nwrites c2\nput c2[0] = 7\nput c2[1] = 8\nput c2[2] = 10\nend\n\
task u01 6\nreads c0 c1\nwrites d1\nfor i 3\n\
put d1[i] = ((c1[i] * c0[0]) - (c0[i] * c1[0]))\ndone\nend\n\
task u02 6\nreads c0 c2\nwrites d2\nfor i 3\n\
put d2[i] = ((c2[i] * c0[0]) - (c0[i] * c2[0]))\ndone\nend\n\
task u12 6\nreads d1 d2\nwrites e2\nfor i 3\n\
put e2[i] = ((d2[i] * d1[1]) - (d1[i] * d2[1]))\ndone\nend\nprint e2\nprint d1\n";

// Its first task names what it writes by falling number.
const FALLING: &[u8] = b"data p 1 0\ndata q 1 0\ndata r 1 0\n\
task a 1\nwrites r q p\nend\ntask b 9\nreads q p r\nend\ntask c 9\nreads p\nend\n\
task d 9\nreads q\nend\n";

// A program with the processor of each task, and the end of its bundle's text: what is printed, the
// channels and the code of each processor.
struct Case {
    text: &'static [u8],
    processors: u32,
    of: &'static [u32],
    end: &'static [u8],
}

const CASES: &[Case] = &[
    Case {
        text: HEAVY_DIAMOND,
        processors: 2,
        of: &[0, 0, 1, 1],
        end: b"end\nprint 3\nchannel 0 1 2\n\
processor 0\nexec 0\nsend 1 0\nexec 1\nsend 1 1\n\
processor 1\nrecv 0 0\nexec 2\nrecv 0 1\nexec 3\nstop\n",
    },
    Case {
        text: DIAMOND,
        processors: 3,
        of: &[0, 0, 0, 0],
        end: b"end\nprint 3\nprocessor 0\nexec 0\nexec 2\nexec 1\nexec 3\n\
processor 1\nprocessor 2\nstop\n",
    },
    Case {
        text: TWO,
        processors: 2,
        of: &[0, 1],
        end: b"end\nprint 0\nprint 1\nprocessor 0\nexec 0\nprocessor 1\nexec 1\nstop\n",
    },
    Case {
        text: ELIMINATION,
        processors: 2,
        of: &[1, 1, 1, 1, 0, 0],
        end: b"end\nprint 5\nprint 3\nchannel 1 0 3\n\
processor 0\nrecv 1 0\nrecv 1 2\nexec 4\nrecv 1 3\nexec 5\n\
processor 1\nexec 0\nsend 0 0\nexec 1\nexec 3\nsend 0 3\nexec 2\nsend 0 2\nstop\n",
    },
    // Blocks go by rising datum. Two tasks on processor 0 read datum 1: it is sent once and received
    // once.
    Case {
        text: FALLING,
        processors: 3,
        of: &[1, 0, 2, 0],
        end: b"end\nchannel 1 0 3\nchannel 1 2 1\n\
processor 0\nrecv 1 0\nrecv 1 1\nrecv 1 2\nexec 1\nexec 3\n\
processor 1\nexec 0\nsend 0 0\nsend 2 0\nsend 0 1\nsend 0 2\n\
processor 2\nrecv 1 0\nexec 2\nstop\n",
    },
];

// The bundle of a program whose tasks are placed so, where they can be.
fn emitted(
    alloc: Global,
    program: &Program,
    placement: &Placement,
) -> Result<Option<Bundle>, AllocError> {
    if placement.processors < 1 || placement.processors > Limits::PROCESSORS {
        return Ok(None);
    }
    if !places_all(program.graph(), placement) {
        return Ok(None);
    }
    let plan = order(alloc, program.graph(), placement)?;
    Ok(Some(emit(alloc, program, placement, &plan)?))
}

impl Case {
    fn placement(&self, alloc: Global) -> Result<Placement, AllocError> {
        let mut of = Vec::new(alloc);
        for number in self.of {
            of.push(ProcId(*number))?;
        }
        Ok(Placement {
            processors: self.processors,
            of: Items::from_vec(of),
        })
    }

    // Whether the bundle of the program, placed so, has a text that ends so.
    fn is_emitted(&self, alloc: Global, program: &Program, placement: &Placement) -> bool {
        match emitted(alloc, program, placement) {
            Ok(Some(bundle)) => prints_at_end(alloc, &bundle, self.end),
            Ok(None) | Err(_) => false,
        }
    }

    fn is_placed(&self, alloc: Global, program: &Program) -> bool {
        match self.placement(alloc) {
            Ok(placement) => self.is_emitted(alloc, program, &placement),
            Err(_) => false,
        }
    }

    fn is_so(&self, alloc: Global) -> bool {
        match program_of(alloc, self.text) {
            Some(program) => self.is_placed(alloc, &program),
            None => false,
        }
    }
}

#[test]
fn emits_blocks_and_channels(rt: HostRuntime) {
    for case in CASES {
        assert!(rt; case.is_so(rt.alloc()));
    }
    emissions_keep_the_meaning();
}
