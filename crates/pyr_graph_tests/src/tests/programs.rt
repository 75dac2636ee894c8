// Graph texts of the tests, and what they stand for.
use pyr_graphtext::{Program, ProgramFault, read_program};
use pyr_num::Limits;
use std::alloc::Global;
use std::process::Abort;

// A diamond whose tasks in the middle are heavy.
pub(crate) const HEAVY: &str = "data x 1 1
data y 1 1
data z 1 1
data w 1 0
task a 2
writes x
end
task b 10
reads x
writes y
end
task c 10
reads x
writes z
end
task d 1
reads y z
writes w
end
";

pub(crate) const ELIMINATION: &str = "data c0 3 6
data c1 3 2
data c2 3 2
data d1 3 4
data d2 3 3
data e2 3 0
task l0 1
writes c0
end
task l1 1
writes c1
end
task l2 1
writes c2
end
task u01 6
reads c0 c1
writes d1
end
task u02 6
reads c0 c2
writes d2
end
task u12 6
reads d1 d2
writes e2
end
";

// `x` is free once `a` has run, and `y` then waits for `b` alone.
pub(crate) const PARTLY_FREE: &str = "data p 1 10
data q 1 6
data r 1 1
task a 2
writes p q
end
task x 16
reads q
end
task b 1
writes r
end
task y 20
reads p r
end
";

// The program of a text.
pub(crate) fn program_of(
    rt: &impl Abort,
    alloc: Global,
    text: &str,
) -> Result<Program, ProgramFault> {
    let text = text.as_bytes();
    assert!(rt; text.len() <= Limits::INPUT);
    read_program(alloc, text)
}
