ghost use Rattle.std.specs.Prelude.{◌≡◌, ◌<◌, ◌≤◌, IfOk};
ghost use Rattle.pyr_graphtext.specs.Canonical.{program_text};
ghost use Rattle.pyr_make.specs.Layered.{layered_program};

use pyr_graphtext::print_program;
use pyr_make::make;
use pyr_num::Limits;
use std::alloc::{AllocError, Global};
use std::test::Fail;

// The text of the program of so many tasks. Nothing is asked of its length.
fn printed(alloc: Global, tasks: u32) -> Result<Vec<u8>, AllocError>
    requires some { 0 < tasks }
    requires few { tasks ≤ Limits.TASKS }
    ensures { IfOk result (λ text. text.items ≡ program_text (layered_program tasks)) }
{
    print_program(alloc, &make(alloc, tasks)?)
}

// The lines of tasks whose predecessors stand the other way round, or are one.
const TASK_LINES: &[&str] = &[
    "task t127 44
reads d60 d63
writes d127
put d127[0] = ((d63[0] * 3) + (d60[0] + 127))
end
",
    "task t271 37
reads d207
writes d271
put d271[0] = ((d207[0] * 3) + (d207[0] + 271))
end
print d256
",
];

#[test]
fn reads_rise_and_stand_once(rt: HostRuntime) -> Result<(), Fail> {
    let text = printed(rt.alloc(), 272)?;
    let text = str::from_utf8(text.as_slice()).unwrap_or("?");
    for lines in TASK_LINES {
        assert!(rt; text.contains(lines));
    }
    Ok(())
}

#[test]
fn the_greatest_program_is_printed(rt: HostRuntime) -> Result<(), Fail> {
    let text = printed(rt.alloc(), Limits::TASKS)?;
    assert_eq!(rt; text.len(), 466_051);
    Ok(())
}
