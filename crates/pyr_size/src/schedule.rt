// The processors of all instructions, block by block.
ghost use Rattle.std.specs.Prelude.{◌≡◌, ◌<◌, ◌++◌, All, IfOk, OnOk, map};
ghost use Rattle.pyr_bundle.specs.Parts.{task_count};
ghost use Rattle.pyr_machine.specs.Schedule.{again};
ghost use Rattle.pyr_size.specs.Blocks.{order_schedule};

use crate::blocks::{Block, blocks_of};
use pyr_bundle::Bundle;
use pyr_num::TaskId;
use std::alloc::{AllocError, Global};

// Appends the processor of a block, once for each of its instructions.
fn push_turns(schedule: &mut Vec<u32>, block: Block) -> Result<(), AllocError>
    ensures { OnOk result (schedule.new.items
        ≡ schedule.old.items ++ again block.size block.processor) }
{
    for _turn in 0..block.size {
        schedule.push(block.processor)?;
    }
    Ok(())
}

/// The processors of all instructions, block by block, the tasks in this order.
pub(crate) fn schedule_of(
    alloc: Global,
    bundle: &Bundle,
    order: &[TaskId],
) -> Result<Vec<u32>, AllocError>
    requires known { All (λ t. t.0 < task_count bundle.now) order.now }
    ensures { IfOk result (λ schedule.
        schedule.items ≡ order_schedule bundle.now (map (λ t. t.0) order.now)) }
{
    let blocks = blocks_of(alloc, bundle)?;
    let mut schedule = Vec::new(alloc);
    for task in order {
        push_turns(&mut schedule, blocks[task.0 as usize])?;
    }
    Ok(schedule)
}
