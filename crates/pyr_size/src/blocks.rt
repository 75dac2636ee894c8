// The blocks of the tasks.
ghost use Rattle.std.specs.Prelude.{◌≡◌, ◌<◌, ◌≤◌, ℕ, Some, length, slice_get, IfOk};
ghost use Rattle.pyr_num.specs.declared.ids.TaskId.{TaskId as Task};
ghost use Rattle.pyr_num.specs.declared.limits.TheConstants.Limits.{INSTRUCTIONS};
ghost use Rattle.pyr_bundle.specs.declared.instr.Instr.TheVariants.{Exec};
ghost use Rattle.pyr_size.specs.Blocks.{leading_sends, noted, AreBlocks};

use pyr_bundle::{Bundle, Instr};
use pyr_num::ProcId;
use std::alloc::{AllocError, Global};

/// Where the block of a task stands: its processor, and how many instructions it has.
#[derive(Clone, Copy)]
pub(crate) struct Block {
    pub processor: u32,
    pub size: u32,
}

// How many sends these instructions begin with.
fn leading_sends(code: &[Instr]) -> u32
    requires { length code.now ≤ INSTRUCTIONS }
    ensures count { result ≡ leading_sends code.now }
    ensures few { result ≤ length code.now }
{
    let mut count = 0;
    for instr in code {
        let Instr::Send { .. } = instr else {
            return count;
        };
        count += 1;
    }
    count
}

// Notes the blocks of the tasks that a processor executes.
fn note_blocks(blocks: &mut [Block], code: &[Instr], p: u32)
    requires few { length code.now ≤ INSTRUCTIONS }
    requires known { (i : ℕ) (t : Task) → slice_get code.now i ≡ Some (Exec t)
        → t.0 < length blocks.old }
    ensures { blocks.new ≡ noted p 0 code.now blocks.old }
{
    let mut receives = 0;
    for (i, instr) in code.iter().enumerate() {
        match instr {
            Instr::Recv { .. } => receives += 1,
            Instr::Exec { task } => {
                blocks[task.0 as usize] = Block {
                    processor: p,
                    size: receives + 1 + leading_sends(&code[i + 1..]),
                };
                receives = 0;
            }
            Instr::Send { .. } => receives = 0,
        }
    }
}

/// The block of each task.
pub(crate) fn blocks_of(alloc: Global, bundle: &Bundle) -> Result<Vec<Block>, AllocError>
    ensures { IfOk result (λ blocks. AreBlocks bundle.now blocks.items) }
{
    bundle.well_formed();
    let none = Block {
        processor: 0,
        size: 0,
    };
    let mut blocks = vec![in alloc; none; bundle.task_count() as usize]?;
    for p in 0..bundle.processors() {
        note_blocks(&mut blocks, bundle.code(ProcId(p)), p);
    }
    Ok(blocks)
}
