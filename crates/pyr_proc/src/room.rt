// The memory that the tasks of one processor need to be executed.
ghost use Rattle.std.specs.Prelude.{◌<◌, length};
ghost use Rattle.pyr_bundle.specs.Parts.{processor_count, code_at};
ghost use Rattle.pyr_proc.specs.Fitted.{HasRoom};
ghost use Rattle.pyr_proc.specs.Making.{IsKnown, HasRoomFor};

use pyr_bundle::{Bundle, Instr};
use pyr_machine::{Room, room_for};
use pyr_num::ProcId;

// The room that an instruction needs, which is some for an execution alone.
fn room_at(bundle: &Bundle, instr: Instr) -> Room
    requires { IsKnown bundle.now instr }
    ensures { HasRoomFor bundle.now instr result.slots result.words }
{
    match instr {
        Instr::Exec { task } => room_for(bundle, task),
        Instr::Recv { .. } | Instr::Send { .. } => Room { slots: 0, words: 0 },
    }
}

/// The room that every task which a processor executes finds enough.
pub fn room_of(bundle: &Bundle, p: ProcId) -> Room
    requires { p.0 < processor_count bundle.now }
    ensures { HasRoom bundle.now p.0 (length (code_at bundle.now p.0)) result.slots result.words }
{
    bundle.well_formed();
    let mut room = Room { slots: 0, words: 0 };
    for instr in bundle.code(p) {
        let more = room_at(bundle, *instr);
        room = Room {
            slots: room.slots.max(more.slots),
            words: room.words.max(more.words),
        };
    }
    room
}
