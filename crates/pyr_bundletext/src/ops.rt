// Writing the code of a task.
ghost use Rattle.std.specs.Prelude.{◌≡◌, ◌++◌, OnOk};
ghost use Rattle.pyr_code.specs.Seen.{op_of, code_of};
ghost use Rattle.pyr_bundletext.specs.Text.{op_text, code_text};
ghost use Rattle.pyr_bundletext.specs.Spelled.{IsSpelledOp, IsSpelledCode};

use crate::keyword::operator_word;
use crate::lines::put_line;
use pyr_code::Op;
use std::alloc::AllocError;

#[cycle(ops)]
pub(crate) fn put_ops(text: &mut Vec<u8>, ops: &[Op]) -> Result<(), AllocError>
    ensures text { OnOk result (text.new.items ≡ text.old.items ++ code_text (code_of ops.now)) }
    ensures words { OnOk result (IsSpelledCode (code_of ops.now)) }
{
    for op in ops {
        put_op(text, op)?;
    }
    Ok(())
}

#[cycle(ops)]
fn put_op(text: &mut Vec<u8>, op: &Op) -> Result<(), AllocError>
    ensures text { OnOk result (text.new.items ≡ text.old.items ++ op_text (op_of op.now)) }
    ensures words { OnOk result (IsSpelledOp (op_of op.now)) }
{
    match op {
        Op::Push(word) => put_line(text, b"push", &[*word]),
        Op::Load(local) => put_line(text, b"load", &[*local]),
        Op::Store(local) => put_line(text, b"store", &[*local]),
        Op::Frame => put_line(text, b"frame", &[]),
        Op::Get(slot) => put_line(text, b"get", &[*slot]),
        Op::Put(output) => put_line(text, b"put", &[*output]),
        Op::Bin(operator) => put_line(text, operator_word(*operator), &[]),
        Op::Sel => put_line(text, b"sel", &[]),
        Op::Loop(local, count, turn) => {
            put_line(text, b"loop", &[*local, *count])?;
            put_ops(text, turn.as_slice())?;
            put_line(text, b"done", &[])
        }
    }
}
