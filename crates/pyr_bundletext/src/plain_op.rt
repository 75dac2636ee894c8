// The ops that stand in one line.
ghost use Rattle.std.specs.Prelude.{◌≡◌};
ghost use Rattle.pyr_bundletext.specs.Earlier.{plain_op};

use pyr_code::Op;
use pyr_num::Bin;

/// An op that is no loop, with the numbers of its line.
#[derive(Clone, Copy)]
pub enum PlainOp {
    /// `push`: the word.
    Push(u64),
    /// `load`: the local.
    Load(u64),
    /// `store`: the local.
    Store(u64),
    /// `frame`
    Frame,
    /// `get`: the slot.
    Get(u64),
    /// `put`: the output.
    Put(u64),
    /// An operator.
    Bin(Bin),
    /// `sel`
    Sel,
}

impl PlainOp {
    /// The op.
    pub fn op(self) -> Op
        ensures { result ≡ plain_op self }
    {
        match self {
            PlainOp::Push(word) => Op::Push(word),
            PlainOp::Load(local) => Op::Load(local),
            PlainOp::Store(local) => Op::Store(local),
            PlainOp::Frame => Op::Frame,
            PlainOp::Get(slot) => Op::Get(slot),
            PlainOp::Put(output) => Op::Put(output),
            PlainOp::Bin(operator) => Op::Bin(operator),
            PlainOp::Sel => Op::Sel,
        }
    }
}
