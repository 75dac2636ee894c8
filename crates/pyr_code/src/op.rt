use pyr_num::Bin;
use sqlite_items::Items;

/// An op of stack code. Words are numbers of 64 bits without a sign.
#[derive(Drop)]
pub enum Op {
    /// Pushes this word.
    Push(u64),
    /// Pushes a local.
    Load(u64),
    /// Pops a word into a local.
    Store(u64),
    /// Pushes the number of the frame that runs.
    Frame,
    /// Pops an index, and pushes the word there of a slot: the inputs are the first slots, and the
    /// outputs follow. The index is taken modulo the length of the slot.
    Get(u64),
    /// Pops a word, then an index, and puts the word there into an output. The index is taken
    /// modulo the length of the output.
    Put(u64),
    /// Pops the right operand, then the left one, and pushes the operator's value.
    Bin(Bin),
    /// Pops `b`, then `a`, then `c`, and pushes `a` where `c` isn't 0, else `b`.
    Sel,
    /// Runs its code so many times; turn `k`, from 0, first sets the local to `k`. A count of 0
    /// leaves the local as it was.
    Loop(u64, u64, Items<Op>),
}
