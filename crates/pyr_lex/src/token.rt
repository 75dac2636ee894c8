// The tokens of a line.
use crate::{Symbol, Word};
use pyr_num::Name;

/// The least part of a line that has a meaning.
#[derive(Clone, Copy, Debug, PartialEq, Eq)]
pub enum Token {
    /// A name of a datum, a task or a local.
    Name(Name),
    /// A decimal number without leading zeros, below 2^64.
    Number(u64),
    /// A reserved word.
    Word(Word),
    /// A bracket, an operator or a sign.
    Symbol(Symbol),
}
