// Expressions.
use pyr_num::Bin;
use sqlite_items::Boxed;

/// An expression. Its value is one word, a number of 64 bits without a sign.
#[derive(Drop)]
pub enum Expr {
    /// This word.
    Num(u64),
    /// The word of a local.
    Local(u32),
    /// The number of the frame that runs.
    Frame,
    /// The word of a slot at an index: the data that the task reads are the first slots, and those
    /// that it writes follow. The index is taken modulo the length of the slot.
    Get(u32, Boxed<Expr>),
    /// The operator's value.
    Bin(Bin, Boxed<Expr>, Boxed<Expr>),
    /// `Sel(c, a, b)` is `a` where `c` isn't 0, else `b`. All three are evaluated.
    Sel(Boxed<Expr>, Boxed<Expr>, Boxed<Expr>),
}
