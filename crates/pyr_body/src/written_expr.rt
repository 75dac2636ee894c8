// Expressions with their names.
use pyr_num::{Bin, Name};
use sqlite_items::Boxed;

/// An expression as it is written, with names in the place of numbers.
#[derive(Drop)]
pub enum WrittenExpr {
    /// A number.
    Num(u64),
    /// A local.
    Local(Name),
    /// The number of the frame.
    Frame,
    /// A word of a datum.
    Get(Name, Boxed<WrittenExpr>),
    /// An operator and its operands.
    Bin(Bin, Boxed<WrittenExpr>, Boxed<WrittenExpr>),
    /// A choice.
    Sel(Boxed<WrittenExpr>, Boxed<WrittenExpr>, Boxed<WrittenExpr>),
}
