// Lines with their names.
use crate::written_expr::WrittenExpr;
use pyr_num::Name;

/// A line of a body as it is written, with names in the place of numbers.
#[derive(Drop)]
pub enum WrittenLine {
    /// A local and its value.
    Set(Name, WrittenExpr),
    /// An output, an index and a value.
    Put(Name, WrittenExpr, WrittenExpr),
    /// A local and the count of a loop, which it opens.
    For(Name, u64),
    /// The end of the innermost open loop.
    Done,
}
