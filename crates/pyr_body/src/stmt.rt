// Statements.
use crate::Expr;
use sqlite_items::Items;

/// A statement.
#[derive(Drop)]
pub enum Stmt {
    /// Sets a local to the value of an expression.
    Set(u32, Expr),
    /// `Put(output, index, value)` sets a word of an output, numbered from 0. The index is taken
    /// modulo the length of the output.
    Put(u32, Expr, Expr),
    /// `For(local, count, statements)` makes so many turns; turn `k`, from 0, first sets the local
    /// to `k`. A count of 0 leaves the local as it was.
    For(u32, u64, Items<Stmt>),
}
