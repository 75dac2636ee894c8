// Open loops.
use crate::Stmt;
use sqlite_items::Items;

/// A loop whose `done` hasn't come.
#[derive(Drop)]
pub struct OpenLoop {
    /// The statements before it, in the list that it stands in.
    pub before: Items<Stmt>,
    /// Its local.
    pub local: u32,
    /// Its count of turns.
    pub count: u64,
}
