use pyr_num::Words;

/// The words of a datum, and whether they are in the store. Where they aren't, the list is one that
/// the task which writes the datum will fill, or empty.
#[derive(Drop)]
pub struct Entry {
    pub held: bool,
    pub words: Words,
}
