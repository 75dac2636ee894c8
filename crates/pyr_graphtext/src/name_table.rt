// Names by first sight.
ghost use Rattle.std.specs.Prelude.{◌≡◌, ◌+◌, ◌<◌, ◌≤◌, ◌^◌, [], not, length, IfOk, OnOk};
ghost use Rattle.pyr_graphtext.specs.Statements.{is_among, place_of, with_name};

use indexmap::IndexSet;
use pyr_num::Name;
use std::alloc::{AllocError, Global};
use std::marker::Model;

/// Names, each once, with the numbers of the order in which they were first seen. Contracts see the
/// list of the names in that order. A name is found by its hash.
#[derive(Drop)]
pub struct NameTable {
    names: IndexSet<Name>,
}

impl Model for NameTable {
    ghost use Rattle.std.specs.Prelude.{ℕ, List};

    ghost Value = { List (List ℕ) };

    ghost view = { λ t. t.names.keys };
}

impl NameTable {
    /// No name. It takes no memory.
    pub fn new(alloc: Global) -> NameTable
        ensures { result ≡ [] }
    {
        NameTable {
            names: IndexSet::new(alloc),
        }
    }

    /// The number of names.
    pub fn len(&self) -> usize
        ensures exact { result ≡ length self.now }
        ensures small { result < 2 ^ 63 }
    {
        self.names.len()
    }

    /// Whether the name is one of these.
    pub fn contains(&self, name: Name) -> bool
        ensures { result ≡ is_among self.now name }
    {
        self.names.contains(&name)
    }

    /// The number of the name, and how many names there are where it isn't one of them.
    pub fn place_of(&self, name: Name) -> usize
        ensures exact { result ≡ place_of self.now name }
        ensures within { result ≤ length self.now }
    {
        self.names.get_index_of(&name).unwrap_or(self.names.len())
    }

    /// Adds the name, unless it is there; answers whether it was new.
    pub fn insert(&mut self, name: Name) -> Result<bool, AllocError>
        ensures new { IfOk result (λ added. added ≡ not (is_among self.old name)) }
        ensures names { OnOk result (self.new ≡ with_name self.old name) }
        ensures grows { length self.new ≤ length self.old + 1 }
    {
        let (_, added) = self.names.insert_full(name)?;
        Ok(added)
    }

    /// The names, in their order.
    pub fn as_slice(&self) -> &[Name]
        ensures { result.now ≡ self.now }
    {
        self.names.as_slice()
    }

    /// The names, in their order.
    pub fn to_names(&self, alloc: Global) -> Result<Vec<Name>, AllocError>
        ensures { IfOk result (λ names. names.items ≡ self.now) }
    {
        self.names.as_slice().to_vec(alloc)
    }
}
