// A parcel that goes into a list, or out of one.
ghost use Rattle.std.specs.Prelude.{◌≡◌, ◌++◌, OnOk};
ghost use Rattle.pyr_calm.specs.Passages.{passage_by};

use pyr_net::Action;
use std::alloc::AllocError;

/// A parcel that goes into the list from one actor to another, or out of it.
#[derive(Clone, Copy)]
pub enum Passage {
    /// The actor `from` sends a parcel to the actor `to`.
    Send { from: u32, to: u32 },
    /// The actor `to` takes a parcel that comes from the actor `from`.
    Take { from: u32, to: u32 },
}

// Writes down what goes into a list or out of one where actor p does this.
pub(crate) fn note(passages: &mut Vec<Passage>, p: u32, action: Action) -> Result<(), AllocError>
    ensures { OnOk result (passages.new.items ≡ passages.old.items ++ passage_by p action) }
{
    match action {
        Action::Send { to } => passages.push(Passage::Send { from: p, to })?,
        Action::Take { from } => passages.push(Passage::Take { from, to: p })?,
        Action::Internal | Action::Ended | Action::Lacks => {}
    }
    Ok(())
}
