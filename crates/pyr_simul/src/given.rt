// The durations that lines give, by number.
ghost use Rattle.std.specs.Prelude.{◌≡◌, ◌≤◌, IfOk, OnOk, None, Some, length, replicate, slice_index_or, slice_set};
ghost use Rattle.pyr_graphtext.specs.Statements.{is_among, place_of};
ghost use Rattle.pyr_simul.specs.Reading.{number_fault};
ghost use Rattle.pyr_simul.specs.Taking.{Tells};

use crate::DurationFault;
use pyr_graphtext::{NameKind, NameTable};
use pyr_num::{Name, Quantity};
use std::alloc::{AllocError, Global};

/// The numbers that lines give to the tasks of a program, or to its data; at most one to each.
#[derive(Drop)]
pub(crate) struct Given {
    /// The names, in the order of their numbers.
    pub names: NameTable,
    /// What is given to each.
    pub numbers: Vec<Option<u64>>,
}

impl Given {
    /// Nothing is given to these names.
    pub fn new(alloc: Global, names: NameTable) -> Result<Given, AllocError>
        ensures names { IfOk result (λ given. given.names ≡ names) }
        ensures numbers { IfOk result (λ given. given.numbers.items
            ≡ replicate (length names) None) }
    {
        let numbers = vec![in alloc; None; names.len()]?;
        Ok(Given { names, numbers })
    }

    /// Has a line give a number to a name.
    pub fn give(
        &mut self,
        line: u32,
        which: Quantity,
        most: u32,
        name: Name,
        number: u64,
    ) -> Result<(), DurationFault>
        requires { length self.old.numbers.items ≡ length self.old.names }
        ensures fault { Tells result (number_fault line which most self.old.names
            (slice_index_or self.old.numbers.items (place_of self.old.names name) None)
            name number) }
        ensures names { self.new.names ≡ self.old.names }
        ensures full { length self.new.numbers.items ≡ length self.new.names }
        ensures numbers { OnOk result (self.new.numbers.items
            ≡ slice_set self.old.numbers.items (place_of self.old.names name) (Some number)) }
    {
        if number > u64::from(most) {
            return Err(DurationFault::Limit { line, which });
        }
        if !self.names.contains(name) {
            return Err(DurationFault::Names {
                line,
                kind: NameKind::Unknown,
                name,
            });
        }
        let at = self.names.place_of(name);
        if self.numbers[at].is_some() {
            return Err(DurationFault::Names {
                line,
                kind: NameKind::Duplicate,
                name,
            });
        }
        self.numbers[at] = Some(number);
        Ok(())
    }
}
