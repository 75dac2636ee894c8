// Why lines are refused.
use pyr_num::{Name, Quantity};
use std::alloc::AllocError;

/// Why a line, or the end of a body, is refused.
#[derive(Clone, Copy, Debug, PartialEq, Eq)]
pub enum LineFault {
    /// The tokens are no line here.
    Text,
    /// A limit is passed.
    Limit {
        /// The limit.
        which: Quantity,
    },
    /// A name stands for nothing here.
    Unknown {
        /// The first such name from the left.
        name: Name,
    },
    /// Memory ran out.
    Memory,
}

impl From<AllocError> for LineFault {
    ghost use Rattle.std.specs.Prelude.{◌≡◌};
    ghost use Rattle.pyr_body.specs.declared.line_fault.LineFault.TheVariants.{Memory};

    ghost from_gives = { λ _ fault. fault ≡ Memory };

    fn from(_error: AllocError) -> Self {
        LineFault::Memory
    }
}
