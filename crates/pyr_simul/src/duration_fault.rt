// Why lines of durations are refused.
ghost use Rattle.std.specs.Prelude.{◌≡◌};

use pyr_graphtext::NameKind;
use pyr_num::{Name, Quantity};
use std::alloc::AllocError;
use thiserror::Error;

/// Why lines of durations are refused: the fault of the first faulty line, whatever follows it. Lines
/// have the numbers of the whole input.
#[derive(Debug, Drop, Error)]
pub enum DurationFault {
    /// It is no line of durations.
    #[error("a line gives no duration")]
    BadText {
        /// The number of the line.
        line: u32,
    },
    /// A duration passes its limit.
    #[error("a line passes a limit")]
    Limit {
        /// The number of the line.
        line: u32,
        /// The limit: `Quantity::Time` or `Quantity::Delay`.
        which: Quantity,
    },
    /// The program has no task, or no datum, of this name, or an earlier line of the kind has it.
    #[error("a name can't stand where it stands")]
    Names {
        /// The number of the line.
        line: u32,
        /// Why not.
        kind: NameKind,
        /// The name.
        name: Name,
    },
    /// Memory ran out. This may come in the place of any other answer.
    #[error("memory ran out")]
    Memory,
}

impl From<AllocError> for DurationFault {
    ghost use Rattle.pyr_simul.specs.declared.duration_fault.DurationFault.TheVariants.{Memory};

    ghost from_gives = { λ _ fault. fault ≡ Memory };

    fn from(_error: AllocError) -> Self {
        DurationFault::Memory
    }
}
