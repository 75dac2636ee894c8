// Why a line was not read.
use std::alloc::AllocFailed;

/// Why a line was not read.
#[derive(Clone, Copy, Debug, PartialEq, Eq)]
pub enum LexFault {
    /// Something stands in the line that is no token, no blank and no comment at its end.
    BadText {
        /// The number of the line, as it was handed in.
        line: u32,
    },
    /// Memory ran out.
    Memory,
}

impl<T: Drop> From<AllocFailed<T>> for LexFault {
    ghost use Rattle.std.specs.Prelude.{◌≡◌};
    ghost use Rattle.pyr_lex.specs.declared.lex_fault.LexFault.TheVariants.{Memory};

    ghost from_gives = { λ _ e. e ≡ Memory };

    fn from(_failed: AllocFailed<T>) -> LexFault {
        LexFault::Memory
    }
}
