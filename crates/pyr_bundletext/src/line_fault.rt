// What is wrong with a line.
ghost use Rattle.std.specs.Prelude.{◌≡◌};

use crate::BundleTextFault;
use pyr_num::Quantity;
use std::alloc::{AllocError, AllocFailed};

/// What is wrong with a line.
#[derive(Clone, Copy)]
pub enum LineFault {
    /// It is no line that may stand here.
    Text,
    /// It passes a limit.
    Limit {
        /// The limit.
        which: Quantity,
    },
    /// Memory ran out.
    Memory,
}

impl LineFault {
    ghost use Rattle.pyr_bundletext.specs.Tells.{placed};

    /// The fault of the line with this number.
    pub fn at_line(self, line: u32) -> BundleTextFault
        ensures { result ≡ placed line self }
    {
        match self {
            LineFault::Text => BundleTextFault::BadText { line },
            LineFault::Limit { which } => BundleTextFault::Limit { line, which },
            LineFault::Memory => BundleTextFault::Memory,
        }
    }
}

impl From<AllocError> for LineFault {
    ghost use Rattle.pyr_bundletext.specs.declared.line_fault.LineFault.TheVariants.{Memory};

    ghost from_gives = { λ _ fault. fault ≡ Memory };

    fn from(_error: AllocError) -> Self {
        LineFault::Memory
    }
}

impl<T: Drop> From<AllocFailed<T>> for LineFault {
    ghost use Rattle.pyr_bundletext.specs.declared.line_fault.LineFault.TheVariants.{Memory};

    ghost from_gives = { λ _ fault. fault ≡ Memory };

    fn from(_failed: AllocFailed<T>) -> Self {
        LineFault::Memory
    }
}
