// What is wrong with a line.
ghost use Rattle.std.specs.Prelude.{◌≡◌};

use crate::{NameKind, ProgramFault};
use pyr_body::LineFault as BodyFault;
use pyr_num::{Name, Quantity};
use std::alloc::{AllocError, AllocFailed};

/// What is wrong with a line.
#[derive(Clone, Copy)]
pub enum LineFault {
    /// It is no line that may stand here.
    Text,
    /// It passes a limit.
    Limit {
        /// The limit.
        which: Quantity,
    },
    /// A name may not stand here.
    Names {
        /// Why not.
        kind: NameKind,
        /// The name.
        name: Name,
    },
    /// Memory ran out.
    Memory,
}

impl LineFault {
    ghost use Rattle.pyr_graphtext.specs.Placed.{placed};

    /// The fault of the line with this number.
    pub fn at_line(self, line: u32) -> ProgramFault
        ensures { result ≡ placed line self }
    {
        match self {
            LineFault::Text => ProgramFault::BadText { line },
            LineFault::Limit { which } => ProgramFault::Limit { line, which },
            LineFault::Names { kind, name } => ProgramFault::Names { line, kind, name },
            LineFault::Memory => ProgramFault::Memory,
        }
    }
}

impl From<AllocError> for LineFault {
    ghost use Rattle.pyr_graphtext.specs.declared.line_fault.LineFault.TheVariants.{Memory};

    ghost from_gives = { λ _ fault. fault ≡ Memory };

    fn from(_error: AllocError) -> Self {
        LineFault::Memory
    }
}

impl<T: Drop> From<AllocFailed<T>> for LineFault {
    ghost use Rattle.pyr_graphtext.specs.declared.line_fault.LineFault.TheVariants.{Memory};

    ghost from_gives = { λ _ fault. fault ≡ Memory };

    fn from(_failed: AllocFailed<T>) -> Self {
        LineFault::Memory
    }
}

impl From<BodyFault> for LineFault {
    ghost use Rattle.pyr_graphtext.specs.BodyFaults.{told_by_body};

    ghost from_gives = { λ fault told. told ≡ told_by_body fault };

    fn from(fault: BodyFault) -> Self {
        match fault {
            BodyFault::Text => LineFault::Text,
            BodyFault::Limit { which } => LineFault::Limit { which },
            BodyFault::Unknown { name } => LineFault::Names {
                kind: NameKind::Unknown,
                name,
            },
            BodyFault::Memory => LineFault::Memory,
        }
    }
}
