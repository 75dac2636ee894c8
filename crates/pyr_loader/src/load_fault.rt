// Why no bundle is loaded.
ghost use Rattle.std.specs.Prelude.{◌≡◌};

use crate::stop::Stop;
use pyr_bundle::BundleFault;
use pyr_bundletext::BundleTextFault;
use pyr_num::{DatumId, ProcId, Quantity};
use sqlite_items::Items;
use std::alloc::AllocError;
use thiserror::Error;

/// Why a text is that of no bundle that can be run. Of several faults the first in this list is
/// told.
#[derive(Debug, Drop, Error)]
pub enum LoadFault {
    /// A line is none that may stand there, isn't ended by a line feed, or is missing; or bytes
    /// follow the last line. The first faulty line is told.
    #[error("a line can't stand where it stands")]
    BadText {
        /// The number of the line, from 1.
        line: u32,
    },
    /// A line passes a limit, and it is the first faulty line.
    #[error("a line passes a limit")]
    Limit {
        /// The number of the line, from 1.
        line: u32,
        /// The limit: of several limits the one that `Quantity` lists first.
        which: Quantity,
    },
    /// A law of bundles is broken: the smallest one, at its first place (a, b) in rising order.
    #[error("the bundle breaks a law")]
    Law {
        /// The number of the law, from 1.
        number: u32,
        /// The first number of the place.
        a: u64,
        /// The second number of the place.
        b: u64,
    },
    /// No run reaches an end. All longest runs stop in one state.
    #[error("the processors get stuck")]
    Stuck {
        /// Where each processor stands then, in the order of their numbers, and why.
        processors: Items<Stop>,
    },
    /// Every longest run reaches the end of all code, but a parcel is left in a channel or a stash.
    /// It is that of the first such send by sender, receiver and place in the sender's code.
    #[error("a parcel is left")]
    Leftover {
        /// The sender.
        from: ProcId,
        /// The receiver.
        to: ProcId,
        /// The datum of the parcel.
        datum: DatumId,
    },
    /// Memory ran out. This may come in the place of any other answer.
    #[error("memory ran out")]
    Memory,
}

impl From<BundleTextFault> for LoadFault {
    ghost use Rattle.pyr_loader.specs.Told.{told_text};

    ghost from_gives = { λ fault told. told ≡ told_text fault };

    fn from(fault: BundleTextFault) -> Self {
        match fault {
            BundleTextFault::BadText { line } => LoadFault::BadText { line },
            BundleTextFault::Limit { line, which } => LoadFault::Limit { line, which },
            BundleTextFault::Memory => LoadFault::Memory,
        }
    }
}

impl From<BundleFault> for LoadFault {
    ghost use Rattle.pyr_loader.specs.Told.{told_law};

    ghost from_gives = { λ fault told. told ≡ told_law fault };

    fn from(fault: BundleFault) -> Self {
        match fault {
            BundleFault::Law { number, a, b } => LoadFault::Law { number, a, b },
            BundleFault::Memory => LoadFault::Memory,
        }
    }
}

impl From<AllocError> for LoadFault {
    ghost use Rattle.pyr_loader.specs.declared.load_fault.LoadFault.TheVariants.{Memory};

    ghost from_gives = { λ _ told. told ≡ Memory };

    fn from(_error: AllocError) -> Self {
        LoadFault::Memory
    }
}
