ghost use Rattle.std.specs.Prelude.{◌≡◌};

use std::alloc::{AllocError, AllocFailed};

/// Why there is no bundle.
#[derive(Clone, Copy, Debug, PartialEq, Eq)]
pub enum BundleFault {
    /// A law is broken: the smallest one, at its first place (a, b) in rising order.
    Law { number: u32, a: u64, b: u64 },
    /// There was no memory left. This may come in the place of any other answer.
    Memory,
}

impl From<AllocError> for BundleFault {
    ghost use Rattle.std.specs.Prelude.{◌≡◌};
    ghost use Rattle.pyr_bundle.specs.declared.bundle_fault.BundleFault.TheVariants.{Memory};

    ghost from_gives = { λ _ e. e ≡ Memory };

    fn from(_error: AllocError) -> BundleFault {
        BundleFault::Memory
    }
}

impl<T: Drop> From<AllocFailed<T>> for BundleFault {
    ghost use Rattle.std.specs.Prelude.{◌≡◌};
    ghost use Rattle.pyr_bundle.specs.declared.bundle_fault.BundleFault.TheVariants.{Memory};

    ghost from_gives = { λ _ e. e ≡ Memory };

    fn from(_error: AllocFailed<T>) -> BundleFault {
        BundleFault::Memory
    }
}

impl BundleFault {
    /// The law of this number is broken at (a, b).
    pub(crate) fn law(number: u32, a: usize, b: usize) -> BundleFault
        ensures { result ≡ BundleFault.Law number a b }
    {
        BundleFault::Law {
            number,
            a: a as u64,
            b: b as u64,
        }
    }
}
