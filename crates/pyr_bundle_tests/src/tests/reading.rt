// From a text to a bundle, and back.
use crate::tests::texts::with_lines;
use pyr_bundle::{Bundle, BundleFault};
use pyr_bundletext::{BundleTextFault, print_bundle, read_bundle};
use pyr_loader::{LoadFault, load};
use pyr_machine::Loaded;
use pyr_num::{Limits, Quantity};
use std::alloc::Global;

// Why a text is that of no bundle.
#[derive(Clone, Copy, PartialEq, Eq)]
pub(crate) enum Refusal {
    Text(u32),
    Limit(u32, Quantity),
    Law(u32, u64, u64),
    Memory,
}

fn refusal_of_text(fault: BundleTextFault) -> Refusal {
    match fault {
        BundleTextFault::BadText { line } => Refusal::Text(line),
        BundleTextFault::Limit { line, which } => Refusal::Limit(line, which),
        BundleTextFault::Memory => Refusal::Memory,
    }
}

fn refusal_of_bundle(fault: BundleFault) -> Refusal {
    match fault {
        BundleFault::Law { number, a, b } => Refusal::Law(number, a, b),
        BundleFault::Memory => Refusal::Memory,
    }
}

// The bundle that has this text.
pub(crate) fn bundle_of(alloc: Global, text: &[u8]) -> Result<Bundle, Refusal> {
    if text.len() > Limits::INPUT {
        return Err(Refusal::Limit(0, Quantity::Input));
    }
    match read_bundle(alloc, text) {
        Ok(raw) => Bundle::build(alloc, raw).map_err(refusal_of_bundle),
        Err(fault) => Err(refusal_of_text(fault)),
    }
}

// The same, loaded.
pub(crate) fn loaded_of(alloc: Global, text: &[u8]) -> Result<Loaded, LoadFault> {
    if text.len() > Limits::INPUT {
        return Err(LoadFault::Memory);
    }
    load(alloc, text)
}

// Whether the printed text of a bundle ends so.
pub(crate) fn prints_at_end(alloc: Global, bundle: &Bundle, end: &[u8]) -> bool {
    match print_bundle(alloc, bundle) {
        Ok(text) => text.ends_with(end),
        Err(_) => false,
    }
}

// Why the text, with these bytes in the place of some of its lines, is refused.
pub(crate) fn refusal_with(
    alloc: Global,
    text: &[u8],
    first: u32,
    last: u32,
    bytes: &[u8],
) -> Option<Refusal> {
    match with_lines(alloc, text, first, last, bytes) {
        Ok(edited) => bundle_of(alloc, &edited).err(),
        Err(_) => Some(Refusal::Memory),
    }
}
