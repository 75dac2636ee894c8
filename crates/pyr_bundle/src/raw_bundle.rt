ghost use Rattle.std.specs.Prelude.{◌≡◌};

use crate::{RawChannel, RawDatum, RawInstr, RawTask};
use sqlite_items::Items;

/// The parts of a bundle as they are handed in: numbers that name data, tasks and processors may
/// name none.
#[derive(Drop)]
pub struct RawBundle {
    pub datums: Items<RawDatum>,
    pub tasks: Items<RawTask>,
    /// The numbers of the printed data.
    pub prints: Items<u64>,
    pub channels: Items<RawChannel>,
    /// One list of instructions for each processor.
    pub code: Items<Items<RawInstr>>,
}

impl RawBundle {
    /// The data alone.
    pub(crate) fn into_datums(self) -> Items<RawDatum>
        ensures { result ≡ self.datums }
    {
        self.datums
    }
}
