// How far the lines of a task have come.
ghost use Rattle.std.specs.Prelude.{◌≡◌, ◌≤◌, Ok, IfOk, length};
ghost use Rattle.pyr_body.specs.Taking.{no_lines};
ghost use Rattle.pyr_graphtext.specs.State.{stage_of_part, reads_in, reader_of};

use crate::stage::Stage;
use pyr_body::{BodyReader, SlotNames};
use pyr_num::{Limits, NameList};
use sqlite_items::Items;
use std::alloc::{AllocError, Global};

/// How far the lines of a task have come, and what the lines of its body need.
#[derive(Drop)]
pub enum OpenPart {
    /// The line `task` alone.
    AfterTask,
    /// The line `reads`, with these names.
    AfterReads(NameList),
    /// The line `writes`, or lines of the body.
    InBody(BodyReader),
}

impl OpenPart {
    /// Where the next line stands.
    pub fn stage(&self) -> Stage
        ensures { result ≡ stage_of_part self.now }
    {
        match self {
            OpenPart::AfterTask => Stage::AfterTask,
            OpenPart::AfterReads(_) => Stage::AfterReads,
            OpenPart::InBody(_) => Stage::InBody,
        }
    }

    /// The names of the data that the body reads, where its lines haven't come.
    pub fn into_read_names(self, alloc: Global) -> NameList
        ensures { result ≡ reads_in self }
    {
        match self {
            OpenPart::AfterReads(names) => names,
            _ => Items::new(alloc),
        }
    }

    /// The reader of the lines of the body, where all bodies before it have so many nodes.
    pub fn into_reader(self, alloc: Global, nodes: u32) -> Result<BodyReader, AllocError>
        requires reads { length (reads_in self) ≤ Limits.READS }
        requires nodes { nodes ≤ Limits.ALL_NODES }
        ensures { IfOk result (λ r. r ≡ reader_of self nodes) }
    {
        match self {
            OpenPart::AfterTask => new_reader(alloc, Items::new(alloc), Items::new(alloc), nodes),
            OpenPart::AfterReads(reads) => new_reader(alloc, reads, Items::new(alloc), nodes),
            OpenPart::InBody(reader) => Ok(reader),
        }
    }
}

/// A reader of the body of a task that reads and writes data of these names.
pub fn new_reader(
    alloc: Global,
    reads: NameList,
    writes: NameList,
    nodes: u32,
) -> Result<BodyReader, AllocError>
    requires reads { length reads ≤ Limits.READS }
    requires writes { length writes ≤ Limits.WRITES }
    requires nodes { nodes ≤ Limits.ALL_NODES }
    ensures { IfOk result (λ r. r ≡ Ok (no_lines reads writes nodes)) }
{
    BodyReader::new(alloc, SlotNames { reads, writes }, nodes)
}
