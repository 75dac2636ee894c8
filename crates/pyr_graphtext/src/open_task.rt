// The task whose lines are being read.
ghost use Rattle.std.specs.Prelude.{◌≡◌, ◌<◌, ◌≤◌, ◌^◌, Ok, IfOk, length};
ghost use Rattle.pyr_body.specs.Taking.{no_lines};
ghost use Rattle.pyr_graphtext.specs.State.{reads_in};
ghost use Rattle.pyr_graphtext.specs.Taking.{ClosesTask, TakesBodyLine};
ghost use Rattle.pyr_lex.specs.Token.{tokens_in};

use crate::closed_task::ClosedTask;
use crate::line_fault::LineFault;
use crate::open_part::{OpenPart, new_reader};
use pyr_graph::TaskParts;
use pyr_lex::SpannedToken;
use pyr_num::{DatumId, Limits, NameList};
use sqlite_items::Items;
use std::alloc::{AllocError, Global};

/// The task whose lines are being read: what they say so far.
#[derive(Drop)]
pub struct OpenTask {
    /// The computation weight.
    pub cost: u32,
    /// The data that it reads.
    pub reads: Items<DatumId>,
    /// The data that it writes.
    pub writes: Items<DatumId>,
    /// How far its lines have come.
    pub part: OpenPart,
}

impl OpenTask {
    /// The task with these reads.
    pub fn reading(self, reads: Items<DatumId>, names: NameList) -> OpenTask
        ensures { result ≡ record self { reads = reads; part = OpenPart.AfterReads names } }
    {
        OpenTask {
            reads,
            part: OpenPart::AfterReads(names),
            ..self
        }
    }

    /// The task with these writes, where all bodies before it have so many nodes.
    pub fn writing(
        self,
        alloc: Global,
        writes: Items<DatumId>,
        names: NameList,
        nodes: u32,
    ) -> Result<OpenTask, AllocError>
        requires reads { length (reads_in self.part) ≤ Limits.READS }
        requires writes { length names ≤ Limits.WRITES }
        requires nodes { nodes ≤ Limits.ALL_NODES }
        ensures { IfOk result (λ task. task ≡ record self {
          writes = writes;
          part = OpenPart.InBody (Ok (no_lines (reads_in self.part) names nodes));
        }) }
    {
        let OpenTask {
            cost,
            reads,
            writes: _,
            part,
        } = self;
        let reader = new_reader(alloc, part.into_read_names(alloc), names, nodes)?;
        Ok(OpenTask {
            cost,
            reads,
            writes,
            part: OpenPart::InBody(reader),
        })
    }

    /// Takes a line of the body, where all bodies before it have so many nodes.
    pub fn take_line(
        self,
        alloc: Global,
        nodes: u32,
        tokens: &[SpannedToken],
    ) -> Result<OpenTask, LineFault>
        requires reads { length (reads_in self.part) ≤ Limits.READS }
        requires nodes { nodes ≤ Limits.ALL_NODES }
        requires tokens { length tokens.now < 2 ^ 32 }
        ensures { TakesBodyLine self nodes (tokens_in tokens.now) result }
    {
        let OpenTask {
            cost,
            reads,
            writes,
            part,
        } = self;
        let mut reader = part.into_reader(alloc, nodes)?;
        if let Err(fault) = reader.line(tokens) {
            drop(reader);
            return Err(LineFault::from(fault));
        }
        Ok(OpenTask {
            cost,
            reads,
            writes,
            part: OpenPart::InBody(reader),
        })
    }

    /// The task, where its lines end here and all bodies before it have so many nodes.
    pub fn close(self, alloc: Global, nodes: u32) -> Result<ClosedTask, LineFault>
        requires reads { length (reads_in self.part) ≤ Limits.READS }
        requires nodes { nodes ≤ Limits.ALL_NODES }
        ensures { ClosesTask self nodes result }
    {
        let OpenTask {
            cost,
            reads,
            writes,
            part,
        } = self;
        let reader = part.into_reader(alloc, nodes)?;
        let body = reader.finish()?;
        let parts = TaskParts {
            cost,
            reads,
            writes,
        };
        Ok(ClosedTask { parts, body })
    }
}
