ghost use Rattle.std.specs.Prelude.{◌≡◌, ◌<◌, ◌≤◌, length, IfOk, OnOk, IfErr};
ghost use Rattle.pyr_bundle.specs.Raw.{IsWithinLimits};
ghost use Rattle.pyr_bundle.specs.Laws.{send_count};
ghost use Rattle.pyr_bundle.specs.Faults.{IsLawful, IsCause};
ghost use Rattle.pyr_bundle.specs.WellFormed.{IsWellFormed};
ghost use Rattle.pyr_bundle.specs.Parts.{parts_of, raw_of, IsBundle, processor_count, task_count, datum_count, task_at, code_at, datum_at, channel_at, with_capacity};

use crate::lawfulness::{LawfulParts, lawful_parts};
use crate::{BundleFault, BundleTask, Capacity, Instr, RawBundle, RawDatum};
use pyr_num::{DatumId, ProcId, TaskId};
use sqlite_items::Items;
use std::alloc::Global;
use std::marker::Model;

/// A program for each processor, with bounded channels between them: a bundle within the limits
/// that keeps every law. Contracts see its parts.
#[derive(Drop)]
pub struct Bundle {
    datums: Items<RawDatum>,
    tasks: Items<BundleTask>,
    prints: Items<DatumId>,
    channels: Items<Capacity>,
    code: Items<Items<Instr>>,
}

impl Model for Bundle {
    ghost use Rattle.std.specs.Coded.{codes};
    ghost use Rattle.pyr_code.specs.contracts.op.Op as op;
    ghost use Rattle.pyr_bundle.specs.Parts.{Parts, IsBundle};

    ghost Value = { Parts };

    ghost coded = { Prim.hlevel (codes, op.the_row.coded) };

    ghost view = { λ b. record {
      datums = b.datums;
      tasks = b.tasks;
      prints = b.prints;
      channels = b.channels;
      code = b.code;
    } };

    ghost invariant = { λ b. IsBundle (record {
      datums = b.datums;
      tasks = b.tasks;
      prints = b.prints;
      channels = b.channels;
      code = b.code;
    }) };
}

impl Bundle {
    /// The bundle of these parts, or the smallest law that they break, with its first place.
    ///
    /// The number of processors is the length of the code. The parts are within the limits; the
    /// time is linear in them.
    pub fn build(alloc: Global, raw: RawBundle) -> Result<Bundle, BundleFault>
        requires { IsWithinLimits raw }

        // Ok comes exactly where every law is kept, want of memory apart.
        ensures parts { IfOk result (λ bundle. bundle ≡ parts_of raw) }
        ensures lawful { OnOk result (IsLawful raw) }

        // A law is told exactly where it is the smallest broken one, and this its first place.
        ensures fault { IfErr result (IsCause raw) }
    {
        let parts = lawful_parts(alloc, &raw);
        let datums = raw.into_datums();
        let LawfulParts { tasks, lists } = parts?;
        Ok(Bundle {
            datums,
            tasks: Items::from_vec(tasks),
            prints: lists.prints,
            channels: lists.channels,
            code: lists.code,
        })
    }

    /// A law, that takes no time: what every bundle keeps.
    pub fn is_bundle(&self)
        ensures { IsBundle self.now }
    {
        let _ = &self.code;
    }

    /// A law, that takes no time: the same in the words that proofs about runs need.
    pub fn well_formed(&self)
        ensures { IsWellFormed self.now }
    {
        let _ = &self.code;
    }

    /// The number of processors. They are known by the numbers below it.
    pub fn processors(&self) -> u32
        ensures { result ≡ processor_count self.now }
    {
        self.code.len() as u32
    }

    /// The instructions of a processor, in their order.
    pub fn code(&self, processor: ProcId) -> &[Instr]
        requires { processor.0 < processor_count self.now }
        ensures { result.now ≡ code_at self.now processor.0 }
    {
        self.code.as_slice()[processor.0 as usize].as_slice()
    }

    /// The number of tasks. They are known by the numbers below it.
    pub fn task_count(&self) -> u32
        ensures { result ≡ task_count self.now }
    {
        self.tasks.len() as u32
    }

    /// A task.
    pub fn task(&self, task: TaskId) -> &BundleTask
        requires { task.0 < task_count self.now }
        ensures { result.now ≡ task_at self.now task.0 }
    {
        &self.tasks.as_slice()[task.0 as usize]
    }

    /// The number of data. They are known by the numbers below it.
    pub fn datum_count(&self) -> u32
        ensures { result ≡ datum_count self.now }
    {
        self.datums.len() as u32
    }

    /// A datum.
    pub fn datum(&self, datum: DatumId) -> RawDatum
        requires { datum.0 < datum_count self.now }
        ensures { result ≡ datum_at self.now datum.0 }
    {
        self.datums.as_slice()[datum.0 as usize]
    }

    /// The printed data, in order.
    pub fn prints(&self) -> &[DatumId]
        ensures { result.now ≡ self.now.prints }
    {
        self.prints.as_slice()
    }

    /// The channels, by rising pair of processors: exactly one for each pair with a send.
    pub fn channels(&self) -> &[Capacity]
        ensures { result.now ≡ self.now.channels }
    {
        self.channels.as_slice()
    }

    /// Gives a channel another capacity, in parcels: at most its number of sends.
    pub fn set_capacity(&mut self, channel: u32, capacity: u32)
        requires known { channel < length self.old.channels }
        requires some { 1 ≤ capacity }
        requires few { capacity ≤ send_count (raw_of self.old).code
            (channel_at self.old channel).from.0 (channel_at self.old channel).to.0 }
        ensures { self.new ≡ with_capacity self.old channel capacity }
    {
        let old = self.channels.as_slice()[channel as usize];
        let new = Capacity { capacity, ..old };
        self.channels.set(channel as usize, new);
    }
}
