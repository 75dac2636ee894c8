// The reader of a bundle text: what the lines so far say.
ghost use Rattle.std.specs.Prelude.{◌≡◌, ◌+◌, ◌<◌, ◌≤◌, [], ◌∷◌, ◌++◌, true, length, None, Ok, Err, OnOk, IfErr};
ghost use Rattle.pyr_code.specs.Seen.{code_of};
ghost use Rattle.pyr_code.specs.Size.{code_work};
ghost use Rattle.pyr_bundletext.specs.declared.stage.Stage.TheVariants as stages;
ghost use Rattle.pyr_bundletext.specs.Earlier.{said_by, raw_said, no_code, plain_op, with_op, with_loop, ended};
ghost use Rattle.pyr_bundletext.specs.Faults as spec;
ghost use Rattle.pyr_bundletext.specs.Faults.{nodes_in, instr_count};
ghost use Rattle.pyr_bundletext.specs.Tells.{advance, with_datum, with_task, with_processor, TakesLine};

use crate::line::Line;
use crate::line_fault::LineFault;
use crate::open_code::OpenCode;
use crate::plain_op::PlainOp;
use crate::stage::Stage;
use pyr_bundle::{RawBundle, RawChannel, RawDatum, RawInstr, RawTask};
use pyr_num::{Limits, Name, Quantity};
use sqlite_items::Items;
use std::alloc::{AllocError, Global};
use std::marker::Model;
use std::mem;

/// What the lines so far say. After a refusal it is of no more use.
#[derive(Drop)]
pub struct Reader {
    stage: Stage,
    processors: u64,
    datums: Items<RawDatum>,
    tasks: Items<RawTask>,
    locals: u32,
    reads: Items<u64>,
    writes: Items<u64>,
    open_code: OpenCode,
    prints: Items<u64>,
    channels: Items<RawChannel>,
    begun: u64,
    code: Items<Items<RawInstr>>,
    instrs: Items<RawInstr>,
    all_reads: u32,
    all_nodes: u32,
    all_work: u64,
    instr_count: u32,
}

impl Model for Reader {
    ghost use Rattle.std.specs.Coded.{codes};
    ghost use Rattle.pyr_code.specs.contracts.op.Op as op;
    ghost use Rattle.pyr_bundletext.specs.Earlier.{Said};
    ghost use Rattle.pyr_bundletext.specs.Counted.{said_in, IsCounted};

    ghost Value = { Said };

    ghost coded = { Prim.hlevel (codes, op.the_row.coded) };

    ghost view = { λ r. said_in r.stage r.processors r.datums r.tasks r.locals r.reads r.writes
        r.open_code r.prints r.channels r.begun r.code r.instrs };

    ghost invariant = { λ r. IsCounted
        (said_in r.stage r.processors r.datums r.tasks r.locals r.reads r.writes
        r.open_code r.prints r.channels r.begun r.code r.instrs)
        r.all_reads r.all_nodes r.all_work r.instr_count };
}

impl Reader {
    /// A reader that took no line.
    pub fn new(alloc: Global) -> Reader
        ensures { result ≡ said_by [] }
    {
        Reader {
            stage: Stage::Start,
            processors: 0,
            datums: Items::new(alloc),
            tasks: Items::new(alloc),
            locals: 0,
            reads: Items::new(alloc),
            writes: Items::new(alloc),
            open_code: OpenCode::new(alloc),
            prints: Items::new(alloc),
            channels: Items::new(alloc),
            begun: 0,
            code: Items::new(alloc),
            instrs: Items::new(alloc),
            all_reads: 0,
            all_nodes: 0,
            all_work: 0,
            instr_count: 0,
        }
    }

    /// Whether the last line came.
    pub fn is_stopped(&self) -> bool
        ensures { result ≡ spec.is_stopped self.now.stage }
    {
        self.stage.is_stopped()
    }

    /// Takes one line more.
    pub fn take(&mut self, alloc: Global, line: Line) -> Result<(), LineFault>
        ensures ok { OnOk result (TakesLine self.old line (Ok self.new)) }
        ensures err { IfErr result (λ fault. TakesLine self.old line (Err fault)) }
    {
        self.check(&line)?;
        self.advance(alloc, line)?;
        Ok(())
    }

    // Whether the line may stand here and passes no limit.
    fn check(&self, line: &Line) -> Result<(), LineFault>
        ensures stands { OnOk result (spec.may_stand self.now line.now ≡ true) }
        ensures limits { OnOk result (spec.passed_limit self.now line.now ≡ None) }
        ensures err { IfErr result (λ fault. TakesLine self.now line.now (Err fault)) }
    {
        if !self.may_stand(line) {
            return Err(LineFault::Text);
        }
        match self.passed_limit(line) {
            Some(which) => Err(LineFault::Limit { which }),
            None => Ok(()),
        }
    }

    // Whether the line may stand here.
    fn may_stand(&self, line: &Line) -> bool
        ensures { result ≡ spec.may_stand self.now line.now }
    {
        match line {
            Line::Pyrros => self.stage.is_start(),
            Line::Processors(_) => self.stage.is_versioned(),
            Line::Datum(_, _) => self.stage.is_data(),
            Line::Task(_) => self.stage.has_tasks(),
            Line::Reads(_) => self.stage.is_task_begun(),
            Line::Writes(_) => self.stage.is_task_reads(),
            Line::Plain(_) | Line::Loop(_, _) => self.stage.is_code(),
            Line::Done => self.stage.is_code() && self.open_code.loops() > 0,
            Line::End => self.stage.is_code() && self.open_code.loops() == 0,
            Line::Print(_) => self.stage.has_prints(),
            Line::Channel(_) => self.stage.has_channels(),
            Line::Processor(p) => {
                self.stage.has_processors() && *p == self.begun && *p < self.processors
            }
            Line::Instr(_) => self.stage.is_processor(),
            Line::Stop => self.stage.is_processor() && self.begun == self.processors,
        }
    }

    // The first limit that the line passes.
    #[tactic(auto, unfolding(crate::specs::Faults::passed_limit))]
    fn passed_limit(&self, line: &Line) -> Option<Quantity>
        ensures { result ≡ spec.passed_limit self.now line.now }
    {
        match line {
            Line::Processors(count) => processors_limit(*count),
            Line::Datum(_, words) => self.datum_limit(*words),
            Line::Task(locals) => self.task_limit(*locals),
            Line::Reads(datums) => self.reads_limit(datums.len()),
            Line::Writes(datums) => unless(
                datums.len() <= Limits::WRITES as usize,
                Quantity::Writes,
                None,
            ),
            Line::Plain(_) => self.unless_nodes_fit(None),
            Line::Loop(_, count) => self.loop_limit(*count),
            Line::End => self.end_limit(),
            Line::Print(_) => unless(
                self.prints.len() < Limits::PRINTS as usize,
                Quantity::Prints,
                None,
            ),
            Line::Channel(_) => unless(
                self.channels.len() < Limits::CHANNELS as usize,
                Quantity::Channels,
                None,
            ),
            Line::Instr(_) => unless(
                self.instr_count < Limits::INSTRUCTIONS,
                Quantity::Instructions,
                None,
            ),
            Line::Pyrros | Line::Done | Line::Processor(_) | Line::Stop => None,
        }
    }

    fn datum_limit(&self, words: u64) -> Option<Quantity>
        ensures { result ≡ spec.datum_limit self.now words }
    {
        let fits = words >= u64::from(Limits::LEAST_LENGTH) && words <= u64::from(Limits::LENGTH);
        unless(
            self.datums.len() < Limits::DATUMS as usize,
            Quantity::Datums,
            unless(fits, Quantity::Length, None),
        )
    }

    fn task_limit(&self, locals: u64) -> Option<Quantity>
        ensures { result ≡ spec.task_limit self.now locals }
    {
        unless(
            self.tasks.len() < Limits::TASKS as usize,
            Quantity::Tasks,
            unless(locals <= u64::from(Limits::LOCALS), Quantity::Locals, None),
        )
    }

    fn reads_limit(&self, count: usize) -> Option<Quantity>
        ensures { result ≡ spec.reads_limit self.now count }
    {
        if count > Limits::READS as usize {
            return Some(Quantity::Reads);
        }
        unless(
            self.all_reads + count as u32 <= Limits::ALL_READS,
            Quantity::AllReads,
            None,
        )
    }

    fn unless_nodes_fit(&self, others: Option<Quantity>) -> Option<Quantity>
        ensures { result ≡ spec.unless_nodes_fit self.now others }
    {
        let nodes = self.open_code.nodes();
        unless(
            nodes < Limits::NODES,
            Quantity::Nodes,
            unless(
                self.all_nodes + nodes < Limits::ALL_NODES,
                Quantity::AllNodes,
                others,
            ),
        )
    }

    fn loop_limit(&self, count: u64) -> Option<Quantity>
        ensures { result ≡ spec.loop_limit self.now count }
    {
        let counted = unless(count <= u64::from(Limits::COUNT), Quantity::Count, None);
        self.unless_nodes_fit(unless(
            self.open_code.loops() < Limits::LOOPS as usize,
            Quantity::Loops,
            counted,
        ))
    }

    fn end_limit(&self) -> Option<Quantity>
        ensures { result ≡ spec.end_limit self.now }
    {
        let work = self.open_code.work();
        unless(
            work <= Limits::WORK,
            Quantity::Work,
            unless(
                self.all_work + work <= Limits::ALL_WORK,
                Quantity::AllWork,
                None,
            ),
        )
    }

    // Takes a line that may stand here and passes no limit.
    #[tactic(auto, unfolding(crate::specs::Faults::passed_limit, crate::specs::Tells::advance))]
    fn advance(&mut self, alloc: Global, line: Line) -> Result<(), AllocError>
        requires stands { spec.may_stand self.old line ≡ true }
        requires limits { spec.passed_limit self.old line ≡ None }
        ensures { OnOk result (self.new ≡ advance self.old line) }
    {
        match line {
            Line::Datum(name, words) => self.datum(name, words),
            Line::Plain(op) => self.plain(op),
            Line::Loop(local, count) => self.open(alloc, local, count),
            Line::Done => self.done(alloc),
            Line::End => self.end(alloc),
            Line::Print(datum) => self.print(datum),
            Line::Channel(channel) => self.channel(channel),
            Line::Processor(_) => self.begin(alloc),
            Line::Instr(instr) => self.instr(instr),
            Line::Stop => self.stop(alloc),
            Line::Pyrros => {
                self.set_stage(Stage::Versioned);
                Ok(())
            }
            Line::Processors(count) => {
                self.set_processors(count);
                Ok(())
            }
            Line::Task(locals) => {
                self.begin_task(locals);
                Ok(())
            }
            Line::Reads(datums) => {
                self.set_reads(datums);
                Ok(())
            }
            Line::Writes(datums) => {
                self.set_writes(alloc, datums);
                Ok(())
            }
        }
    }

    // Tells what came last.
    fn set_stage(&mut self, stage: Stage)
        ensures { self.new ≡ record self.old { stage = stage } }
    {
        self.stage = stage;
    }

    // Takes the number of processors.
    fn set_processors(&mut self, count: u64)
        ensures { self.new ≡ record self.old { stage = stages.Data; processors = count } }
    {
        self.stage = Stage::Data;
        self.processors = count;
    }

    // Appends a datum.
    fn datum(&mut self, name: Name, words: u64) -> Result<(), AllocError>
        requires { words ≤ Limits.LENGTH }
        ensures { OnOk result (self.new ≡ with_datum self.old name words) }
    {
        let length = words as u32;
        self.datums.push(RawDatum { name, length })?;
        self.stage = Stage::Data;
        Ok(())
    }

    // Begins a task.
    fn begin_task(&mut self, locals: u64)
        requires { locals ≤ Limits.LOCALS }
        ensures { self.new ≡ record self.old { stage = stages.TaskBegun; locals = locals } }
    {
        self.stage = Stage::TaskBegun;
        self.locals = locals as u32;
    }

    // Takes what the open task reads.
    fn set_reads(&mut self, datums: Items<u64>)
        requires { spec.all_reads self.old.tasks + length datums ≤ Limits.ALL_READS }
        ensures { self.new ≡ record self.old { stage = stages.TaskReads; reads = datums } }
    {
        self.stage = Stage::TaskReads;
        self.reads = datums;
    }

    // Takes what the open task writes, and begins its code.
    fn set_writes(&mut self, alloc: Global, datums: Items<u64>)
        ensures { self.new ≡ record self.old { stage = stages.Code; writes = datums; nest = no_code } }
    {
        self.stage = Stage::Code;
        self.writes = datums;
        self.open_code = OpenCode::new(alloc);
    }

    // Appends an op that is no loop.
    #[tactic(auto, using(crate::proofs::CodeLemmas::with_op_nodes))]
    fn plain(&mut self, op: PlainOp) -> Result<(), AllocError>
        requires nodes { nodes_in self.old.nest < Limits.NODES }
        requires all { spec.all_nodes self.old.tasks + nodes_in self.old.nest < Limits.ALL_NODES }
        ensures { OnOk result (self.new
            ≡ record self.old { stage = stages.Code; nest = with_op self.old.nest (plain_op op) }) }
    {
        self.open_code.push(op)?;
        self.stage = Stage::Code;
        Ok(())
    }

    // Begins a loop.
    fn open(&mut self, alloc: Global, local: u64, count: u64) -> Result<(), AllocError>
        requires nodes { nodes_in self.old.nest < Limits.NODES }
        requires all { spec.all_nodes self.old.tasks + nodes_in self.old.nest < Limits.ALL_NODES }
        ensures { OnOk result (self.new
            ≡ record self.old { stage = stages.Code; nest = with_loop self.old.nest local count }) }
    {
        let open_code = mem::replace(&mut self.open_code, OpenCode::new(alloc));
        self.open_code = open_code.open(alloc, local, count)?;
        self.stage = Stage::Code;
        Ok(())
    }

    // Ends the innermost loop.
    #[tactic(auto, using(crate::proofs::CodeLemmas::ended_nodes))]
    fn done(&mut self, alloc: Global) -> Result<(), AllocError>
        requires { 0 < length self.old.nest.outer }
        ensures { OnOk result (self.new
            ≡ record self.old { stage = stages.Code; nest = ended self.old.nest.outer self.old.nest.current }) }
    {
        let open_code = mem::replace(&mut self.open_code, OpenCode::new(alloc));
        self.open_code = open_code.close()?;
        self.stage = Stage::Code;
        Ok(())
    }

    // Ends the open task.
    fn end(&mut self, alloc: Global) -> Result<(), AllocError>
        requires closed { length self.old.nest.outer ≡ 0 }
        requires work { code_work (code_of self.old.nest.current) ≤ Limits.WORK }
        requires all { spec.all_work self.old.tasks + code_work (code_of self.old.nest.current)
            ≤ Limits.ALL_WORK }
        ensures { OnOk result (self.new ≡ with_task self.old) }
    {
        let all_reads = self.all_reads + self.reads.len() as u32;
        let all_nodes = self.all_nodes + self.open_code.nodes();
        let all_work = self.all_work + self.open_code.work();
        let task = self.take_task(alloc);
        self.tasks.push(task)?;
        self.stage = Stage::Tasks;
        self.all_reads = all_reads;
        self.all_nodes = all_nodes;
        self.all_work = all_work;
        Ok(())
    }

    // Takes the open task out.
    fn take_task(&mut self, alloc: Global) -> RawTask
        ensures task { result ≡ record {
          locals = self.old.locals;
          reads = self.old.reads;
          writes = self.old.writes;
          code = self.old.nest.current;
        } }
        ensures rest { self.new ≡ record self.old { reads = []; writes = []; nest = no_code } }
    {
        RawTask {
            locals: self.locals,
            reads: mem::replace(&mut self.reads, Items::new(alloc)),
            writes: mem::replace(&mut self.writes, Items::new(alloc)),
            code: mem::replace(&mut self.open_code, OpenCode::new(alloc)).into_ops(),
        }
    }

    // Appends a printed datum.
    fn print(&mut self, datum: u64) -> Result<(), AllocError>
        ensures { OnOk result (self.new
            ≡ record self.old { stage = stages.Prints; prints = self.old.prints ++ datum ∷ [] }) }
    {
        self.prints.push(datum)?;
        self.stage = Stage::Prints;
        Ok(())
    }

    // Appends a channel.
    fn channel(&mut self, channel: RawChannel) -> Result<(), AllocError>
        ensures { OnOk result (self.new
            ≡ record self.old { stage = stages.Channels; channels = self.old.channels ++ channel ∷ [] }) }
    {
        self.channels.push(channel)?;
        self.stage = Stage::Channels;
        Ok(())
    }

    // Begins the next processor.
    fn begin(&mut self, alloc: Global) -> Result<(), AllocError>
        requires { self.old.begun < self.old.processors }
        ensures { OnOk result (self.new ≡ with_processor self.old) }
    {
        if self.begun == 0 {
            self.begin_one();
            return Ok(());
        }
        self.close(alloc)?;
        self.begin_one();
        Ok(())
    }

    // Counts a processor more.
    fn begin_one(&mut self)
        requires { self.old.begun < self.old.processors }
        ensures { self.new ≡ record self.old { stage = stages.Processor; begun = self.old.begun + 1 } }
    {
        self.stage = Stage::Processor;
        self.begun += 1;
    }

    // Appends an instruction of the last processor.
    fn instr(&mut self, instr: RawInstr) -> Result<(), AllocError>
        requires { instr_count self.old < Limits.INSTRUCTIONS }
        ensures { OnOk result (self.new
            ≡ record self.old { stage = stages.Processor; instrs = self.old.instrs ++ instr ∷ [] }) }
    {
        self.instrs.push(instr)?;
        self.instr_count += 1;
        self.stage = Stage::Processor;
        Ok(())
    }

    // Ends the text.
    fn stop(&mut self, alloc: Global) -> Result<(), AllocError>
        ensures { OnOk result (self.new ≡ record self.old {
          stage = stages.Stopped;
          code = self.old.code ++ self.old.instrs ∷ [];
          instrs = [];
        }) }
    {
        self.close(alloc)?;
        self.set_stage(Stage::Stopped);
        Ok(())
    }

    // Puts the instructions of the last processor behind those of the others. They are lost where
    // memory runs out, so they are counted anew once they stand there.
    fn close(&mut self, alloc: Global) -> Result<(), AllocError>
        ensures { OnOk result (self.new
            ≡ record self.old { code = self.old.code ++ self.old.instrs ∷ []; instrs = [] }) }
    {
        let instrs = mem::replace(&mut self.instrs, Items::new(alloc));
        let count = instrs.len() as u32;
        self.instr_count -= count;
        self.code.push(instrs)?;
        self.instr_count += count;
        Ok(())
    }

    /// The parts that the lines say.
    pub fn finish(self) -> RawBundle
        ensures { result ≡ raw_said self }
    {
        RawBundle {
            datums: self.datums,
            tasks: self.tasks,
            prints: self.prints,
            channels: self.channels,
            code: self.code,
        }
    }
}

// This limit where the test fails, else what the others say.
fn unless(test: bool, which: Quantity, others: Option<Quantity>) -> Option<Quantity>
    ensures { result ≡ spec.unless test which others }
{
    if test { others } else { Some(which) }
}

fn processors_limit(count: u64) -> Option<Quantity>
    ensures { result ≡ spec.processors_limit count }
{
    let some = count >= u64::from(Limits::LEAST_PROCESSORS);
    let few = count <= u64::from(Limits::PROCESSORS);
    unless(some && few, Quantity::Processors, None)
}
