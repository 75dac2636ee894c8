// The reader of a text: what the lines so far say.
ghost use Rattle.std.specs.Prelude.{◌≡◌, ◌+◌, ◌<◌, ◌≤◌, ◌^◌, IsTrue, OnOk, IfOk, Some, None, length, nat_le, not};
ghost use Rattle.pyr_num.specs.declared.limits.Quantity.TheVariants as quantities;
ghost use Rattle.pyr_body.specs.Size.{statements_nodes, statements_work};
ghost use Rattle.pyr_graphtext.specs.declared.form.Form.TheVariants as forms;
ghost use Rattle.pyr_graphtext.specs.Faults as spec;
ghost use Rattle.pyr_graphtext.specs.Statements.{unless};
ghost use Rattle.pyr_graphtext.specs.Earlier.{datum_ids};
ghost use Rattle.pyr_graphtext.specs.State.{stage_in, FitsOpen};
ghost use Rattle.pyr_graphtext.specs.Tells.{Tells};
ghost use Rattle.pyr_graphtext.specs.Taking as taking;
ghost use Rattle.pyr_graphtext.specs.Taking.{TakesForm, TakesTokens, TakesLine};
ghost use Rattle.pyr_graphtext.specs.Seen.{no_lines};
ghost use Rattle.pyr_graphtext.specs.Finishing.{HasSaid, Finishes};
ghost use Rattle.pyr_graphtext.specs.Outcome.{begins_statement, is_statement};
ghost use Rattle.pyr_lex.specs.Token.{tokens_in};

use crate::closed_task::ClosedTask;
use crate::form::Form;
use crate::form_reading::form_behind;
use crate::line_fault::LineFault;
use crate::making::make_program;
use crate::name_table::NameTable;
use crate::names::{check_reads, check_writes, datum_ids, insert_names};
use crate::open_part::OpenPart;
use crate::open_task::OpenTask;
use crate::program_names::ProgramNames;
use crate::stage::Stage;
use crate::{NameKind, Program, ProgramFault};
use pyr_body::Body;
use pyr_graph::{DatumParts, TaskParts};
use pyr_lex::{LexFault, SpannedToken, Token, Word};
use pyr_num::{DatumId, Limits, Name, NameList, Quantity};
use sqlite_items::Items;
use std::alloc::Global;
use std::marker::Model;

/// What the lines so far say. After a refusal it is of no more use.
#[derive(Drop)]
pub struct Reader {
    datum_names: NameTable,
    datums: Vec<DatumParts>,
    task_names: NameTable,
    tasks: Vec<TaskParts>,
    bodies: Vec<Body>,
    open_task: Option<OpenTask>,
    written: NameTable,
    prints: NameTable,
    all_reads: u32,
    nodes: u32,
    work: u64,
}

impl Model for Reader {
    ghost use Rattle.std.specs.Coded.{codes};
    ghost use Rattle.pyr_body.specs.TreeCode.{expr_code, statements_code};
    ghost use Rattle.pyr_graphtext.specs.State.{State, IsWithin};
    ghost use Rattle.pyr_graphtext.specs.Seen.{state_of};

    ghost Value = { State };

    ghost coded = { Prim.hlevel (codes, expr_code, statements_code) };

    ghost view = { λ r. state_of r.datum_names r.datums.items r.task_names r.tasks.items
        r.bodies.items r.open_task r.written r.prints r.all_reads r.nodes r.work };

    ghost invariant = { λ r. IsWithin (state_of r.datum_names r.datums.items r.task_names
        r.tasks.items r.bodies.items r.open_task r.written r.prints r.all_reads r.nodes r.work) };
}

const TEXT: LineFault = LineFault::Text;

fn limit(which: Quantity) -> LineFault
    ensures { result ≡ LineFault.Limit which }
{
    LineFault::Limit { which }
}

fn duplicate(name: Name) -> LineFault
    ensures { result ≡ LineFault.Names NameKind.Duplicate name }
{
    LineFault::Names {
        kind: NameKind::Duplicate,
        name,
    }
}

fn unknown(name: Name) -> LineFault
    ensures { result ≡ LineFault.Names NameKind.Unknown name }
{
    LineFault::Names {
        kind: NameKind::Unknown,
        name,
    }
}

impl Reader {
    /// A reader that took no line.
    pub fn new(alloc: Global) -> Reader
        ensures { result ≡ no_lines }
    {
        Reader {
            datum_names: NameTable::new(alloc),
            datums: Vec::new(alloc),
            task_names: NameTable::new(alloc),
            tasks: Vec::new(alloc),
            bodies: Vec::new(alloc),
            open_task: None,
            written: NameTable::new(alloc),
            prints: NameTable::new(alloc),
            all_reads: 0,
            nodes: 0,
            work: 0,
        }
    }

    // Where the next line stands.
    fn stage(&self) -> Stage
        ensures { result ≡ stage_in self.now.open_task }
    {
        match &self.open_task {
            None => Stage::Outside,
            Some(task) => task.part.stage(),
        }
    }

    // Goes on with this task as the open one.
    fn go_on(&mut self, task: OpenTask)
        requires { FitsOpen self.old.nodes (Some task) }
        ensures { self.new ≡ record self.old { open_task = Some task } }
    {
        self.open_task = Some(task);
    }

    #[tactic(auto, unfolding(crate::specs::Faults::data_fault))]
    fn data(&mut self, name: Name, words: u64, comm: u64) -> Result<(), LineFault>
        ensures fault { Tells result
            (spec.data_fault (stage_in self.old.open_task) self.old.datum_names name words comm) }
        ensures ok { OnOk result (self.new ≡ taking.with_datum self.old name words comm) }
    {
        if !self.stage().is_outside() {
            return Err(TEXT);
        }
        if self.datum_names.len() >= Limits::DATUMS as usize {
            return Err(limit(Quantity::Datums));
        }
        if words < u64::from(Limits::LEAST_LENGTH) || words > u64::from(Limits::LENGTH) {
            return Err(limit(Quantity::Length));
        }
        if comm > u64::from(Limits::COMM) {
            return Err(limit(Quantity::Comm));
        }
        if !self.datum_names.insert(name)? {
            return Err(duplicate(name));
        }
        self.datums.push(DatumParts {
            length: words as u32,
            comm: comm as u32,
        })?;
        Ok(())
    }

    #[tactic(auto, unfolding(crate::specs::Faults::task_fault))]
    fn task(&mut self, alloc: Global, name: Name, cost: u64) -> Result<(), LineFault>
        ensures fault { Tells result
            (spec.task_fault (stage_in self.old.open_task) self.old.task_names name cost) }
        ensures ok { OnOk result (self.new ≡ taking.with_task self.old name cost) }
    {
        if !self.stage().is_outside() {
            return Err(TEXT);
        }
        if self.task_names.len() >= Limits::TASKS as usize {
            return Err(limit(Quantity::Tasks));
        }
        if cost < u64::from(Limits::LEAST_COST) || cost > u64::from(Limits::COST) {
            return Err(limit(Quantity::Cost));
        }
        if !self.task_names.insert(name)? {
            return Err(duplicate(name));
        }
        self.go_on(OpenTask {
            cost: cost as u32,
            reads: Items::new(alloc),
            writes: Items::new(alloc),
            part: OpenPart::AfterTask,
        });
        Ok(())
    }

    #[tactic(auto, unfolding(crate::specs::Faults::print_fault))]
    fn print(&mut self, name: Name) -> Result<(), LineFault>
        ensures fault { Tells result (spec.print_fault (stage_in self.old.open_task)
            self.old.datum_names self.old.prints name) }
        ensures ok { OnOk result (self.new ≡ taking.with_print self.old name) }
    {
        if !self.stage().is_outside() {
            return Err(TEXT);
        }
        if self.prints.len() >= Limits::PRINTS as usize {
            return Err(limit(Quantity::Prints));
        }
        if !self.datum_names.contains(name) {
            return Err(unknown(name));
        }
        if !self.prints.insert(name)? {
            return Err(duplicate(name));
        }
        Ok(())
    }

    #[tactic(auto, unfolding(crate::specs::Faults::reads_fault))]
    fn reads(&mut self, alloc: Global, names: NameList) -> Result<(), LineFault>
        ensures fault { Tells result (spec.reads_fault (stage_in self.old.open_task)
            self.old.datum_names self.old.all_reads names) }
        ensures ok { OnOk result (self.new ≡ taking.with_reads self.old names) }
    {
        let reads = self.ids_to_read(alloc, &names)?;
        let Some(task) = self.open_task.take() else {
            return Err(TEXT);
        };
        self.all_reads += names.len() as u32;
        self.go_on(task.reading(reads, names));
        Ok(())
    }

    // The data that a line `reads` lists, where it may stand here.
    fn ids_to_read(&self, alloc: Global, names: &NameList) -> Result<Items<DatumId>, LineFault>
        ensures fault { Tells result (spec.reads_fault (stage_in self.now.open_task)
            self.now.datum_names self.now.all_reads names.now) }
        ensures ids { IfOk result (λ ids. ids ≡ datum_ids self.now.datum_names names.now) }
        ensures few { OnOk result (length names.now ≤ Limits.READS) }
        ensures few_in_all { OnOk result
            (self.now.all_reads + length names.now ≤ Limits.ALL_READS) }
    {
        check_reads(
            alloc,
            self.stage(),
            &self.datum_names,
            self.all_reads,
            names,
        )?;
        let ids = datum_ids(alloc, &self.datum_names, names.as_slice())?;
        Ok(Items::from_vec(ids))
    }

    #[tactic(auto, unfolding(crate::specs::Faults::writes_fault))]
    fn writes(&mut self, alloc: Global, names: NameList) -> Result<(), LineFault>
        ensures fault { Tells result (spec.writes_fault (stage_in self.old.open_task)
            self.old.datum_names self.old.written names) }
        ensures ok { OnOk result (self.new ≡ taking.with_writes self.old names) }
    {
        let writes = self.ids_to_write(alloc, &names)?;
        insert_names(&mut self.written, names.as_slice())?;
        let Some(task) = self.open_task.take() else {
            return Err(TEXT);
        };
        let task = task.writing(alloc, writes, names, self.nodes)?;
        self.go_on(task);
        Ok(())
    }

    // The data that a line `writes` lists, where it may stand here.
    fn ids_to_write(&self, alloc: Global, names: &NameList) -> Result<Items<DatumId>, LineFault>
        ensures fault { Tells result (spec.writes_fault (stage_in self.now.open_task)
            self.now.datum_names self.now.written names.now) }
        ensures ids { IfOk result (λ ids. ids ≡ datum_ids self.now.datum_names names.now) }
        ensures few { OnOk result (length names.now ≤ Limits.WRITES) }
    {
        check_writes(alloc, self.stage(), &self.datum_names, &self.written, names)?;
        let ids = datum_ids(alloc, &self.datum_names, names.as_slice())?;
        Ok(Items::from_vec(ids))
    }

    // Adds a task whose lines are all read.
    fn add(&mut self, closed: ClosedTask) -> Result<(), LineFault>
        requires { self.old.nodes + statements_nodes closed.body.statements ≤ Limits.ALL_NODES }
        ensures fault { Tells result (unless
            (nat_le (self.old.work + statements_work closed.body.statements) Limits.ALL_WORK)
            (LineFault.Limit quantities.AllWork) None) }
        ensures ok { OnOk result (self.new ≡ taking.with_closed self.old closed) }
    {
        let work = pyr_body::work(&closed.body);
        if self.work + work > Limits::ALL_WORK {
            drop(closed);
            return Err(limit(Quantity::AllWork));
        }
        drop(self.open_task.take());
        self.nodes += pyr_body::nodes(&closed.body);
        self.work += work;
        let ClosedTask { parts, body } = closed;
        self.bodies.push(body)?;
        self.tasks.push(parts)?;
        Ok(())
    }

    fn end(&mut self, alloc: Global) -> Result<(), LineFault>
        ensures { TakesForm self.old forms.End result self.new }
    {
        let Some(task) = self.open_task.take() else {
            return Err(TEXT);
        };
        let closed = task.close(alloc, self.nodes)?;
        self.add(closed)
    }

    fn form(&mut self, alloc: Global, form: Form) -> Result<(), LineFault>
        ensures { TakesForm self.old form result self.new }
    {
        match form {
            Form::Data(name, words, comm) => self.data(name, words, comm),
            Form::Task(name, cost) => self.task(alloc, name, cost),
            Form::Reads(names) => self.reads(alloc, names),
            Form::Writes(names) => self.writes(alloc, names),
            Form::End => self.end(alloc),
            Form::Print(name) => self.print(name),
        }
    }

    // A line of a body.
    fn statement(&mut self, alloc: Global, tokens: &[SpannedToken]) -> Result<(), LineFault>
        requires few { length tokens.now < 2 ^ 32 }
        requires statement { IsTrue (is_statement
            (spec.is_outside (stage_in self.old.open_task)) (tokens_in tokens.now)) }
        ensures { TakesTokens self.old (tokens_in tokens.now) result self.new }
    {
        let Some(task) = self.open_task.take() else {
            return Err(stray_fault(tokens));
        };
        let task = task.take_line(alloc, self.nodes, tokens)?;
        self.go_on(task);
        Ok(())
    }

    fn tokens(&mut self, alloc: Global, tokens: &[SpannedToken]) -> Result<(), LineFault>
        requires { length tokens.now < 2 ^ 32 }
        ensures { TakesTokens self.old (tokens_in tokens.now) result self.new }
    {
        let Some((first, others)) = tokens.split_first() else {
            return Ok(());
        };
        if begins_statement(self.stage().is_outside(), first.token) {
            return self.statement(alloc, tokens);
        }
        let form = form_behind(alloc, first.token, others)?;
        self.form(alloc, form)
    }

    /// Takes the next line.
    pub fn line(&mut self, alloc: Global, line: &[u8]) -> Result<(), LineFault>
        requires { length line.now ≤ Limits.INPUT }
        ensures { TakesLine self.old line.now result self.new }
    {
        match pyr_lex::tokens(alloc, line, 0) {
            Ok(tokens) => self.tokens(alloc, tokens.as_slice()),
            Err(LexFault::BadText { .. }) => Err(TEXT),
            Err(LexFault::Memory) => Err(LineFault::Memory),
        }
    }

    /// Whether a task is open.
    pub fn is_open(&self) -> bool
        ensures { result ≡ not (spec.is_outside (stage_in self.now.open_task)) }
    {
        !self.stage().is_outside()
    }

    /// The program that the lines stand for, where none of them has a fault and no task is open.
    pub fn finish(self, alloc: Global) -> Result<Program, ProgramFault>
        requires { HasSaid self }
        ensures { Finishes self result }
    {
        let Reader {
            datum_names,
            datums,
            task_names,
            tasks,
            bodies,
            open_task,
            written,
            prints,
            ..
        } = self;
        drop(open_task);
        drop(written);
        let names = ProgramNames {
            datums: datum_names,
            tasks: task_names,
            prints,
        };
        let program = make_program(alloc, &names, datums, tasks, bodies);
        drop(names);
        program
    }
}

// Whether a line with this first token is one of a body, where it stands outside a task or not.
fn begins_statement(outside: bool, first: Token) -> bool
    ensures { result ≡ begins_statement outside first }
{
    match first {
        Token::Word(Word::Set | Word::Put | Word::For | Word::Done) => true,
        Token::Word(Word::Reads | Word::Writes | Word::End) => false,
        _ => !outside,
    }
}

// What is wrong with a line of a body that stands outside a task.
fn stray_fault(tokens: &[SpannedToken]) -> LineFault
    requires { length tokens.now < 2 ^ 32 }
    ensures { result ≡ taking.stray_fault (tokens_in tokens.now) }
{
    if pyr_lex::depth(tokens) > Limits::DEPTH {
        return limit(Quantity::Depth);
    }
    TEXT
}
