// The lines of a body that were taken so far.
ghost use Rattle.std.specs.Prelude.{◌≡◌, ◌+◌, ◌<◌, ◌≤◌, ◌^◌, [], ◌∷◌, ◌++◌, length, drop, Ok, IfOk, OnOk};
ghost use Rattle.pyr_body.specs.Seen.{expr_of, stmt_of};
ghost use Rattle.pyr_body.specs.Lines.{lines_nodes};
ghost use Rattle.pyr_body.specs.Written.{written_nodes, written_brackets};
ghost use Rattle.pyr_body.specs.WrittenSeen.{written_of};
ghost use Rattle.pyr_body.specs.Names.{Answers, index_of, known, resolved};
ghost use Rattle.pyr_body.specs.Taking.{no_lines, nodes_fit, local_fits, loop_fits, numbered};
ghost use Rattle.pyr_body.specs.Taking.{after_set, after_put, after_for, after_done};
ghost use Rattle.pyr_body.specs.Fitting.{set_value, put_statement, for_fits};
ghost use Rattle.pyr_body.specs.Reader.{IsEnd};

use crate::counting::capped_work;
use crate::naming::{index_of, known, resolve};
use crate::open_loop::OpenLoop;
use crate::written_expr::WrittenExpr;
use crate::{Body, Expr, LineFault, SlotNames, Stmt};
use pyr_num::{Limits, Name, NameList, Quantity};
use sqlite_items::Items;
use std::alloc::{AllocError, Global};
use std::marker::Model;
use std::mem;

/// The lines taken so far: the statements of each open loop, outermost first, and then those of the
/// innermost one. Contracts see what the lines come to.
#[derive(Drop)]
pub struct Reading {
    reads: u32,
    slots: NameList,
    nodes_before: u32,
    locals: NameList,
    outer: Items<OpenLoop>,
    current: Items<Stmt>,
    nodes: u32,
}

impl Model for Reading {
    ghost use Rattle.std.specs.Prelude.{length};
    ghost use Rattle.std.specs.Coded.{codes};
    ghost use Rattle.pyr_body.specs.TreeCode.{expr_code};
    ghost use Rattle.pyr_body.specs.Taking.{LinesTaken};

    ghost Value = { LinesTaken };

    ghost coded = { Prim.hlevel (codes, expr_code) };

    ghost use Rattle.pyr_body.specs.Kept.{taken_by, IsKept};

    ghost view = { λ r. taken_by r.reads r.slots r.nodes_before r.locals r.outer r.current };

    ghost invariant = { λ r. IsKept
        (taken_by r.reads r.slots r.nodes_before r.locals r.outer r.current)
        (length r.outer) r.nodes };
}

impl Reading {
    /// No line yet.
    pub fn new(alloc: Global, names: SlotNames, nodes_before: u32) -> Result<Reading, AllocError>
        requires reads { length names.reads ≤ Limits.READS }
        requires writes { length names.writes ≤ Limits.WRITES }
        requires before { nodes_before ≤ Limits.ALL_NODES }
        ensures { IfOk result (λ r. r ≡ no_lines names.reads names.writes nodes_before) }
    {
        let SlotNames { reads, writes } = names;
        let count = reads.len() as u32;
        let mut slots = reads;
        slots.append(writes)?;
        Ok(Reading {
            reads: count,
            slots,
            nodes_before,
            locals: Items::new(alloc),
            outer: Items::new(alloc),
            current: Items::new(alloc),
            nodes: 0,
        })
    }

    /// Takes a `set`.
    pub fn set(
        mut self,
        alloc: Global,
        name: Name,
        value: &WrittenExpr,
    ) -> Result<Reading, LineFault>
        requires nodes { 1 + written_nodes (written_of value.now) < 2 ^ 32 }
        requires depth { written_brackets (written_of value.now) ≤ Limits.DEPTH }
        ensures { Answers (λ r. r) result (after_set self name (written_of value.now)) }
    {
        let added = 1 + written_nodes(value);
        let value = self.set_value(alloc, name, value, added)?;
        push_set(&mut self.locals, &mut self.current, name, value)?;
        self.nodes += added;
        Ok(self)
    }

    // The value of a `set` over numbers, where the line, of so many nodes, is within the limits.
    fn set_value(
        &self,
        alloc: Global,
        name: Name,
        value: &WrittenExpr,
        added: u32,
    ) -> Result<Expr, LineFault>
        requires { added ≡ 1 + written_nodes (written_of value.now) }
        ensures { Answers expr_of result (set_value self.now name (written_of value.now)) }
    {
        self.fit_nodes(added)?;
        fit_local(self.locals.as_slice(), name)?;
        self.resolve(alloc, value)
    }

    /// Takes a `put`.
    pub fn put(
        mut self,
        alloc: Global,
        name: Name,
        index: &WrittenExpr,
        value: &WrittenExpr,
    ) -> Result<Reading, LineFault>
        requires nodes { 1 + written_nodes (written_of index.now)
            + written_nodes (written_of value.now) < 2 ^ 32 }
        requires index_depth { 1 + written_brackets (written_of index.now) ≤ Limits.DEPTH }
        requires depth { written_brackets (written_of value.now) ≤ Limits.DEPTH }
        ensures { Answers (λ r. r) result
            (after_put self name (written_of index.now) (written_of value.now)) }
    {
        let added = 1 + written_nodes(index) + written_nodes(value);
        let statement = self.put_statement(alloc, name, index, value, added)?;
        self.current.push(statement)?;
        self.nodes += added;
        Ok(self)
    }

    // The statement that a `put` is, where the line, of so many nodes, is within the limits.
    fn put_statement(
        &self,
        alloc: Global,
        name: Name,
        index: &WrittenExpr,
        value: &WrittenExpr,
        added: u32,
    ) -> Result<Stmt, LineFault>
        requires { added ≡ 1 + written_nodes (written_of index.now)
            + written_nodes (written_of value.now) }
        ensures { Answers stmt_of result
            (put_statement self.now name (written_of index.now) (written_of value.now)) }
    {
        self.fit_nodes(added)?;
        let output = self.output(name)?;
        let index = self.resolve(alloc, index)?;
        let value = self.resolve(alloc, value)?;
        Ok(Stmt::Put(output, index, value))
    }

    /// Takes a `for`.
    pub fn open(mut self, alloc: Global, name: Name, count: u64) -> Result<Reading, LineFault>
        ensures { Answers (λ r. r) result (after_for self name count) }
    {
        self.fit_for(name, count)?;
        push_for(
            alloc,
            &mut self.locals,
            &mut self.outer,
            &mut self.current,
            name,
            count,
        )?;
        self.nodes += 1;
        Ok(self)
    }

    // Tests that a `for` is within the limits.
    fn fit_for(&self, name: Name, count: u64) -> Result<(), LineFault>
        ensures { Answers (λ _. tt {0}) result (for_fits self.now name count) }
    {
        self.fit_nodes(1)?;
        fit_loop(self.outer.len(), count)?;
        fit_local(self.locals.as_slice(), name)
    }

    /// Takes a `done`.
    pub fn close(mut self) -> Result<Reading, LineFault>
        ensures { Answers (λ r. r) result (after_done self) }
    {
        let Some(open) = self.outer.pop() else {
            drop(self);
            return Err(LineFault::Text);
        };
        let OpenLoop {
            before,
            local,
            count,
        } = open;
        let turn = mem::replace(&mut self.current, before);
        self.current.push(Stmt::For(local, count, turn))?;
        Ok(self)
    }

    // Tests that so many nodes more are within the limits.
    fn fit_nodes(&self, added: u32) -> Result<(), LineFault>
        ensures { Answers (λ _. tt {0}) result
            (nodes_fit self.now.nodes_before (lines_nodes self.now.lines) added) }
    {
        if added > Limits::NODES - self.nodes {
            return Err(LineFault::Limit {
                which: Quantity::Nodes,
            });
        }
        if self.nodes_before + self.nodes + added > Limits::ALL_NODES {
            return Err(LineFault::Limit {
                which: Quantity::AllNodes,
            });
        }
        Ok(())
    }

    // The number of an output, which has to be known.
    fn output(&self, name: Name) -> Result<u32, LineFault>
        ensures { Answers (λ o. o) result (known name (drop self.now.reads self.now.slots)) }
    {
        known(name, &self.slots.as_slice()[self.reads as usize..])
    }

    // The expression over numbers, or the first name from the left that has none.
    fn resolve(&self, alloc: Global, written: &WrittenExpr) -> Result<Expr, LineFault>
        ensures { Answers expr_of result
            (resolved self.now.locals self.now.slots (written_of written.now)) }
    {
        resolve(
            alloc,
            written,
            self.locals.as_slice(),
            self.slots.as_slice(),
        )
    }

    /// The body that the lines are.
    pub fn finish(self) -> Result<Body, LineFault>
        ensures { IsEnd self result }
    {
        if !self.outer.is_empty() {
            drop(self);
            return Err(LineFault::Text);
        }
        if capped_work(self.current.as_slice()) > Limits::WORK {
            drop(self);
            return Err(LineFault::Limit {
                which: Quantity::Work,
            });
        }
        let writes = self.slots.len() as u32 - self.reads;
        Ok(Body::from_items(self.current, self.locals, self.reads, writes))
    }
}

fn written_nodes(expression: &WrittenExpr) -> u32
    requires { written_nodes (written_of expression.now) < 2 ^ 32 }
    ensures { result ≡ written_nodes (written_of expression.now) }
{
    match expression {
        WrittenExpr::Num(_) | WrittenExpr::Local(_) | WrittenExpr::Frame => 1,
        WrittenExpr::Get(_, index) => 1 + written_nodes(index.get()),
        WrittenExpr::Bin(_, a, b) => 1 + written_nodes(a.get()) + written_nodes(b.get()),
        WrittenExpr::Sel(c, a, b) => {
            1 + written_nodes(c.get()) + written_nodes(a.get()) + written_nodes(b.get())
        }
    }
}

// Tests that a loop more is within the limits.
fn fit_loop(loops: usize, count: u64) -> Result<(), LineFault>
    ensures { Answers (λ _. tt {0}) result (loop_fits loops count) }
{
    if loops >= Limits::LOOPS as usize {
        return Err(LineFault::Limit {
            which: Quantity::Loops,
        });
    }
    if count > u64::from(Limits::COUNT) {
        return Err(LineFault::Limit {
            which: Quantity::Count,
        });
    }
    Ok(())
}

// Tests that there is room for a local, unless it has its number already.
fn fit_local(locals: &[Name], name: Name) -> Result<(), LineFault>
    requires { length locals.now ≤ Limits.LOCALS }
    ensures { Answers (λ _. tt {0}) result (local_fits locals.now (index_of name locals.now)) }
{
    match index_of(name, locals) {
        Some(_) => Ok(()),
        None => {
            if locals.len() >= Limits::LOCALS as usize {
                return Err(LineFault::Limit {
                    which: Quantity::Locals,
                });
            }
            Ok(())
        }
    }
}

// The number of a local, which gets the next one where it has none.
fn number(locals: &mut NameList, name: Name) -> Result<u32, AllocError>
    requires { length locals.old ≤ Limits.LOCALS }
    ensures { IfOk result (λ l. numbered name locals.old (index_of name locals.old)
        ≡ (l, locals.new)) }
{
    match index_of(name, locals.as_slice()) {
        Some(l) => Ok(l),
        None => {
            let l = locals.len() as u32;
            locals.push(name)?;
            Ok(l)
        }
    }
}

// Appends a `set`, whose local gets the next number where it has none.
fn push_set(
    locals: &mut NameList,
    current: &mut Items<Stmt>,
    name: Name,
    value: Expr,
) -> Result<(), AllocError>
    requires { length locals.old ≤ Limits.LOCALS }
    ensures locals { OnOk result (locals.new
        ≡ (numbered name locals.old (index_of name locals.old)).1) }
    ensures current { OnOk result (current.new ≡ current.old
        ++ Stmt.Set (numbered name locals.old (index_of name locals.old)).0 value ∷ []) }
{
    let local = number(locals, name)?;
    current.push(Stmt::Set(local, value))
}

// Opens a loop, whose local gets the next number where it has none.
fn push_for(
    alloc: Global,
    locals: &mut NameList,
    outer: &mut Items<OpenLoop>,
    current: &mut Items<Stmt>,
    name: Name,
    count: u64,
) -> Result<(), AllocError>
    requires { length locals.old ≤ Limits.LOCALS }
    ensures locals { OnOk result (locals.new
        ≡ (numbered name locals.old (index_of name locals.old)).1) }
    ensures outer { OnOk result (outer.new ≡ outer.old ++ record {
      before = current.old;
      local = (numbered name locals.old (index_of name locals.old)).0;
      count = count;
    } ∷ []) }
    ensures current { OnOk result (current.new ≡ []) }
{
    let local = number(locals, name)?;
    let before = mem::replace(current, Items::new(alloc));
    outer.push(OpenLoop {
        before,
        local,
        count,
    })
}
