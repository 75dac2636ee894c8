// The code of a task while its lines are being read.
ghost use Rattle.std.specs.Prelude.{◌≡◌, ◌+◌, ◌*◌, ◌<◌, ◌≤◌, length, min, IfOk, OnOk, OnErr};
ghost use Rattle.pyr_code.specs.Seen.{op_of, code_of};
ghost use Rattle.pyr_code.specs.Size.{op_work, code_work};
ghost use Rattle.pyr_bundletext.specs.Earlier as spec;
ghost use Rattle.pyr_bundletext.specs.Faults.{nodes_in};

use crate::open_loop::OpenLoop;
use crate::plain_op::PlainOp;
use pyr_code::Op;
use pyr_num::{Limits, TOO_MUCH, loop_work};
use sqlite_items::Items;
use std::alloc::{AllocError, Global};
use std::marker::Model;
use std::mem;

/// The ops so far: those of each open loop, outermost first, and then those of the innermost one.
#[derive(Drop)]
pub struct OpenCode {
    outer: Items<OpenLoop>,
    current: Items<Op>,
    nodes: u32,
}

impl Model for OpenCode {
    ghost use Rattle.std.specs.Prelude.{◌≡◌, reverse};
    ghost use Rattle.std.specs.Coded.{codes};
    ghost use Rattle.pyr_code.specs.contracts.op.Op as op;
    ghost use Rattle.pyr_bundletext.specs.Earlier.{Nest};
    ghost use Rattle.pyr_bundletext.specs.Faults.{nodes_in};

    ghost Value = { Nest };

    ghost coded = { Prim.hlevel (codes, op.the_row.coded) };

    ghost view = { λ c. record { outer = reverse c.outer; current = c.current } };

    ghost invariant = { λ c.
        c.nodes ≡ nodes_in (record { outer = reverse c.outer; current = c.current }) };
}

impl OpenCode {
    /// No op.
    pub fn new(alloc: Global) -> OpenCode
        ensures { result ≡ spec.no_code }
    {
        OpenCode {
            outer: Items::new(alloc),
            current: Items::new(alloc),
            nodes: 0,
        }
    }

    /// How many loops are open.
    pub fn loops(&self) -> usize
        ensures { result ≡ length self.now.outer }
    {
        self.outer.len()
    }

    /// How many ops there are.
    pub fn nodes(&self) -> u32
        ensures { result ≡ nodes_in self.now }
    {
        self.nodes
    }

    /// How many steps a run of the innermost ops takes, counted no further than one past the limit.
    pub fn work(&self) -> u64
        ensures { result ≡ min (code_work (code_of self.now.current)) TOO_MUCH }
    {
        capped_work(self.current.as_slice())
    }

    /// Appends an op that is no loop.
    #[tactic(auto, using(crate::proofs::CodeLemmas::with_op_nodes))]
    pub fn push(&mut self, op: PlainOp) -> Result<(), AllocError>
        requires { nodes_in self.old < Limits.NODES }
        ensures ok { OnOk result (self.new ≡ spec.with_op self.old (spec.plain_op op)) }
        ensures err { OnErr result (self.new ≡ self.old) }
    {
        self.current.push(op.op())?;
        self.nodes += 1;
        Ok(())
    }

    /// The code with a loop opened.
    #[tactic(auto, using(crate::proofs::CodeLemmas::with_loop_nodes))]
    pub fn open(mut self, alloc: Global, local: u64, count: u64) -> Result<OpenCode, AllocError>
        requires { nodes_in self < Limits.NODES }
        ensures { IfOk result (λ code. code ≡ spec.with_loop self local count) }
    {
        let before = mem::replace(&mut self.current, Items::new(alloc));
        self.outer.push(OpenLoop {
            before,
            local,
            count,
        })?;
        self.nodes += 1;
        Ok(self)
    }

    /// The code with the innermost loop ended, if one is open.
    #[tactic(auto, using(crate::proofs::CodeLemmas::ended_nodes))]
    pub fn close(mut self) -> Result<OpenCode, AllocError>
        ensures { IfOk result (λ code. code ≡ spec.ended self.outer self.current) }
    {
        let Some(open) = self.outer.pop() else {
            return Ok(self);
        };
        let OpenLoop {
            before,
            local,
            count,
        } = open;
        let turn = mem::replace(&mut self.current, before);
        self.current.push(Op::Loop(local, count, turn))?;
        Ok(self)
    }

    /// The ops of the innermost loop, or all where no loop is open.
    pub fn into_ops(self) -> Items<Op>
        ensures { result ≡ self.current }
    {
        self.current
    }
}

#[cycle(work)]
fn capped_work(ops: &[Op]) -> u64
    ensures { result ≡ min (code_work (code_of ops.now)) TOO_MUCH }
{
    let mut sum = 0;
    for op in ops {
        sum = u64::min(sum + op_work(op), TOO_MUCH);
    }
    sum
}

#[cycle(work)]
fn op_work(op: &Op) -> u64
    ensures { result ≡ min (op_work (op_of op.now)) TOO_MUCH }
{
    match op {
        Op::Loop(_, count, turn) => loop_work(*count, capped_work(turn.as_slice())),
        _ => 1,
    }
}
