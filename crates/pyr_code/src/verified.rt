ghost use Rattle.std.specs.Prelude.{◌≡◌, ◌≤◌, ◌↔◌, IsOk, IfOk};
ghost use Rattle.std.specs.Result.{result_err};
ghost use Rattle.pyr_code.specs.Seen.{code_of};
ghost use Rattle.pyr_code.specs.Size.{code_work, IsWithinLimits};
ghost use Rattle.pyr_code.specs.Height.{greatest_height};
ghost use Rattle.pyr_code.specs.WellFormed.{IsWellFormed};
ghost use Rattle.pyr_code.specs.Fault.{first_fault};
ghost use Rattle.pyr_code.specs.Verified.{IsVerified};

use crate::sizes::{ops_heights, ops_work};
use crate::walking::walk;
use crate::{CodeFault, MAX_HEIGHT, Op, Shape};
use pyr_num::Limits;
use sqlite_items::Items;
use std::marker::Model;

/// Code that was checked once, and never goes wrong: well-formed for its shape, and within the
/// limits. Contracts see the ops and the shape.
#[derive(Drop)]
pub struct Verified {
    ops: Items<Op>,
    shape: Shape,
}

impl Model for Verified {
    ghost use Rattle.std.specs.Coded.{codes};
    ghost use Rattle.pyr_code.specs.contracts.op.Op as op;
    ghost use Rattle.pyr_code.specs.Verified.{ShapedCode, IsVerified};

    ghost Value = { ShapedCode };

    ghost coded = { Prim.hlevel (codes, op.the_row.coded) };

    ghost view = { λ v. record { ops = v.ops; shape = v.shape } };

    ghost invariant = { λ v. IsVerified (record { ops = v.ops; shape = v.shape }) };
}

/// Checks code once and for all: accepts exactly well-formed code, and otherwise tells the first
/// fault in text order. It takes no memory, and `CodeFault::Memory` never comes.
pub fn verify(code: Vec<Op>, shape: Shape) -> Result<Verified, CodeFault>
    requires { IsWithinLimits shape (code_of code.items) }
    ensures accepted { IsOk result ↔ IsWellFormed shape (code_of code.items) }
    ensures value { IfOk result (λ v. v ≡ record { ops = code.items; shape = shape }) }
    ensures fault { result_err result ≡ first_fault shape (code_of code.items) }
{
    walk(code.as_slice(), shape)?;
    Ok(Verified {
        ops: Items::from_vec(code),
        shape,
    })
}

impl Verified {
    /// What the code may name.
    pub fn shape(&self) -> Shape
        ensures value { result ≡ self.now.shape }
        ensures few_locals { result.locals ≤ Limits.LOCALS }
    {
        self.shape
    }

    /// The ops, from the first to the last. They are well-formed, and within the limits.
    pub fn ops(&self) -> &[Op]
        ensures value { result.now ≡ self.now.ops }
        ensures verified { IsVerified self.now }
    {
        self.ops.as_slice()
    }

    /// The steps of a run: one for each op, and one for each turn of a loop.
    pub fn work(&self) -> u64
        ensures value { result ≡ code_work (code_of self.now.ops) }
        ensures few { result ≤ Limits.WORK }
    {
        ops_work(self.ops.as_slice())
    }

    /// The greatest height of the stack, in words.
    pub fn height(&self) -> u32
        ensures value { result ≡ greatest_height (code_of self.now.ops) 0 }
        ensures low { result ≤ MAX_HEIGHT }
    {
        let (_, greatest) = ops_heights(self.ops.as_slice(), self.shape, 0);
        greatest
    }
}
