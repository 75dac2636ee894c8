// The reader of bodies.
ghost use Rattle.std.specs.Prelude.{◌≡◌, ◌<◌, ◌≤◌, ◌^◌, Ok, length, IfOk};
ghost use Rattle.std.specs.Result.{result_err};
ghost use Rattle.pyr_lex.specs.Token.{tokens_in};
ghost use Rattle.pyr_body.specs.Taking.{no_lines};
ghost use Rattle.pyr_body.specs.Reader.{GoesOn, EndsWith};

use crate::reading::Reading;
use crate::taking::go_on;
use crate::{Body, LineFault, SlotNames};
use pyr_lex::SpannedToken;
use pyr_num::Limits;
use std::alloc::{AllocError, Global};
use std::marker::Model;
use std::mem;

/// Reads a body, one line of tokens after another. Contracts see what the lines taken so far come
/// to, or the refusal that the reader answers from then on.
#[derive(Drop)]
pub struct BodyReader {
    alloc: Global,
    state: Result<Reading, LineFault>,
}

impl Model for BodyReader {
    ghost use Rattle.std.specs.Prelude.{Result};
    ghost use Rattle.std.specs.Coded.{codes};
    ghost use Rattle.pyr_body.specs.declared.line_fault.LineFault.{LineFault};
    ghost use Rattle.pyr_body.specs.Taking.{LinesTaken};
    ghost use Rattle.pyr_body.specs.TreeCode.{expr_code};

    ghost Value = { Result LinesTaken LineFault };

    ghost coded = { Prim.hlevel (codes, expr_code) };

    ghost view = { λ b. b.state };
}

impl BodyReader {
    /// A reader that took no line yet, of a body over data with these names. `nodes_before` is how
    /// many nodes the bodies before it have.
    pub fn new(alloc: Global, names: SlotNames, nodes_before: u32) -> Result<BodyReader, AllocError>
        requires reads { length names.reads ≤ Limits.READS }
        requires writes { length names.writes ≤ Limits.WRITES }
        requires before { nodes_before ≤ Limits.ALL_NODES }
        ensures { IfOk result (λ r. r ≡ Ok (no_lines names.reads names.writes nodes_before)) }
    {
        let reading = Reading::new(alloc, names, nodes_before)?;
        Ok(BodyReader {
            alloc,
            state: Ok(reading),
        })
    }

    /// Takes a line. After a refusal every further call answers that refusal again, and takes no
    /// memory.
    pub fn line(&mut self, tokens: &[SpannedToken]) -> Result<(), LineFault>
        requires { length tokens.now < 2 ^ 32 }
        // a refusal stays, and any other line is taken or refused exactly as its tokens say
        ensures goes_on { GoesOn self.old (tokens_in tokens.now) self.new }
        // the answer is the refusal that the reader then has, if it has one
        ensures tells { result_err result ≡ result_err self.new }
    {
        let state = mem::replace(&mut self.state, Err(LineFault::Memory));
        self.state = go_on(self.alloc, state, tokens);
        match &self.state {
            Ok(_) => Ok(()),
            Err(fault) => Err(*fault),
        }
    }

    /// The body that the lines are. It takes no memory.
    pub fn finish(self) -> Result<Body, LineFault>
        ensures { EndsWith self result }
    {
        let BodyReader { alloc: _, state } = self;
        match state {
            Ok(reading) => reading.finish(),
            Err(fault) => Err(fault),
        }
    }
}
