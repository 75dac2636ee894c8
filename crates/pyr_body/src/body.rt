// The body of a task.
ghost use Rattle.std.specs.Prelude.{◌≡◌, ◌≤◌, length};
ghost use Rattle.pyr_body.specs.Seen.{statements_of};
ghost use Rattle.pyr_body.specs.Scope.{AreScoped};
ghost use Rattle.pyr_body.specs.Body.{IsBody, body_of};

use crate::Stmt;
use pyr_num::{Limits, Name, NameList};
use sqlite_items::Items;
use std::marker::Model;

/// The statements of a task, over its slots and over locals of their own. Contracts see the tree of
/// the statements, the names of the locals by number, and how many data the task reads and writes.
///
/// The slots and locals that the statements name exist. The names of the locals differ, and locals
/// are numbered in the order of their first `set` or `for`; an expression reads a local only behind
/// it. The statements are within the limits of one body: depth, nodes, loops, count, locals, work.
#[derive(Drop)]
pub struct Body {
    statements: Items<Stmt>,
    locals: NameList,
    reads: u32,
    writes: u32,
}

impl Model for Body {
    ghost use Rattle.std.specs.Coded.{codes};
    ghost use Rattle.pyr_body.specs.Parts.{BodyParts};
    ghost use Rattle.pyr_body.specs.TreeCode.{statements_code};

    ghost Value = { BodyParts };

    ghost coded = { Prim.hlevel (codes, statements_code) };

    ghost use Rattle.pyr_body.specs.Body.{IsBody, body_of};

    ghost view = { λ b. body_of b.statements b.locals b.reads b.writes };

    ghost invariant = { λ b. IsBody (body_of b.statements b.locals b.reads b.writes) };
}

impl Body {
    /// The body with these statements and these names of its locals. It takes no memory.
    pub fn new(statements: Vec<Stmt>, locals: Vec<Name>, reads: u32, writes: u32) -> Body
        requires { IsBody (body_of statements.items locals.items reads writes) }
        ensures { result ≡ body_of statements.items locals.items reads writes }
    {
        Body::from_items(
            Items::from_vec(statements),
            Items::from_vec(locals),
            reads,
            writes,
        )
    }

    // The same, of lists that have that form already.
    pub(crate) fn from_items(
        statements: Items<Stmt>,
        locals: NameList,
        reads: u32,
        writes: u32,
    ) -> Body
        requires { IsBody (body_of statements locals reads writes) }
        ensures { result ≡ body_of statements locals reads writes }
    {
        Body {
            statements,
            locals,
            reads,
            writes,
        }
    }

    /// The statements, in their order.
    pub fn statements(&self) -> &[Stmt]
        ensures value { statements_of result.now ≡ self.now.statements }
        ensures body { IsBody self.now }
        ensures scoped { AreScoped self.now.reads self.now.writes (length self.now.locals)
            self.now.statements }
    {
        self.statements.as_slice()
    }

    /// The names of the locals, by number.
    pub fn locals(&self) -> &[Name]
        ensures value { result.now ≡ self.now.locals }
        ensures few { length result.now ≤ Limits.LOCALS }
    {
        self.locals.as_slice()
    }

    /// How many data the task reads.
    pub fn reads(&self) -> u32
        ensures { result ≡ self.now.reads }
    {
        self.reads
    }

    /// How many data the task writes.
    pub fn writes(&self) -> u32
        ensures { result ≡ self.now.writes }
    {
        self.writes
    }
}
