// Names and the numbers that they stand for.
ghost use Rattle.std.specs.Prelude.{◌≡◌, ◌<◌, ◌^◌, length};
ghost use Rattle.pyr_body.specs.Seen.{expr_of};
ghost use Rattle.pyr_body.specs.WrittenSeen.{written_of};
ghost use Rattle.pyr_body.specs.Names.{Answers, index_of, known, resolved};

use crate::written_expr::WrittenExpr;
use crate::{Expr, LineFault};
use pyr_num::Name;
use sqlite_items::Boxed;
use std::alloc::Global;

/// The first place of a name. It is sought from the front: locals are at most `Limits::LOCALS`, and
/// only one task of a graph can have many slots, since each datum is written once.
pub fn index_of(name: Name, names: &[Name]) -> Option<u32>
    requires { length names.now < 2 ^ 32 }
    ensures { result ≡ index_of name names.now }
{
    for (i, other) in names.iter().enumerate() {
        if *other == name {
            return Some(i as u32);
        }
    }
    None
}

/// The number of a name, which has to be known.
pub fn known(name: Name, names: &[Name]) -> Result<u32, LineFault>
    requires { length names.now < 2 ^ 32 }
    ensures { Answers (λ i. i) result (known name names.now) }
{
    match index_of(name, names) {
        Some(i) => Ok(i),
        None => Err(LineFault::Unknown { name }),
    }
}

/// The expression over numbers, or the first name from the left that has none.
pub fn resolve(
    alloc: Global,
    written: &WrittenExpr,
    locals: &[Name],
    slots: &[Name],
) -> Result<Expr, LineFault>
    requires locals { length locals.now < 2 ^ 32 }
    requires slots { length slots.now < 2 ^ 32 }
    ensures { Answers expr_of result (resolved locals.now slots.now (written_of written.now)) }
{
    match written {
        WrittenExpr::Num(word) => Ok(Expr::Num(*word)),
        WrittenExpr::Local(name) => Ok(Expr::Local(known(*name, locals)?)),
        WrittenExpr::Frame => Ok(Expr::Frame),
        WrittenExpr::Get(name, index) => {
            let slot = known(*name, slots)?;
            let index = boxed(alloc, resolve(alloc, index.get(), locals, slots))?;
            Ok(Expr::Get(slot, index))
        }
        WrittenExpr::Bin(operator, a, b) => {
            let a = boxed(alloc, resolve(alloc, a.get(), locals, slots))?;
            let b = boxed(alloc, resolve(alloc, b.get(), locals, slots))?;
            Ok(Expr::Bin(*operator, a, b))
        }
        WrittenExpr::Sel(c, a, b) => {
            let c = boxed(alloc, resolve(alloc, c.get(), locals, slots))?;
            let a = boxed(alloc, resolve(alloc, a.get(), locals, slots))?;
            let b = boxed(alloc, resolve(alloc, b.get(), locals, slots))?;
            Ok(Expr::Sel(c, a, b))
        }
    }
}

// Puts an expression in a box of its own, unless it was refused.
fn boxed(alloc: Global, expression: Result<Expr, LineFault>) -> Result<Boxed<Expr>, LineFault>
    ensures { Answers (λ e. e) result expression }
{
    Ok(Boxed::new(alloc, expression?)?)
}
