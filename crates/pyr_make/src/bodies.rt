// The bodies of the generated program.
ghost use Rattle.std.specs.Prelude.{◌≡◌, ◌≤◌, IfOk, length, map, nat_eq};
ghost use Rattle.std.specs.List.{range_with_len, position_or_len};
ghost use Rattle.pyr_body.specs.Seen.{expr_of};
ghost use Rattle.pyr_body.specs.Tree.{Num, Get, Bin as bin_of};
ghost use Rattle.pyr_make.specs.Layered.{layered_body, layered_value, layered_reads, in_order};

use crate::rule::{first_predecessor, is_first_layer, second_predecessor};
use pyr_body::{Body, Expr, Stmt};
use pyr_num::{Bin, Limits};
use sqlite_items::Boxed;
use std::alloc::{AllocError, Global};

/// The bodies of all tasks, by number.
pub fn body_list(alloc: Global, tasks: u32) -> Result<Vec<Body>, AllocError>
    requires { tasks ≤ Limits.TASKS }
    ensures { IfOk result (λ bodies. bodies.items ≡ map layered_body (range_with_len 0 tasks)) }
{
    let mut bodies = Vec::with_capacity(alloc, tasks as usize)?;
    for task in 0..tasks {
        bodies.push(layered_body(alloc, task)?)?;
    }
    Ok(bodies)
}

// The body of a task: it puts its value into the one word that it writes.
fn layered_body(alloc: Global, task: u32) -> Result<Body, AllocError>
    requires { task ≤ Limits.TASKS }
    ensures { IfOk result (λ body. body ≡ layered_body task) }
{
    let value = layered_value(alloc, task)?;
    let statements = vec![in alloc; Stmt::Put(0, Expr::Num(0), value)]?;
    Ok(Body::new(statements, Vec::new(alloc), read_count(task), 1))
}

// How many data a task reads.
fn read_count(task: u32) -> u32
    requires { task ≤ Limits.TASKS }
    ensures { result ≡ length (layered_reads task) }
{
    if is_first_layer(task) {
        return 0;
    }
    if first_predecessor(task) == second_predecessor(task) {
        1
    } else {
        2
    }
}

// What a task writes.
fn layered_value(alloc: Global, task: u32) -> Result<Expr, AllocError>
    requires { task ≤ Limits.TASKS }
    ensures { IfOk result (λ value. expr_of value ≡ layered_value task) }
{
    if is_first_layer(task) {
        return binary(alloc, Bin::Add, Expr::Frame, Expr::Num(u64::from(task)));
    }
    let a = first_predecessor(task);
    let b = second_predecessor(task);
    combined(alloc, slot(a, b), slot(b, a), task)
}

// The slot of a datum of a task that reads it and this other one: they stand in their order, and
// there is one slot where they are the same.
fn slot(datum: u32, other: u32) -> u32
    ensures { result ≡ position_or_len (nat_eq datum) (in_order datum other) }
{
    if datum > other { 1 } else { 0 }
}

// The value `((a * 3) + (b + task))`, where `a` and `b` are the words of these slots.
fn combined(alloc: Global, a: u32, b: u32, task: u32) -> Result<Expr, AllocError>
    ensures { IfOk result (λ value. expr_of value
        ≡ bin_of Bin.Add (bin_of Bin.Mul (Get a (Num 0)) (Num 3))
        (bin_of Bin.Add (Get b (Num 0)) (Num task))) }
{
    let product = with_number(alloc, Bin::Mul, a, 3)?;
    let sum = with_number(alloc, Bin::Add, b, task)?;
    binary(alloc, Bin::Add, product, sum)
}

// An operator with the word of a slot and a number.
fn with_number(alloc: Global, op: Bin, slot: u32, number: u32) -> Result<Expr, AllocError>
    ensures { IfOk result (λ e. expr_of e ≡ bin_of op (Get slot (Num 0)) (Num number)) }
{
    let word = word(alloc, slot)?;
    binary(alloc, op, word, Expr::Num(u64::from(number)))
}

// The one word of a slot.
fn word(alloc: Global, slot: u32) -> Result<Expr, AllocError>
    ensures { IfOk result (λ e. expr_of e ≡ Get slot (Num 0)) }
{
    Ok(Expr::Get(slot, Boxed::new(alloc, Expr::Num(0))?))
}

// An operator with its operands.
fn binary(alloc: Global, op: Bin, a: Expr, b: Expr) -> Result<Expr, AllocError>
    ensures { IfOk result (λ e. expr_of e ≡ bin_of op (expr_of a) (expr_of b)) }
{
    let a = Boxed::new(alloc, a)?;
    let b = Boxed::new(alloc, b)?;
    Ok(Expr::Bin(op, a, b))
}
