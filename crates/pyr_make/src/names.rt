// The names of the generated program.
ghost use Rattle.std.specs.Prelude.{◌≡◌, ◌≤◌, ◌++◌, IfOk, IsTrue, decimal, map};
ghost use Rattle.std.specs.List.{range_with_len};
ghost use Rattle.pyr_num.specs.Name.{is_name};
ghost use Rattle.pyr_make.specs.Layered.{layered_datum_name, layered_task_name};

use pyr_num::Name;
use std::alloc::{AllocError, Global};

// The names of the data, by number.
fn datum_names(alloc: Global, datums: u32) -> Result<Vec<Name>, AllocError>
    ensures { IfOk result (λ names. names.items
        ≡ map layered_datum_name (range_with_len 0 datums)) }
{
    let mut names = Vec::with_capacity(alloc, datums as usize)?;
    for datum in 0..datums {
        names.push(numbered(alloc, "d", datum)?)?;
    }
    Ok(names)
}

// The names of the tasks, by number.
fn task_names(alloc: Global, tasks: u32) -> Result<Vec<Name>, AllocError>
    ensures { IfOk result (λ names. names.items
        ≡ map layered_task_name (range_with_len 0 tasks)) }
{
    let mut names = Vec::with_capacity(alloc, tasks as usize)?;
    for task in 0..tasks {
        names.push(numbered(alloc, "t", task)?)?;
    }
    Ok(names)
}

/// The names of the data and of the tasks where there are so many of each, by number.
pub fn all_names(alloc: Global, tasks: u32) -> Result<(Vec<Name>, Vec<Name>), AllocError>
    ensures datums { IfOk result (λ names. names.0.items
        ≡ map layered_datum_name (range_with_len 0 tasks)) }
    ensures tasks { IfOk result (λ names. names.1.items
        ≡ map layered_task_name (range_with_len 0 tasks)) }
{
    let of_datums = datum_names(alloc, tasks)?;
    let of_tasks = task_names(alloc, tasks)?;
    Ok((of_datums, of_tasks))
}

// The name of these letters with a number behind them.
fn numbered(alloc: Global, letters: &str, number: u32) -> Result<Name, AllocError>
    requires { IsTrue (is_name (letters.now ++ decimal number)) }
    ensures { IfOk result (λ name. name ≡ letters.now ++ decimal number) }
{
    let text = format!(in alloc; "{letters}{number}")?;
    match Name::new(text.as_bytes()) {
        Some(name) => Ok(name),
        None => unreachable!(),
    }
}
