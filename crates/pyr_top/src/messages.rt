// The lines that tell faults of graph texts.
ghost use Rattle.std.specs.Prelude.{◌≡◌, ◌++◌, ◌∷◌, [], codes, decimal, IfOk, OnOk};
ghost use Rattle.std.specs.List.{flat_map};
ghost use Rattle.pyr_top.specs.Messages.{fault_line, quantity_name, kind_words, limit_line, cycle_line};

use pyr_decimal::put_decimal;
use pyr_graphtext::{NameKind, ProgramFault};
use pyr_num::{Name, Quantity};
use std::alloc::{AllocError, Global};

/// The line that tells a fault of a graph text, with its line feed.
pub fn fault_line(alloc: Global, fault: &ProgramFault) -> Result<Vec<u8>, AllocError>
    ensures { IfOk result (λ line. line.items ≡ fault_line fault.now) }
{
    let mut line = Vec::new(alloc);
    put_fault(&mut line, fault)?;
    Ok(line)
}

fn put_fault(line: &mut Vec<u8>, fault: &ProgramFault) -> Result<(), AllocError>
    ensures { OnOk result (line.new.items ≡ line.old.items ++ fault_line fault.now) }
{
    match fault {
        ProgramFault::BadText { line: at } => put_fault_at(line, *at, b"text", b""),
        ProgramFault::Limit { line: at, which } => put_limit(line, *at, *which),
        ProgramFault::Names {
            line: at,
            kind,
            name,
        } => put_fault_at(line, *at, kind_words(*kind), name.bytes()),
        ProgramFault::NoTask => line.extend_from_slice(b"no task\n"),
        ProgramFault::NoWriter { name } => put_no_writer(line, *name),
        ProgramFault::Cycle { names } => put_cycle(line, names.as_slice()),
        ProgramFault::Memory => line.extend_from_slice(b"no memory\n"),
    }
}

/// Appends the line on a limit that the line of this number passes.
pub(crate) fn put_limit(line: &mut Vec<u8>, at: u32, which: Quantity) -> Result<(), AllocError>
    ensures { OnOk result (line.new.items ≡ line.old.items ++ limit_line at which) }
{
    put_fault_at(line, at, b"limit ", quantity_name(which))
}

/// Appends what is wrong with the line of this number, and what is named by that.
pub(crate) fn put_fault_at(
    line: &mut Vec<u8>,
    at: u32,
    wrong: &[u8],
    name: &[u8],
) -> Result<(), AllocError>
    ensures { OnOk result (line.new.items
        ≡ line.old.items ++ codes "line " ++ decimal at ++ codes ": " ++ wrong.now ++ name.now ++ codes "\n") }
{
    line.extend_from_slice(b"line ")?;
    put_decimal(line, u64::from(at))?;
    line.extend_from_slice(b": ")?;
    put_words(line, wrong, name)
}

fn put_no_writer(line: &mut Vec<u8>, name: Name) -> Result<(), AllocError>
    ensures { OnOk result (line.new.items
        ≡ line.old.items ++ codes "no writer of " ++ name ++ codes "\n") }
{
    put_words(line, b"no writer of ", name.bytes())
}

// What is wrong and a name, to the end of the line.
fn put_words(line: &mut Vec<u8>, wrong: &[u8], name: &[u8]) -> Result<(), AllocError>
    ensures { OnOk result (line.new.items ≡ line.old.items ++ wrong.now ++ name.now ++ codes "\n") }
{
    line.extend_from_slice(wrong)?;
    line.extend_from_slice(name)?;
    line.extend_from_slice(b"\n")
}

fn put_cycle(line: &mut Vec<u8>, names: &[Name]) -> Result<(), AllocError>
    ensures { OnOk result (line.new.items ≡ line.old.items ++ cycle_line names.now) }
{
    line.extend_from_slice(b"cycle")?;
    for name in names {
        put_name(line, *name)?;
    }
    line.extend_from_slice(b"\n")
}

// A space and a name.
fn put_name(line: &mut Vec<u8>, name: Name) -> Result<(), AllocError>
    ensures { OnOk result (line.new.items ≡ line.old.items ++ 32 ∷ name) }
{
    line.push(b' ')?;
    line.extend_from_slice(name.bytes())
}

// What stands before the name.
fn kind_words(kind: NameKind) -> &'static [u8]
    ensures { result.now ≡ kind_words kind }
{
    match kind {
        NameKind::Unknown => b"unknown name ".as_slice(),
        NameKind::Duplicate => b"duplicate name ",
        NameKind::SecondWriter => b"second writer of ",
    }
}

// The name of a quantity in messages.
fn quantity_name(quantity: Quantity) -> &'static [u8]
    ensures { result.now ≡ quantity_name quantity }
{
    match quantity {
        Quantity::Input => b"input".as_slice(),
        Quantity::Processors => b"processors",
        Quantity::Tasks => b"tasks",
        Quantity::Datums => b"data",
        Quantity::Length => b"length",
        Quantity::Comm => b"comm",
        Quantity::Cost => b"cost",
        Quantity::Reads => b"reads",
        Quantity::AllReads => b"all-reads",
        Quantity::Writes => b"writes",
        Quantity::Depth => b"depth",
        Quantity::Nodes => b"nodes",
        Quantity::AllNodes => b"all-nodes",
        Quantity::Loops => b"loops",
        Quantity::Count => b"count",
        Quantity::Locals => b"locals",
        Quantity::Work => b"work",
        Quantity::AllWork => b"all-work",
        Quantity::Prints => b"prints",
        Quantity::Channels => b"channels",
        Quantity::Instructions => b"instructions",
        Quantity::Time => b"time",
        Quantity::Delay => b"delay",
    }
}
