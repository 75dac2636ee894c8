// The lines that tell why no bundle is loaded.
ghost use Rattle.std.specs.Prelude.{◌≡◌, ◌++◌, codes, IfOk, OnOk};
ghost use Rattle.pyr_loader.specs.declared.load_fault.LoadFault.TheVariants.{Law, Leftover};
ghost use Rattle.pyr_top.specs.LoadMessages.{load_line, reason_text, stop_text, before_stop, stops_text};

use crate::figures::put_figure;
use crate::messages::{put_fault_at, put_limit};
use pyr_decimal::{put_decimal, put_number};
use pyr_loader::{LoadFault, Reason, Stop};
use pyr_num::{DatumId, ProcId};
use std::alloc::{AllocError, Global};

/// The line that tells why no bundle is loaded, with its line feed.
pub fn load_line(alloc: Global, fault: &LoadFault) -> Result<Vec<u8>, AllocError>
    ensures { IfOk result (λ line. line.items ≡ load_line fault.now) }
{
    let mut line = Vec::new(alloc);
    put_load_fault(&mut line, fault)?;
    Ok(line)
}

fn put_load_fault(line: &mut Vec<u8>, fault: &LoadFault) -> Result<(), AllocError>
    ensures { OnOk result (line.new.items ≡ line.old.items ++ load_line fault.now) }
{
    match fault {
        LoadFault::BadText { line: at } => put_fault_at(line, *at, b"text", b""),
        LoadFault::Limit { line: at, which } => put_limit(line, *at, *which),
        LoadFault::Law { number, a, b } => put_law(line, *number, *a, *b),
        LoadFault::Stuck { processors } => put_stuck(line, processors.as_slice()),
        LoadFault::Leftover { from, to, datum } => put_leftover(line, *from, *to, *datum),
        LoadFault::Memory => line.extend_from_slice(b"no memory\n"),
    }
}

fn put_law(line: &mut Vec<u8>, number: u32, a: u64, b: u64) -> Result<(), AllocError>
    ensures { OnOk result (line.new.items ≡ line.old.items ++ load_line (Law number a b)) }
{
    put_figure(line, b"law", u64::from(number))?;
    put_figure(line, b" at", a)?;
    put_number(line, b)?;
    line.extend_from_slice(b"\n")
}

fn put_leftover(
    line: &mut Vec<u8>,
    from: ProcId,
    to: ProcId,
    datum: DatumId,
) -> Result<(), AllocError>
    ensures { OnOk result (line.new.items ≡ line.old.items ++ load_line (Leftover from to datum)) }
{
    put_figure(line, b"leftover", u64::from(from.0))?;
    put_number(line, u64::from(to.0))?;
    put_number(line, u64::from(datum.0))?;
    line.extend_from_slice(b"\n")
}

fn put_stuck(line: &mut Vec<u8>, stops: &[Stop]) -> Result<(), AllocError>
    ensures { OnOk result (line.new.items ≡ line.old.items ++ stops_text 0 stops.now ++ codes "\n") }
{
    put_stops(line, stops)?;
    line.extend_from_slice(b"\n")
}

fn put_stops(line: &mut Vec<u8>, stops: &[Stop]) -> Result<(), AllocError>
    ensures { OnOk result (line.new.items ≡ line.old.items ++ stops_text 0 stops.now) }
{
    for p in 0..stops.len() {
        line.extend_from_slice(before_stop(p))?;
        put_stop(line, p as u64, stops[p])?;
    }
    Ok(())
}

// What stands before the stop of a processor.
fn before_stop(p: usize) -> &'static [u8]
    ensures { result.now ≡ before_stop p }
{
    if p == 0 { b"stuck ".as_slice() } else { b", " }
}

// Where a processor stands, and why.
fn put_stop(line: &mut Vec<u8>, p: u64, stop: Stop) -> Result<(), AllocError>
    ensures { OnOk result (line.new.items ≡ line.old.items ++ stop_text p stop) }
{
    put_decimal(line, p)?;
    line.push(b':')?;
    put_decimal(line, u64::from(stop.place))?;
    line.push(b' ')?;
    put_reason(line, stop.reason)
}

fn put_reason(line: &mut Vec<u8>, reason: Reason) -> Result<(), AllocError>
    ensures { OnOk result (line.new.items ≡ line.old.items ++ reason_text reason) }
{
    match reason {
        Reason::Ended => line.extend_from_slice(b"ended"),
        Reason::Empty { from } => put_figure(line, b"empty", u64::from(from.0)),
        Reason::Full { to } => put_figure(line, b"full", u64::from(to.0)),
        Reason::Lacks { datum } => put_figure(line, b"lacks", u64::from(datum.0)),
    }
}
