// The first send whose parcel is left, where every processor has ended.
//
// Every instruction was executed then, so the parcel of a send is left exactly where no instruction
// of its receiver receives its datum.
ghost use Rattle.std.specs.Prelude.{◌≡◌, ◌<◌, length, IfOk, IfSome, IfNone};
ghost use Rattle.pyr_bundle.specs.Parts.{processor_count, code_at};
ghost use Rattle.pyr_loader.specs.Unreceived.{IsKnown, marked_by, AreMarks, AreReceipts, marks_at, mark_of, IsMarkable, unreceived_by, first_of, IsFirstIn, IsFirst, HasNone};

use pyr_bundle::{Bundle, Instr};
use pyr_num::{DatumId, ProcId};
use sqlite_items::Items;
use std::alloc::{AllocError, Global};

/// A send whose datum its receiver never receives.
#[derive(Clone, Copy)]
pub struct Unreceived {
    /// The sender.
    pub from: ProcId,
    /// The receiver.
    pub to: ProcId,
    /// The index of the send in the sender's code.
    pub place: usize,
    /// What is sent.
    pub datum: DatumId,
}

// Marks the datum that an instruction receives.
fn mark(marks: &mut [bool], instr: Instr)
    requires { IsKnown (length marks.old) instr }
    ensures { marks.new ≡ marked_by instr marks.old }
{
    if let Instr::Recv { datum, .. } = instr {
        marks[datum.0 as usize] = true;
    }
}

// For each datum, whether an instruction of this processor receives it.
fn marks_of(alloc: Global, bundle: &Bundle, p: ProcId) -> Result<Vec<bool>, AllocError>
    requires { p.0 < processor_count bundle.now }
    ensures { IfOk result (λ marks. AreMarks bundle.now p.0 marks.items) }
{
    bundle.well_formed();
    let mut marks = vec![in alloc; false; bundle.datum_count() as usize]?;
    for instr in bundle.code(p) {
        mark(&mut marks, *instr);
    }
    Ok(marks)
}

// The same for each processor. The marks are as many as the machine itself keeps for its stores.
fn receipts(alloc: Global, bundle: &Bundle) -> Result<Vec<Items<bool>>, AllocError>
    ensures { IfOk result (λ table.
        AreReceipts bundle.now (processor_count bundle.now) table.items) }
{
    let mut table = Vec::new(alloc);
    for p in 0..bundle.processors() {
        let marks = marks_of(alloc, bundle, ProcId(p))?;
        table.push(Items::from_vec(marks))?;
    }
    Ok(table)
}

// Whether a datum is received by this processor.
fn is_marked(table: &[Items<bool>], p: ProcId, d: DatumId) -> bool
    requires known { p.0 < length table.now }
    requires marked { d.0 < length (marks_at table.now p.0) }
    ensures { result ≡ mark_of table.now p.0 d.0 }
{
    table[p.0 as usize].as_slice()[d.0 as usize]
}

// The send that an instruction is, where its datum is never received.
fn unreceived_by(
    table: &[Items<bool>],
    from: ProcId,
    place: usize,
    instr: Instr,
) -> Option<Unreceived>
    requires { IsMarkable table.now instr }
    ensures { result ≡ unreceived_by table.now from place instr }
{
    let Instr::Send { to, datum } = instr else {
        return None;
    };
    if is_marked(table, to, datum) {
        return None;
    }
    Some(Unreceived {
        from,
        to,
        place,
        datum,
    })
}

// The first of two by receiver, where the one comes before the other in its sender's code.
fn first_of(one: Option<Unreceived>, later: Option<Unreceived>) -> Option<Unreceived>
    ensures { result ≡ first_of one later }
{
    match (one, later) {
        (Some(one), Some(later)) if later.to.0 < one.to.0 => Some(later),
        (Some(one), _) => Some(one),
        (None, later) => later,
    }
}

// Of a processor's sends that are never received, the first by receiver and place.
fn first_in(bundle: &Bundle, table: &[Items<bool>], from: ProcId) -> Option<Unreceived>
    requires from { from.0 < processor_count bundle.now }
    requires table { AreReceipts bundle.now (processor_count bundle.now) table.now }
    ensures { IsFirstIn bundle.now from.0 (length (code_at bundle.now from.0)) result }
{
    bundle.well_formed();
    let mut first = None;
    for (place, instr) in bundle.code(from).iter().enumerate() {
        first = first_of(first, unreceived_by(table, from, place, *instr));
    }
    first
}

/// Of all sends that are never received, the first by sender, receiver and place.
pub fn first_unreceived(alloc: Global, bundle: &Bundle) -> Result<Option<Unreceived>, AllocError>
    ensures some { IfOk result (λ first. IfSome first (IsFirst bundle.now)) }
    ensures none { IfOk result (λ first. IfNone first (HasNone bundle.now)) }
{
    let table = receipts(alloc, bundle)?;
    for p in 0..bundle.processors() {
        if let Some(first) = first_in(bundle, &table, ProcId(p)) {
            return Ok(Some(first));
        }
    }
    Ok(None)
}
