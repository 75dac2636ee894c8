// The names that a line lists.
ghost use Rattle.std.specs.Prelude.{◌≡◌, ◌+◌, ◌≤◌, IfOk, OnOk, List, ◌++◌, None, length};
ghost use Rattle.pyr_num.specs.declared.name.Name.{Name};
ghost use Rattle.pyr_graphtext.specs.declared.stage.Stage.{Stage};
ghost use Rattle.pyr_graphtext.specs.Tells.{Tells};
ghost use Rattle.pyr_graphtext.specs.Earlier.{datum_ids};
ghost use Rattle.pyr_graphtext.specs.Faults.{read_names_fault, written_names_fault, reads_fault, writes_fault};
ghost use Rattle.pyr_graphtext.specs.NameTests.{name_fault};

use crate::NameKind;
use crate::line_fault::LineFault;
use crate::name_table::NameTable;
use crate::stage::Stage;
use pyr_num::{DatumId, Limits, Name, NameList, Quantity};
use std::alloc::{AllocError, Global};

// What is wrong with one name of a list of data; `stands_later` tells whether it stands again later
// in the list.
fn name_fault(
    datums: &NameTable,
    others: &NameTable,
    stands_later: bool,
    name: Name,
) -> Option<LineFault>
    ensures { result ≡ name_fault datums.now others.now stands_later name }
{
    if !datums.contains(name) {
        return Some(LineFault::Names {
            kind: NameKind::Unknown,
            name,
        });
    }
    if stands_later {
        return Some(LineFault::Names {
            kind: NameKind::Duplicate,
            name,
        });
    }
    if others.contains(name) {
        return Some(LineFault::Names {
            kind: NameKind::SecondWriter,
            name,
        });
    }
    None
}

// Tests that each name is one of these data, that none stands twice, and that none is among the
// others; the first name from the left that fails is told. The list is gone through from its end,
// with the set of the names that stand later.
fn check_names(
    alloc: Global,
    datums: &NameTable,
    others: &NameTable,
    names: &[Name],
) -> Result<(), LineFault>
    ensures { Tells result (written_names_fault datums.now others.now names.now) }
{
    let mut later = NameTable::new(alloc);
    let mut fault = None;
    for at in (0..names.len()).rev() {
        let name = names[at];
        let is_last = later.insert(name)?;
        fault = name_fault(datums, others, !is_last, name).or(fault);
    }
    match fault {
        None => Ok(()),
        Some(fault) => Err(fault),
    }
}

// Tests that each name is one of these data and that none stands twice; the first name from the
// left that fails is told.
#[tactic(auto, using(crate::proofs::ListedNames::read_names_are))]
fn check_read_names(alloc: Global, datums: &NameTable, names: &[Name]) -> Result<(), LineFault>
    ensures { Tells result (read_names_fault datums.now names.now) }
{
    check_names(alloc, datums, &NameTable::new(alloc), names)
}

/// Tests a line `reads` with these names, where tasks read so many data already.
#[tactic(auto, unfolding(crate::specs::Faults::reads_fault))]
pub fn check_reads(
    alloc: Global,
    stage: Stage,
    datums: &NameTable,
    all_reads: u32,
    names: &NameList,
) -> Result<(), LineFault>
    requires { all_reads ≤ Limits.ALL_READS }
    ensures fault { Tells result (reads_fault stage datums.now all_reads names.now) }
    ensures few { OnOk result (length names.now ≤ Limits.READS) }
    ensures few_in_all { OnOk result (all_reads + length names.now ≤ Limits.ALL_READS) }
{
    if !stage.may_read() || names.is_empty() {
        return Err(LineFault::Text);
    }
    if names.len() > Limits::READS as usize {
        return Err(LineFault::Limit {
            which: Quantity::Reads,
        });
    }
    if all_reads + names.len() as u32 > Limits::ALL_READS {
        return Err(LineFault::Limit {
            which: Quantity::AllReads,
        });
    }
    check_read_names(alloc, datums, names.as_slice())
}

/// Tests a line `writes` with these names, where other tasks write these data.
#[tactic(auto, unfolding(crate::specs::Faults::writes_fault))]
pub fn check_writes(
    alloc: Global,
    stage: Stage,
    datums: &NameTable,
    others: &NameTable,
    names: &NameList,
) -> Result<(), LineFault>
    ensures fault { Tells result (writes_fault stage datums.now others.now names.now) }
    ensures few { OnOk result (length names.now ≤ Limits.WRITES) }
{
    if !stage.may_write() || names.is_empty() {
        return Err(LineFault::Text);
    }
    if names.len() > Limits::WRITES as usize {
        return Err(LineFault::Limit {
            which: Quantity::Writes,
        });
    }
    check_names(alloc, datums, others, names.as_slice())
}

/// The numbers of the data of these names.
pub fn datum_ids(
    alloc: Global,
    datums: &NameTable,
    names: &[Name],
) -> Result<Vec<DatumId>, AllocError>
    requires { length datums.now ≤ Limits.DATUMS }
    ensures { IfOk result (λ ids. ids.items ≡ datum_ids datums.now names.now) }
{
    let mut ids = Vec::new(alloc);
    for name in names {
        ids.push(DatumId(datums.place_of(*name) as u32))?;
    }
    Ok(ids)
}

/// Adds the names of a line `writes`. Where the line has no fault, they go behind the others.
pub fn insert_names(table: &mut NameTable, names: &[Name]) -> Result<(), AllocError>
    ensures { OnOk result ((stage : Stage) (datums : List Name)
        → writes_fault stage datums table.old names.now ≡ None
        → table.new ≡ table.old ++ names.now) }
{
    for name in names {
        table.insert(*name)?;
    }
    Ok(())
}
