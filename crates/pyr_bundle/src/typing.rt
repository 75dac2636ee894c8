// From plain numbers to what they name, where they are known to name it.
ghost use Rattle.std.specs.Prelude.{◌≡◌, All, map, IfOk};
ghost use Rattle.pyr_bundle.specs.Tables.{FitsId, HasIds, HasSmallNumbers};
ghost use Rattle.pyr_bundle.specs.Parts.{datum_id, capacity_of, instr_of};

use crate::{Capacity, Instr, RawBundle, RawChannel, RawInstr};
use pyr_num::{DatumId, ProcId, TaskId};
use sqlite_items::Items;
use std::alloc::{AllocError, Global};

pub(crate) fn datum_ids(alloc: Global, numbers: &[u64]) -> Result<Items<DatumId>, AllocError>
    requires { All FitsId numbers.now }
    ensures { IfOk result (λ ids. ids ≡ map datum_id numbers.now) }
{
    let mut ids = Vec::with_capacity(alloc, numbers.len())?;
    for number in numbers {
        ids.push(DatumId(*number as u32))?;
    }
    Ok(Items::from_vec(ids))
}

fn instr_of(instr: RawInstr) -> Instr
    requires { HasIds instr }
    ensures { result ≡ instr_of instr }
{
    match instr {
        RawInstr::Recv { from, datum } => Instr::Recv {
            from: ProcId(from as u32),
            datum: DatumId(datum as u32),
        },
        RawInstr::Exec { task } => Instr::Exec {
            task: TaskId(task as u32),
        },
        RawInstr::Send { to, datum } => Instr::Send {
            to: ProcId(to as u32),
            datum: DatumId(datum as u32),
        },
    }
}

fn instrs_of(alloc: Global, code: &[RawInstr]) -> Result<Items<Instr>, AllocError>
    requires { All HasIds code.now }
    ensures { IfOk result (λ instrs. instrs ≡ map instr_of code.now) }
{
    let mut instrs = Vec::with_capacity(alloc, code.len())?;
    for instr in code {
        instrs.push(instr_of(*instr))?;
    }
    Ok(Items::from_vec(instrs))
}

fn codes_of(alloc: Global, codes: &[Items<RawInstr>]) -> Result<Items<Items<Instr>>, AllocError>
    requires { All (All HasIds) codes.now }
    ensures { IfOk result (λ typed. typed ≡ map (map instr_of) codes.now) }
{
    let mut typed = Vec::with_capacity(alloc, codes.len())?;
    for code in codes {
        typed.push(instrs_of(alloc, code.as_slice())?)?;
    }
    Ok(Items::from_vec(typed))
}

fn capacity_of(channel: RawChannel) -> Capacity
    requires { HasSmallNumbers channel }
    ensures { result ≡ capacity_of channel }
{
    Capacity {
        from: ProcId(channel.from as u32),
        to: ProcId(channel.to as u32),
        capacity: channel.capacity as u32,
    }
}

fn capacities_of(alloc: Global, channels: &[RawChannel]) -> Result<Items<Capacity>, AllocError>
    requires { All HasSmallNumbers channels.now }
    ensures { IfOk result (λ capacities. capacities ≡ map capacity_of channels.now) }
{
    let mut capacities = Vec::with_capacity(alloc, channels.len())?;
    for channel in channels {
        capacities.push(capacity_of(*channel))?;
    }
    Ok(Items::from_vec(capacities))
}

/// The lists of a bundle whose numbers only name things.
#[derive(Drop)]
pub(crate) struct TypedLists {
    pub(crate) prints: Items<DatumId>,
    pub(crate) channels: Items<Capacity>,
    pub(crate) code: Items<Items<Instr>>,
}

/// The printed data, the channels and the code of raw parts.
pub(crate) fn typed_lists(alloc: Global, raw: &RawBundle) -> Result<TypedLists, AllocError>
    requires prints { All FitsId raw.now.prints }
    requires channels { All HasSmallNumbers raw.now.channels }
    requires code { All (All HasIds) raw.now.code }
    ensures prints { IfOk result (λ lists. lists.prints ≡ map datum_id raw.now.prints) }
    ensures channels { IfOk result (λ lists. lists.channels ≡ map capacity_of raw.now.channels) }
    ensures code { IfOk result (λ lists. lists.code ≡ map (map instr_of) raw.now.code) }
{
    Ok(TypedLists {
        prints: datum_ids(alloc, raw.prints.as_slice())?,
        channels: capacities_of(alloc, raw.channels.as_slice())?,
        code: codes_of(alloc, raw.code.as_slice())?,
    })
}
