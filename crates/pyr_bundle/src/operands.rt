// Law 6: an instruction's datum, task and processor exist, and its processor isn't its own.
ghost use Rattle.std.specs.Prelude.{◌≡◌, OnOk, IfErr};
ghost use Rattle.pyr_bundle.specs.Law.{IsKept};
ghost use Rattle.pyr_bundle.specs.Laws.{is_other, fits, operands};
ghost use Rattle.pyr_bundle.specs.Faults.{IsBroken};

use crate::{BundleFault, RawBundle, RawInstr};

// Whether q is a processor other than p.
fn is_other(raw: &RawBundle, p: u64, q: u64) -> bool
    ensures { result ≡ is_other raw.now p q }
{
    q < raw.code.len() as u64 && q != p
}

// Whether what an instruction of p names exists, and is another processor than p.
fn fits(raw: &RawBundle, p: u64, instr: RawInstr) -> bool
    ensures { result ≡ fits raw.now p instr }
{
    let datums = raw.datums.len() as u64;
    match instr {
        RawInstr::Recv { from, datum } => is_other(raw, p, from) && datum < datums,
        RawInstr::Exec { task } => task < raw.tasks.len() as u64,
        RawInstr::Send { to, datum } => is_other(raw, p, to) && datum < datums,
    }
}

pub(crate) fn check_operands(raw: &RawBundle) -> Result<(), BundleFault>
    ensures ok { OnOk result (IsKept (operands raw.now)) }
    ensures fault { IfErr result (IsBroken 6 (operands raw.now)) }
{
    for (p, code) in raw.code.as_slice().iter().enumerate() {
        for (i, instr) in code.as_slice().iter().enumerate() {
            if !fits(raw, p as u64, *instr) {
                return Err(BundleFault::law(6, p, i));
            }
        }
    }
    Ok(())
}
