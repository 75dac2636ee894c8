// The channels of codes.

ghost use Rattle.std.specs.Prelude.{◌≡◌, ◌<◌, ◌^◌, ◌++◌, map, count_by, length, IfOk, OnOk};
ghost use Rattle.pyr_bundle.specs.Laws.{is_send_to, pairs_from};
ghost use Rattle.pyr_emit.specs.Emission.{channel_of, channels_of};

use pyr_bundle::{RawChannel, RawInstr};
use sqlite_items::Items;
use std::alloc::{AllocError, Global};

/// Whether the instruction is a send to this processor.
fn is_send_to(instr: RawInstr, processor: u64) -> bool
    ensures { result ≡ is_send_to processor instr }
{
    match instr {
        RawInstr::Send { to, .. } => to == processor,
        RawInstr::Recv { .. } | RawInstr::Exec { .. } => false,
    }
}

/// The number of sends to a processor.
fn sends_to(code: &[RawInstr], processor: u64) -> u64
    ensures { result ≡ count_by (is_send_to processor) code.now }
{
    code.iter()
        .filter(|instr| is_send_to(**instr, processor))
        .count() as u64
}

/// Appends the channels from a processor, by rising destination.
fn push_channels(
    channels: &mut Vec<RawChannel>,
    code: &[Items<RawInstr>],
    from: usize,
) -> Result<(), AllocError>
    requires { from < length code.now }
    ensures { OnOk result (channels.new.items ≡ channels.old.items
        ++ map (channel_of code.now) (pairs_from code.now from)) }
{
    for to in 0..code.len() {
        let capacity = sends_to(code[from].as_slice(), to as u64);
        if capacity > 0 {
            channels.push(RawChannel {
                from: from as u64,
                to: to as u64,
                capacity,
            })?;
        }
    }
    Ok(())
}

/// The channels: a pair of processors with a send has one, with room for all its sends. For each
/// destination the codes are gone through once: there are few processors.
pub(crate) fn channels_of(
    alloc: Global,
    code: &[Items<RawInstr>],
) -> Result<Items<RawChannel>, AllocError>
    ensures { IfOk result (λ channels. channels ≡ channels_of code.now) }
{
    let mut channels = Vec::new(alloc);
    for from in 0..code.len() {
        push_channels(&mut channels, code, from)?;
    }
    Ok(Items::from_vec(channels))
}
