// The processors of a bundle at their start.
ghost use Rattle.std.specs.Prelude.{◌≡◌, ◌<◌, ◌≤◌, length, map, IfOk};
ghost use Rattle.pyr_num.specs.declared.limits.TheConstants.Limits.{INSTRUCTIONS};
ghost use Rattle.pyr_bundle.specs.Parts.{processor_count};
ghost use Rattle.pyr_machine.specs.Machine.{capacity_of};
ghost use Rattle.pyr_machine.specs.Counts.{sends_to, all_sends};
ghost use Rattle.pyr_machine.specs.Station.{restarted, IsFresh, AreFresh};

use crate::station::Station;
use pyr_bundle::{Bundle, Instr};
use pyr_num::ProcId;
use std::alloc::{AllocError, Global};

// How many of these instructions send to p.
fn sends(code: &[Instr], p: u32) -> u32
    requires { length code.now ≤ INSTRUCTIONS }
    ensures count { result ≡ sends_to p code.now }
    ensures few { result ≤ length code.now }
{
    let mut count = 0;
    for instr in code {
        if let Instr::Send { to, .. } = instr {
            if to.0 == p {
                count += 1;
            }
        }
    }
    count
}

// How many parcels may come to p.
fn room_for(bundle: &Bundle, p: u32) -> u32
    ensures { result ≡ all_sends bundle.now p }
{
    bundle.well_formed();
    let mut count = 0;
    for q in 0..bundle.processors() {
        count += sends(bundle.code(ProcId(q)), p);
    }
    count
}

/// How many parcels the channel from p to q may hold. Where there is no channel, 0.
pub fn capacity(bundle: &Bundle, p: u32, q: u32) -> u32
    ensures { result ≡ capacity_of bundle.now p q }
{
    for channel in bundle.channels() {
        if channel.from.0 == p && channel.to.0 == q {
            return channel.capacity;
        }
    }
    0
}

// Processor p at the start.
fn fresh_station(alloc: Global, bundle: &Bundle, p: u32) -> Result<Station, AllocError>
    ensures { IfOk result (IsFresh bundle.now p) }
{
    let mut station = Station::new(alloc, bundle.datum_count(), room_for(bundle, p))?;
    for q in 0..bundle.processors() {
        station.add_channel(alloc, capacity(bundle, p, q))?;
    }
    Ok(station)
}

/// All processors at the start. For each of at most 64 processors this goes through all
/// instructions once, and through all channel lines once for each other processor.
pub fn fresh_stations(alloc: Global, bundle: &Bundle) -> Result<Vec<Station>, AllocError>
    ensures { IfOk result (λ v. AreFresh bundle.now (processor_count bundle.now) v.items) }
{
    let mut stations = Vec::new(alloc);
    for p in 0..bundle.processors() {
        stations.push(fresh_station(alloc, bundle, p)?)?;
    }
    Ok(stations)
}

/// Puts all processors back to their start. It takes no memory.
pub fn restart_all(stations: &mut [Station])
    ensures { stations.new ≡ map restarted stations.old }
{
    for station in stations.iter_mut() {
        station.restart();
    }
}
