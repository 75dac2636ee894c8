// Where the processors stand that can't go on.
ghost use Rattle.std.specs.Prelude.{◌≡◌, ◌<◌, ◌↔◌, slice_get, IsTrue, IfOk};
ghost use Rattle.pyr_net.specs.Run.{HasNoStep, IsEnded};
ghost use Rattle.pyr_bundle.specs.Parts.{processor_count, code_at};
ghost use Rattle.pyr_machine.specs.Machine.{tag_rules};
ghost use Rattle.pyr_machine.specs.Station.{world_of};
ghost use Rattle.pyr_loader.specs.Stops.{first_missing, stop_of, stops_of};

use crate::stop::{Reason, Stop};
use pyr_bundle::{Bundle, Instr};
use pyr_machine::Tags;
use pyr_net::{Action, Net};
use pyr_num::{DatumId, ProcId};
use sqlite_items::Items;
use std::alloc::{AllocError, Global};

/// Whether every processor has ended.
pub fn all_ended(tags: &Tags<'_>) -> bool
    ensures { IsTrue result ↔ IsEnded (tag_rules tags.now.bundle) (world_of tags.now.posts) }
{
    for p in 0..tags.actors() {
        if tags.action(p) != Action::Ended {
            return false;
        }
    }
    true
}

// The first of these data that isn't in the processor's store.
fn missing(tags: &Tags<'_>, p: ProcId, datums: &[DatumId]) -> Option<DatumId>
    requires { p.0 < processor_count tags.now.bundle }
    ensures { result ≡ first_missing ((world_of tags.now.posts).locals p.0).store datums.now }
{
    for d in datums {
        if !tags.has(p, *d) {
            return Some(*d);
        }
    }
    None
}

// The instruction at a place of a processor's code; at its end, none.
fn instr_of(bundle: &Bundle, p: ProcId, place: u32) -> Option<Instr>
    requires { p.0 < processor_count bundle.now }
    ensures { result ≡ slice_get (code_at bundle.now p.0) place }
{
    bundle.code(p).get(place as usize).copied()
}

// Where a processor stands, and why it can't go on.
fn stop_at(bundle: &Bundle, tags: &Tags<'_>, p: ProcId) -> Stop
    requires rules { tag_rules tags.now.bundle ≡ tag_rules bundle.now }
    requires stopped { HasNoStep (tag_rules bundle.now) (world_of tags.now.posts) }
    requires actor { p.0 < processor_count bundle.now }
    ensures { result ≡ stop_of bundle.now (world_of tags.now.posts) p.0 }
{
    bundle.well_formed();
    let place = tags.place(p);
    let reason = match instr_of(bundle, p, place) {
        None => Reason::Ended,
        Some(Instr::Recv { from, .. }) => Reason::Empty { from },
        Some(Instr::Exec { task }) => {
            let reads = bundle.task(task).reads.as_slice();
            let datum = missing(tags, p, reads).unwrap();
            Reason::Lacks { datum }
        }
        Some(Instr::Send { to, datum }) => {
            if tags.has(p, datum) {
                Reason::Full { to }
            } else {
                Reason::Lacks { datum }
            }
        }
    };
    Stop { place, reason }
}

/// Where each processor stands, and why it can't go on, where none can.
pub fn stops(alloc: Global, bundle: &Bundle, tags: &Tags<'_>) -> Result<Items<Stop>, AllocError>
    requires rules { tag_rules tags.now.bundle ≡ tag_rules bundle.now }
    requires stopped { HasNoStep (tag_rules bundle.now) (world_of tags.now.posts) }
    ensures { IfOk result (λ stops. stops ≡ stops_of bundle.now (world_of tags.now.posts)) }
{
    let mut stops = Vec::new(alloc);
    for p in 0..bundle.processors() {
        stops.push(stop_at(bundle, tags, ProcId(p)))?;
    }
    Ok(Items::from_vec(stops))
}
