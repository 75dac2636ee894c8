use crate::tests::graphs::{HEAVY_DIAMOND, program_of};
use pyr_bundle::{Bundle, Capacity};
use pyr_calm::{
    calm, calm_capacities_never_wait, calmed, enough_room_never_waits, greatest_length_is_told,
    less_room_waits, lower_capacities_wait, one_greatest_length, one_list_is_calm,
    one_pass_serves_all, passages_tell,
};
use pyr_compile::compile;
use pyr_machine::Tags;
use pyr_net::run_to_end;
use pyr_num::ProcId;
use std::alloc::Global;

// Two data go from one processor to the other, and nothing goes back.
const SKEWED_DIAMOND: &[u8] = b"data x 1 1\ndata m 1 9\ndata y 1 1\ndata z 1 1\ndata w 1 0\n\
task a 2\nwrites x\nput x[0] = 1\nend\n\
task b 4\nreads x\nwrites m\nput m[0] = (x[0] + 1)\nend\n\
task c 12\nreads x\nwrites z\nput z[0] = (x[0] + 2)\nend\n\
task e 4\nreads m\nwrites y\nput y[0] = (m[0] + 1)\nend\n\
task d 1\nreads y z\nwrites w\nput w[0] = (y[0] + z[0])\nend\nprint w\n";

// Each of four tasks waits for the one before, and what they hand over costs nothing to send: so
// they alternate between two processors.
const CHAIN: &[u8] = b"data x 1 0\ndata y 1 0\ndata z 1 0\ndata w 1 0\n\
task a 1\nwrites x\nput x[0] = 1\nend\n\
task b 1\nreads x\nwrites y\nput y[0] = (x[0] + 1)\nend\n\
task c 1\nreads y\nwrites z\nput z[0] = (y[0] + 1)\nend\n\
task d 1\nreads z\nwrites w\nput w[0] = (z[0] + 1)\nend\nprint w\n";

const fn channel(from: u32, to: u32, capacity: u32) -> Capacity {
    Capacity {
        from: ProcId(from),
        to: ProcId(to),
        capacity,
    }
}

// The bundle of the program that has this text, with its calm capacities.
fn calmed_of(alloc: Global, text: &[u8]) -> Option<Bundle> {
    let program = program_of(alloc, text)?;
    let bundle = compile(alloc, &program, 2).ok()?;
    calmed(alloc, bundle).ok()
}

// Whether the calm capacities of the program that has this text are these, on two processors.
fn has_calm(alloc: Global, text: &[u8], lines: &[Capacity]) -> bool {
    let Some(program) = program_of(alloc, text) else {
        return false;
    };
    let Ok(bundle) = compile(alloc, &program, 2) else {
        return false;
    };
    match calm(alloc, &bundle) {
        Ok(found) => found.as_slice() == lines,
        Err(_) => false,
    }
}

#[test]
fn tells_calm_capacities(rt: HostRuntime) {
    assert!(rt; has_calm(rt.alloc(), HEAVY_DIAMOND, &[channel(0, 1, 2)]));
    assert!(rt; has_calm(rt.alloc(), SKEWED_DIAMOND, &[channel(1, 0, 2)]));
    assert!(rt; has_calm(rt.alloc(), CHAIN, &[channel(0, 1, 1), channel(1, 0, 1)]));
    greatest_length_is_told::<u32, u32>();
    enough_room_never_waits::<u32, u32>();
    less_room_waits::<u32, u32>();
    one_greatest_length::<u32, u32>();
    passages_tell::<u32, u32>();
    one_pass_serves_all();
    calm_capacities_never_wait();
    lower_capacities_wait();
    one_list_is_calm();
}

// Whether the chain has room for one parcel in each channel, and runs to its end so.
fn chain_runs(alloc: Global, bundle: &Bundle) -> bool {
    let Ok(mut tags) = Tags::new(alloc, bundle) else {
        return false;
    };
    run_to_end(&mut tags, 1000) == Some(13)
        && bundle.channels() == [channel(0, 1, 1), channel(1, 0, 1)].as_slice()
}

#[test]
fn a_chain_runs_with_one_parcel_in_each_channel(rt: HostRuntime) {
    assert!(rt; calmed_of(rt.alloc(), CHAIN).is_some_and(|bundle| chain_runs(rt.alloc(), &bundle)));
}
