// Stepping a net by hand.
use pyr_net::Net;

// Makes a step of this actor where it can make one.
pub(crate) fn step_one<N: Net>(net: &mut N, p: u32) -> bool {
    let can = p < net.actors() && net.enabled(p);
    if can {
        net.step(p);
    }
    can
}

// Steps this actor until it has no step, at most 1,000 times, and tells how many were made.
pub(crate) fn run_alone<N: Net>(net: &mut N, p: u32) -> u64 {
    for count in 0..1000 {
        if !step_one(net, p) {
            return count;
        }
    }
    1000
}

// Makes a step where one can be made, of the smallest actor or of the greatest.
pub(crate) fn step_any<N: Net>(net: &mut N, greatest: bool) -> bool {
    let mut found = None;
    for p in 0..net.actors() {
        if net.enabled(p) && (greatest || found.is_none()) {
            found = Some(p);
        }
    }
    match found {
        Some(p) => step_one(net, p),
        None => false,
    }
}

// Steps until there is no step, at most 1,000 times, and tells how many were made.
pub(crate) fn run_out<N: Net>(net: &mut N, greatest: bool) -> u64 {
    for count in 0..1000 {
        if !step_any(net, greatest) {
            return count;
        }
    }
    1000
}
