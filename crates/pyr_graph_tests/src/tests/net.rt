ghost use Rattle.std.specs.Prelude.{◌<◌};

use pyr_net::{
    Action, CONSUMER, Handover, HandoverLocal, Net, PRODUCER, first_enabled, run_to_end,
};
use std::test::Fail;

// Whether the net has come to its end, with its channel empty.
fn has_ended(net: &Handover) -> bool {
    let done = HandoverLocal {
        left: 0,
        held: None,
        last: 1,
    };
    first_enabled(net).is_none()
        && net.producer() == done
        && net.consumer() == done
        && net.channel_len() == 0
        && net.action(PRODUCER) == Action::Ended
        && net.action(CONSUMER) == Action::Ended
}

// Whether the actors make their steps in this order, one wherever it can and the other elsewhere,
// and come to the end.
fn ends_behind(net: &mut Handover, consumer_first: bool, order: &[u32]) -> bool {
    let (first, second) = if consumer_first {
        (CONSUMER, PRODUCER)
    } else {
        (PRODUCER, CONSUMER)
    };
    for wanted in order {
        let p = if net.enabled(first) { first } else { second };
        if p != *wanted || !net.enabled(p) {
            return false;
        }
        net.step(p);
    }
    has_ended(net)
}

#[test]
fn both_orders_end_alike(rt: HostRuntime) -> Result<(), Fail> {
    for (consumer_first, order) in &[
        (false, [0, 0, 0, 1, 0, 1, 1, 1]),
        (true, [0, 0, 1, 1, 0, 0, 1, 1]),
    ] {
        let mut net = Handover::new(rt.alloc(), 2, 1)?;
        assert!(rt; ends_behind(&mut net, *consumer_first, order));
    }
    Ok(())
}

// Whether the net comes to its end after exactly so many steps, the last of which is the consumer's.
fn takes(net: &mut Handover, steps: u64) -> bool
    requires { 0 < steps }
{
    net.actors() == 2
        && first_enabled(net) == Some(PRODUCER)
        && run_to_end(net, steps - 1).is_none()
        && first_enabled(net) == Some(CONSUMER)
        && run_to_end(net, 1) == Some(1)
        && has_ended(net)
}

#[test]
fn runs_to_the_end(rt: HostRuntime) -> Result<(), Fail> {
    for (items, capacity, steps) in &[(1, 1, 4), (2, 1, 8), (2, 2, 8), (5, 3, 20)] {
        let mut net = Handover::new(rt.alloc(), *items, *capacity)?;
        assert!(rt; takes(&mut net, *steps));
    }
    Ok(())
}

#[test]
fn is_stuck_without_room(rt: HostRuntime) -> Result<(), Fail> {
    let mut net = Handover::new(rt.alloc(), 2, 0)?;
    let steps = run_to_end(&mut net, 100);
    let waits = net.action(PRODUCER) == Action::Send { to: CONSUMER }
        && net.action(CONSUMER) == Action::Take { from: PRODUCER };
    assert!(rt; steps == Some(1) && waits);
    Ok(())
}
