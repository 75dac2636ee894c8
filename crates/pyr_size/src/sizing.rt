ghost use Rattle.std.specs.Prelude.{◌≡◌, ◌<◌, ◌++◌, All, IfOk, OnOk, map};
ghost use Rattle.pyr_bundle.specs.Parts.{task_count};
ghost use Rattle.pyr_bundle.specs.WellFormed.{IsFineCapacity};
ghost use Rattle.pyr_size.specs.Blocks.{order_schedule};
ghost use Rattle.pyr_size.specs.Followed.{number_of, IsKnown};
ghost use Rattle.pyr_size.specs.Sizes.{resized, Completes, AreSizes};

use crate::following::follow;
use crate::lengths::Lengths;
use crate::schedule::schedule_of;
use pyr_bundle::{Bundle, Capacity};
use pyr_machine::Tags;
use pyr_num::TaskId;
use std::alloc::{AllocError, Global};

// Appends channels, each with the greatest number of parcels that is noted for it.
fn push_sizes(
    capacities: &mut Vec<Capacity>,
    channels: &[Capacity],
    lengths: &Lengths,
) -> Result<(), AllocError>
    requires known { All (IsKnown lengths.now.size) channels.now }
    ensures { OnOk result (capacities.new.items
        ≡ capacities.old.items ++ map (resized (number_of lengths.now)) channels.now) }
{
    for channel in channels {
        capacities.push(Capacity {
            capacity: lengths.of(channel.from.0, channel.to.0),
            ..*channel
        })?;
    }
    Ok(())
}

/// The channels of a bundle, each with the greatest number of parcels that it has in it along the run
/// that makes, task by task in this order, all steps of the block of the task: the receives directly
/// before the task is executed, its execution, and the sends directly behind.
///
/// That run is complete, and the order has tasks of the bundle alone. It is made with data in place of
/// words, and executes no task.
///
/// The error says that memory ran out. All memory is taken before the first step. The time is linear in
/// the instructions, but for what a machine takes to start.
pub fn sizes(alloc: Global, bundle: &Bundle, order: &[TaskId]) -> Result<Vec<Capacity>, AllocError>
    requires known { All (λ t. t.0 < task_count bundle.now) order.now }
    requires complete { Completes bundle.now
        (order_schedule bundle.now (map (λ t. t.0) order.now)) }

    // They are exactly the occupancies along this run.
    ensures sizes { IfOk result (λ capacities.
        AreSizes bundle.now (map (λ t. t.0) order.now) capacities.items) }

    // Each is from 1 to the number of sends of its channel.
    ensures fine { IfOk result (λ capacities.
        All (IsFineCapacity bundle.now) capacities.items) }
{
    bundle.well_formed();
    let schedule = schedule_of(alloc, bundle, order)?;
    let mut lengths = Lengths::new(alloc, bundle.processors())?;
    let mut capacities = Vec::with_capacity(alloc, bundle.channels().len())?;
    let mut tags = Tags::new(alloc, bundle)?;
    follow(bundle, &schedule, &mut tags, &mut lengths);
    push_sizes(&mut capacities, bundle.channels(), &lengths)?;
    Ok(capacities)
}
