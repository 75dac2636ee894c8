// The code of each processor.

ghost use Rattle.std.specs.Prelude.{◌≡◌, ◌<◌, All, IfOk};
ghost use Rattle.pyr_graph.specs.System.{task_count, task_numbers};
ghost use Rattle.pyr_rcp.specs.Order.{IsPlaced};
ghost use Rattle.pyr_emit.specs.Emission.{code_on, codes};
ghost use Rattle.pyr_emit.specs.Marks.{AreReaders};

use crate::blocks::push_block;
use crate::readers::{mark, processor_of, readers_of};
use pyr_bundle::RawInstr;
use pyr_graph::{Graph, Placement};
use pyr_num::TaskId;
use sqlite_items::Items;
use std::alloc::{AllocError, Global};

/// The code of a processor.
fn code_on(
    alloc: Global,
    graph: &Graph,
    placement: &Placement,
    order: &[TaskId],
    readers: &[Items<bool>],
    processor: u32,
) -> Result<Items<RawInstr>, AllocError>
    requires placed { IsPlaced graph.now placement.now }
    requires tasks { All (λ t. t.0 < task_count graph.now) order.now }
    requires readers { AreReaders graph.now placement.now (task_numbers order.now) readers.now }
    ensures { IfOk result
        (λ code. code ≡ code_on graph.now placement.now (task_numbers order.now) processor) }
{
    graph.well_formed();
    let mut code = Vec::new(alloc);
    // What the tasks so far read on this processor: it is here, since it was received or written.
    let mut known = vec![in alloc; false; graph.datum_count() as usize]?;
    for task in order {
        if processor_of(placement, *task) == processor {
            push_block(alloc, &mut code, graph, placement, &known, readers, *task)?;
            mark(&mut known, graph.reads(*task));
        }
    }
    Ok(Items::from_vec(code))
}

/// The codes of all processors. Each of them goes once through the order: there are few processors.
#[tactic(auto, using(crate::proofs::Ranges::made_more))]
pub(crate) fn codes_of(
    alloc: Global,
    graph: &Graph,
    placement: &Placement,
    order: &[TaskId],
) -> Result<Items<Items<RawInstr>>, AllocError>
    requires placed { IsPlaced graph.now placement.now }
    requires tasks { All (λ t. t.0 < task_count graph.now) order.now }
    ensures { IfOk result (λ list. list ≡ codes graph.now placement.now (task_numbers order.now)) }
{
    let readers = readers_of(alloc, graph, placement, order)?;
    let mut codes = Vec::new(alloc);
    for processor in 0..placement.processors {
        codes.push(code_on(
            alloc,
            graph,
            placement,
            order,
            readers.as_slice(),
            processor,
        )?)?;
    }
    Ok(Items::from_vec(codes))
}
