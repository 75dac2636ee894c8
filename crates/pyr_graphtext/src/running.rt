// The tasks of a program, run one by one.
ghost use Rattle.std.specs.Prelude.{◌≡◌, ℕ, ◌+◌, ◌<◌, ◌≤◌, ◌^◌, [], All, IfOk, OnOk, length};
ghost use Rattle.pyr_num.specs.Cells.{word_count};
ghost use Rattle.pyr_graph.specs.System.{task_count, datum_count, datum_numbers};
ghost use Rattle.pyr_graphtext.specs.Program.{tasks_of};
ghost use Rattle.pyr_graphtext.specs.Sequential.{AreOutputs, AreValues};
ghost use Rattle.pyr_graphtext.specs.Running.{words_of, inputs_from, zeros_for, lengths_of};
ghost use Rattle.pyr_graphtext.specs.Running.{HasRoom, AreReady, stored, table_behind};

use crate::Program;
use crate::room::Room;
use pyr_body::evaluate;
use pyr_graph::Graph;
use pyr_num::{Cells, DatumId, Outputs, TaskId, Words};
use sqlite_items::Items;
use std::alloc::{AllocError, Global};

/// Runs the tasks one by one, each once, in a topological order: each is given the words of the
/// data that it reads, and what its body makes of them are the words of the data that it writes.
/// The answer has the words of the printed data, in the order of the prints. Every topological
/// order gives the same. `frame` is the number that the expression `frame` stands for.
///
/// This takes the time of the bodies' work, and memory for the words of all data and for the lists
/// of one task. The error says that memory ran out.
pub fn sequential(alloc: Global, program: &Program, frame: u64) -> Result<Outputs, AllocError>
    ensures { IfOk result (λ outputs. AreOutputs program.now frame outputs.lists) }
{
    let graph = program.graph();
    graph.well_formed();
    let table = all_values(alloc, program, frame)?;
    let lists = copied(alloc, graph.prints(), &table)?;
    Ok(Outputs { lists })
}

// The value of each datum, by number.
fn all_values(alloc: Global, program: &Program, frame: u64) -> Result<Items<Words>, AllocError>
    ensures { IfOk result (AreValues program.now frame) }
{
    let graph = program.graph();
    graph.well_formed();
    let mut table = no_words(alloc, graph.datum_count())?;
    let room = Room::of(graph);
    let mut cells = Cells::new(alloc, room.slots, room.words)?;
    for task in graph.topological() {
        run_task(alloc, program, *task, frame, &mut cells, &mut table)?;
    }
    Ok(table)
}

// A list without a word for each datum.
fn no_words(alloc: Global, count: u32) -> Result<Items<Words>, AllocError>
    ensures { IfOk result (λ table. (length table ≡ count)
        × ((d : ℕ) → words_of table d ≡ [])) }
{
    let mut table = Vec::with_capacity(alloc, count as usize)?;
    for _datum in 0..count {
        table.push(Items::new(alloc))?;
    }
    Ok(Items::from_vec(table))
}

// Runs one task: its outputs become the words of the data that it writes.
fn run_task(
    alloc: Global,
    program: &Program,
    task: TaskId,
    frame: u64,
    cells: &mut Cells,
    table: &mut Items<Words>,
) -> Result<(), AllocError>
    requires task { task.0 < task_count program.now.graph }
    requires full { length table.old ≡ datum_count program.now.graph }
    requires ready { AreReady program.now.graph table.old task.0 }
    requires room { HasRoom program.now.graph cells.old.slot_room cells.old.word_room }
    ensures table { OnOk result
        (table.new ≡ table_behind (tasks_of program.now frame) task.0 table.old) }
    ensures slots { cells.new.slot_room ≡ cells.old.slot_room }
    ensures words { cells.new.word_room ≡ cells.old.word_room }
{
    let graph = program.graph();
    graph.well_formed();
    cells.clear();
    add_inputs(graph.reads(task), table, cells);
    add_outputs(graph, graph.writes(task), cells);
    evaluate(program.body(task), frame, cells);
    store(alloc, graph.writes(task), cells, table)
}

// Appends the words of these data as inputs.
fn add_inputs(datums: &[DatumId], table: &Items<Words>, cells: &mut Cells)
    requires known { All (λ d. d.0 < length table.now) datums.now }
    requires some { All (λ d. 0 < length (words_of table.now d.0)) datums.now }
    requires no_inputs { cells.old.inputs ≡ [] }
    requires no_outputs { cells.old.outputs ≡ [] }
    requires slots { length datums.now ≤ cells.old.slot_room }
    requires words { word_count (inputs_from table.now (datum_numbers datums.now))
        ≤ cells.old.word_room }
    ensures { cells.new ≡ record cells.old {
      inputs = inputs_from table.now (datum_numbers datums.now);
    } }
{
    for datum in datums {
        cells.add_input(table.as_slice()[datum.0 as usize].as_slice());
    }
}

// Appends zeros for these data as outputs.
fn add_outputs(graph: &Graph, datums: &[DatumId], cells: &mut Cells)
    requires known { All (λ d. d.0 < datum_count graph.now) datums.now }
    requires no_outputs { cells.old.outputs ≡ [] }
    requires slots { length cells.old.inputs + length datums.now ≤ cells.old.slot_room }
    requires words { word_count cells.old.inputs + lengths_of graph.now (datum_numbers datums.now)
        ≤ cells.old.word_room }
    ensures { cells.new ≡ record cells.old {
      outputs = zeros_for graph.now (datum_numbers datums.now);
    } }
{
    graph.well_formed();
    for datum in datums {
        cells.add_output(graph.length(*datum));
    }
}

// Takes the outputs as the words of these data.
fn store(
    alloc: Global,
    datums: &[DatumId],
    cells: &Cells,
    table: &mut Items<Words>,
) -> Result<(), AllocError>
    requires known { All (λ d. d.0 < length table.old) datums.now }
    requires outputs { length cells.now.outputs ≡ length datums.now }
    requires few { length datums.now < 2 ^ 32 }
    ensures { OnOk result (table.new
        ≡ stored (datum_numbers datums.now) cells.now.outputs table.old) }
{
    for (output, datum) in datums.iter().enumerate() {
        let words = Words::from_slice(alloc, cells.output(output as u32))?;
        table.set(datum.0 as usize, words);
    }
    Ok(())
}

// Copies of the words of these data.
fn copied(
    alloc: Global,
    datums: &[DatumId],
    table: &Items<Words>,
) -> Result<Items<Words>, AllocError>
    requires { All (λ d. d.0 < length table.now) datums.now }
    ensures { IfOk result (λ lists. lists ≡ inputs_from table.now (datum_numbers datums.now)) }
{
    let mut lists = Vec::with_capacity(alloc, datums.len())?;
    for datum in datums {
        lists.push(Words::from_slice(alloc, table.as_slice()[datum.0 as usize].as_slice())?)?;
    }
    Ok(Items::from_vec(lists))
}
