// The reader of durations.
ghost use Rattle.std.specs.Prelude.{◌≡◌, ℕ, ◌+◌, ◌<◌, ◌≤◌, ◌^◌, IfOk, IfErr, [], None, length, slice_index, slice_index_or, unwrap_or};
ghost use Rattle.pyr_graph.specs.System.{task_count, datum_count, cost_of, comm_of};
ghost use Rattle.pyr_simul.specs.Durations.{IsFor};
ghost use Rattle.pyr_simul.specs.Reading.{AreRead, IsFaultOf};
ghost use Rattle.pyr_simul.specs.Taking.{IsFull, HasTaken, Takes, TakesText, AreTold};

use crate::duration_line::DurationLine;
use crate::given::Given;
use crate::line_reading::read_line;
use crate::{DurationFault, Durations};
use pyr_graph::Graph;
use pyr_graphtext::{NameTable, Program, first_line};
use pyr_num::{DatumId, Limits, Quantity, TaskId};
use sqlite_items::Items;
use std::alloc::{AllocError, Global};

/// What the lines so far give.
#[derive(Drop)]
struct Reader {
    times: Given,
    delays: Given,
}

impl Reader {
    // Takes the next line, which has this number.
    fn line(&mut self, alloc: Global, line: &[u8], number: u32) -> Result<(), DurationFault>
        requires short { length line.now ≤ Limits.INPUT }
        requires full { IsFull self.old }
        ensures takes { Takes self.old line.now number result self.new }
        ensures full { IsFull self.new }
    {
        match read_line(alloc, line, number)? {
            DurationLine::Blank => Ok(()),
            DurationLine::Time(name, time) => {
                self.times
                    .give(number, Quantity::Time, Limits::TIME, name, time)
            }
            DurationLine::Delay(name, delay) => {
                self.delays
                    .give(number, Quantity::Delay, Limits::DELAY, name, delay)
            }
        }
    }
}

// A reader of lines on this program that took none.
fn new_reader(alloc: Global, program: &Program) -> Result<Reader, AllocError>
    ensures { IfOk result (HasTaken program.now []) }
{
    let tasks = task_table(alloc, program)?;
    let times = Given::new(alloc, tasks)?;
    let datums = datum_table(alloc, program)?;
    let delays = Given::new(alloc, datums)?;
    Ok(Reader { times, delays })
}

// The names of the tasks.
fn task_table(alloc: Global, program: &Program) -> Result<NameTable, AllocError>
    ensures { IfOk result (λ table. table ≡ program.now.task_names) }
{
    let mut table = NameTable::new(alloc);
    for task in 0..program.graph().task_count() {
        table.insert(program.task_name(TaskId(task)))?;
    }
    Ok(table)
}

// The names of the data.
fn datum_table(alloc: Global, program: &Program) -> Result<NameTable, AllocError>
    ensures { IfOk result (λ table. table ≡ program.now.datum_names) }
{
    let mut table = NameTable::new(alloc);
    for datum in 0..program.graph().datum_count() {
        table.insert(program.datum_name(DatumId(datum)))?;
    }
    Ok(table)
}

// Has a reader take all lines of a text whose first line has this number.
fn take_lines(
    alloc: Global,
    reader: &mut Reader,
    text: &[u8],
    first: u32,
) -> Result<(), DurationFault>
    requires short { length text.now ≤ Limits.INPUT }
    requires lines { first + length text.now < 2 ^ 32 }
    requires full { IsFull reader.old }
    ensures { TakesText reader.old first text.now result reader.new }
{
    let mut rest = text;
    let mut number = first;
    while !rest.is_empty() {
        let (line, behind) = first_line(rest);
        reader.line(alloc, line, number)?;
        rest = behind;
        number += 1;
    }
    Ok(())
}

// The time of each task: what was given to it, else its cost.
fn times_of(alloc: Global, graph: &Graph, given: &[Option<u64>]) -> Result<Vec<u64>, AllocError>
    requires { length given.now ≡ task_count graph.now }
    ensures full { IfOk result (λ times. length times.items ≡ task_count graph.now) }
    ensures each { IfOk result (λ times. (t : ℕ) → t < task_count graph.now
        → slice_index times.items t
        ≡ unwrap_or (slice_index_or given.now t None) (cost_of graph.now t)) }
{
    let mut times = Vec::with_capacity(alloc, given.len())?;
    for task in 0..graph.task_count() {
        let cost = u64::from(graph.cost(TaskId(task)));
        times.push(given[task as usize].unwrap_or(cost))?;
    }
    Ok(times)
}

// The delay of each datum: what was given to it, else its communication weight.
fn delays_of(alloc: Global, graph: &Graph, given: &[Option<u64>]) -> Result<Vec<u64>, AllocError>
    requires { length given.now ≡ datum_count graph.now }
    ensures full { IfOk result (λ delays. length delays.items ≡ datum_count graph.now) }
    ensures each { IfOk result (λ delays. (x : ℕ) → x < datum_count graph.now
        → slice_index delays.items x
        ≡ unwrap_or (slice_index_or given.now x None) (comm_of graph.now x)) }
{
    let mut delays = Vec::with_capacity(alloc, given.len())?;
    for datum in 0..graph.datum_count() {
        let comm = u64::from(graph.comm(DatumId(datum)));
        delays.push(given[datum as usize].unwrap_or(comm))?;
    }
    Ok(delays)
}

// The durations that a reader has at its end.
fn durations_of(alloc: Global, reader: &Reader, graph: &Graph) -> Result<Durations, AllocError>
    requires times { length reader.now.times.numbers.items ≡ task_count graph.now }
    requires delays { length reader.now.delays.numbers.items ≡ datum_count graph.now }
    ensures { IfOk result (AreTold reader.now graph.now) }
{
    let time = times_of(alloc, graph, &reader.times.numbers)?;
    let delay = delays_of(alloc, graph, &reader.delays.numbers)?;
    Ok(Durations {
        time: Items::from_vec(time),
        delay: Items::from_vec(delay),
    })
}

/// The durations that the lines of a text give to the tasks and the data of a program, or the fault
/// of the first faulty line, whatever stands behind it. The first line of the text has the number
/// `first_line` in the whole input, of which the faults tell the lines.
///
/// A line is `time TASK NUMBER`, `delay DATUM NUMBER`, or has no token. A task to which no time is
/// given takes its cost, and a datum to which no delay is given its communication weight. In a line
/// `BadText` comes before `Limit`, and `Limit` before `Names`.
///
/// It goes over the text once. Beside the durations it takes memory for tables of the names, and for
/// the tokens of one line.
pub fn read_durations(
    alloc: Global,
    text: &[u8],
    first_line: u32,
    program: &Program,
) -> Result<Durations, DurationFault>
    requires text { length text.now ≤ Limits.INPUT }
    requires lines { first_line + length text.now < 2 ^ 32 }
    // durations come exactly where no line is faulty, want of memory apart
    ensures durations { IfOk result (AreRead program.now first_line text.now) }
    ensures for_graph { IfOk result (IsFor program.now.graph) }
    // each fault comes exactly where it is the first one
    ensures fault { IfErr result (IsFaultOf program.now first_line text.now) }
{
    let graph = program.graph();
    graph.well_formed();
    let mut reader = new_reader(alloc, program)?;
    match take_lines(alloc, &mut reader, text, first_line) {
        Ok(()) => {}
        Err(fault) => {
            drop(reader);
            return Err(fault);
        }
    }
    let durations = durations_of(alloc, &reader, graph);
    drop(reader);
    Ok(durations?)
}
