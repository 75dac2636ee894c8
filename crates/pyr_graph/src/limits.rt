// The limits of a graph.

ghost use Rattle.std.specs.Prelude.{◌≡◌, nat_lt, length, sum_by};
ghost use Rattle.pyr_graph.specs.System.{system_of};
ghost use Rattle.std.specs.List.{list_any};
ghost use Rattle.pyr_graph.specs.Bounds.{is_outside, passes, first_passed};

use crate::{DatumParts, TaskParts};
use pyr_num::{DatumId, Limits, Quantity};

/// The quantities of a graph, in the order of the limits.
const ROWS: [Quantity; 9] = [
    Quantity::Tasks,
    Quantity::Datums,
    Quantity::Length,
    Quantity::Comm,
    Quantity::Cost,
    Quantity::Reads,
    Quantity::AllReads,
    Quantity::Writes,
    Quantity::Prints,
];

/// Whether all reads together pass their limit.
fn passes_all_reads(tasks: &[TaskParts]) -> bool
    ensures { result ≡ nat_lt Limits.ALL_READS (sum_by (λ t. length t.reads) tasks.now) }
{
    let mut left = Limits::ALL_READS as usize;
    for task in tasks {
        let reads = task.reads.len();
        if reads > left {
            return true;
        }
        left -= reads;
    }
    false
}

/// Whether a number lies outside a range.
fn is_beyond(number: u32, least: u32, most: u32) -> bool
    ensures { result ≡ is_outside least most number }
{
    number < least || number > most
}

/// Whether the length of some datum is outside its limits.
fn passes_length(datums: &[DatumParts]) -> bool
    ensures { result
        ≡ list_any (λ d. is_outside Limits.LEAST_LENGTH Limits.LENGTH d.length) datums.now }
{
    datums.iter().any(|d| is_beyond(d.length, Limits::LEAST_LENGTH, Limits::LENGTH))
}

/// Whether the communication weight of some datum passes its limit.
fn passes_comm(datums: &[DatumParts]) -> bool
    ensures { result ≡ list_any (λ d. nat_lt Limits.COMM d.comm) datums.now }
{
    datums.iter().any(|d| d.comm > Limits::COMM)
}

/// Whether the computation weight of some task is outside its limits.
fn passes_cost(tasks: &[TaskParts]) -> bool
    ensures { result
        ≡ list_any (λ t. is_outside Limits.LEAST_COST Limits.COST t.cost) tasks.now }
{
    tasks
        .iter()
        .any(|t| is_beyond(t.cost, Limits::LEAST_COST, Limits::COST))
}

/// Whether some task reads more data than the limit says.
fn passes_reads(tasks: &[TaskParts]) -> bool
    ensures { result ≡ list_any (λ t. nat_lt Limits.READS (length t.reads)) tasks.now }
{
    tasks.iter().any(|t| t.reads.len() > Limits::READS as usize)
}

/// Whether some task writes more data than the limit says.
fn passes_writes(tasks: &[TaskParts]) -> bool
    ensures { result ≡ list_any (λ t. nat_lt Limits.WRITES (length t.writes)) tasks.now }
{
    tasks
        .iter()
        .any(|t| t.writes.len() > Limits::WRITES as usize)
}

/// Whether these parts pass the limit on this quantity.
fn passes_limit(
    tasks: &[TaskParts],
    datums: &[DatumParts],
    prints: &[DatumId],
    which: Quantity,
) -> bool
    ensures { result ≡ passes (system_of tasks.now datums.now prints.now) which }
{
    match which {
        Quantity::Tasks => tasks.len() > Limits::TASKS as usize,
        Quantity::Datums => datums.len() > Limits::DATUMS as usize,
        Quantity::Length => passes_length(datums),
        Quantity::Comm => passes_comm(datums),
        Quantity::Cost => passes_cost(tasks),
        Quantity::Reads => passes_reads(tasks),
        Quantity::AllReads => passes_all_reads(tasks),
        Quantity::Writes => passes_writes(tasks),
        Quantity::Prints => prints.len() > Limits::PRINTS as usize,
        _ => false,
    }
}

/// The first limit that these parts pass.
pub(crate) fn passed_limit(
    tasks: &[TaskParts],
    datums: &[DatumParts],
    prints: &[DatumId],
) -> Option<Quantity>
    ensures { result ≡ first_passed (system_of tasks.now datums.now prints.now) }
{
    for which in ROWS {
        if passes_limit(tasks, datums, prints, which) {
            return Some(which);
        }
    }
    None
}
