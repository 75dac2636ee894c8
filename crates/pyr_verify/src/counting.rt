// What is counted of a bundle and of what it prints.

ghost use Rattle.std.specs.Prelude.{◌≡◌, ◌+◌, ◌%◌, ◌^◌, count_by, sum};
ghost use Rattle.pyr_verify.specs.Summary.{is_send, message_count, wrapping_sum};

use pyr_bundle::{Bundle, Instr};
use pyr_num::{Outputs, ProcId};

fn is_send(instr: Instr) -> bool
    ensures { result ≡ is_send instr }
{
    match instr {
        Instr::Send { .. } => true,
        Instr::Recv { .. } | Instr::Exec { .. } => false,
    }
}

fn sends_in(code: &[Instr]) -> u64
    ensures { result ≡ count_by is_send code.now }
{
    code.iter().filter(|instr| is_send(**instr)).count() as u64
}

/// The number of sends in the code of all processors.
pub(crate) fn message_count(bundle: &Bundle) -> u64
    ensures { result ≡ message_count bundle.now }
{
    bundle.well_formed();
    let mut count = 0;
    for p in 0..bundle.processors() {
        count += sends_in(bundle.code(ProcId(p)));
    }
    count
}

// The total and these words, modulo 2^64.
fn total_with(total: u64, words: &[u64]) -> u64
    ensures { result ≡ (total + sum words.now) % 2 ^ 64 }
{
    let mut more = total;
    for word in words {
        more = more.wrapping_add(*word);
    }
    more
}

/// The sum of all words that were printed, modulo 2^64.
pub(crate) fn wrapping_sum(outputs: &Outputs) -> u64
    ensures { result ≡ wrapping_sum outputs.now.lists }
{
    let mut total = 0;
    for words in outputs.lists.as_slice() {
        total = total_with(total, words.as_slice());
    }
    total
}
