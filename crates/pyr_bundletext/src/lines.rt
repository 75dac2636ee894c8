// Writing one line.
ghost use Rattle.std.specs.Prelude.{◌≡◌, ◌++◌, map, OnOk};
ghost use Rattle.std.specs.List.{AllByRecursion};
ghost use Rattle.pyr_bundletext.specs.Text.{spaced, line};
ghost use Rattle.pyr_bundletext.specs.Spelled.{IsWord};

use pyr_decimal::put_number;
use pyr_num::DatumId;
use std::alloc::AllocError;

// A law, that takes no time: numbers of 64 bits are words.
#[tactic(auto, using(crate::proofs::PrintingLemmas::words_from))]
fn are_words(numbers: &[u64])
    ensures { AllByRecursion IsWord numbers.now }
{}

// A line of a word and numbers.
pub(crate) fn put_line(text: &mut Vec<u8>, word: &[u8], numbers: &[u64]) -> Result<(), AllocError>
    ensures text { OnOk result (text.new.items ≡ text.old.items ++ line word.now numbers.now) }
    ensures words { AllByRecursion IsWord numbers.now }
{
    are_words(numbers);
    text.extend_from_slice(word)?;
    for number in numbers {
        put_number(text, *number)?;
    }
    text.push(b'\n')?;
    Ok(())
}

// A line of the numbers of data.
pub(crate) fn put_datum_ids(
    text: &mut Vec<u8>,
    word: &[u8],
    datums: &[DatumId],
) -> Result<(), AllocError>
    ensures text { OnOk result
        (text.new.items ≡ text.old.items ++ line word.now (map (λ d. d.0) datums.now)) }
    ensures words { OnOk result (AllByRecursion IsWord (map (λ d. d.0) datums.now)) }
{
    text.extend_from_slice(word)?;
    for datum in datums {
        put_number(text, u64::from(datum.0))?;
    }
    text.push(b'\n')?;
    Ok(())
}
