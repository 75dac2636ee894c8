// From the bytes of a line to what it says.
ghost use Rattle.std.specs.Prelude.{◌≡◌, ◌∷◌};
ghost use Rattle.pyr_bundletext.specs.Reading.{words_of, numbers_of, with_none, with_one, with_two, with_three, with_numbers, line_with, datum_with, datum_line, numbered_line, line_of};
ghost use Rattle.pyr_bundletext.specs.Tells.{IsRead};

use crate::keyword::Keyword;
use crate::line::Line;
use crate::line_fault::LineFault;
use crate::plain_op::PlainOp;
use crate::words::first_word;
use pyr_bundle::{RawChannel, RawInstr};
use pyr_decimal::number;
use pyr_num::Name;
use sqlite_items::Items;
use std::alloc::Global;

/// What a line says, which has these bytes before its line feed.
pub fn read_line(alloc: Global, line: &[u8]) -> Result<Line, LineFault>
    ensures { IsRead (line_of line.now) result }
{
    let (word, others) = first_word(line);
    if word == b"datum".as_slice() {
        return datum(others);
    }
    numbered(alloc, Keyword::from_text(word), others)
}

// The line of a keyword, with the numbers that follow it.
fn numbered(
    alloc: Global,
    keyword: Option<Keyword>,
    others: Option<&[u8]>,
) -> Result<Line, LineFault>
    ensures { IsRead (numbered_line keyword (words_of others.entry)) result }
{
    let Some(keyword) = keyword else {
        return Err(LineFault::Text);
    };
    let numbers = numbers(alloc, others)?;
    line_with(keyword, numbers).ok_or(LineFault::Text)
}

// The numbers that follow.
fn numbers(alloc: Global, others: Option<&[u8]>) -> Result<Items<u64>, LineFault>
    ensures { IsRead (numbers_of (words_of others.entry)) result }
{
    let mut numbers = Items::new(alloc);
    let mut others = others;
    while let Some(text) = others {
        let (word, behind) = first_word(text);
        let Some(number) = number(word) else {
            return Err(LineFault::Text);
        };
        numbers.push(number)?;
        others = behind;
    }
    Ok(numbers)
}

fn line_with(keyword: Keyword, numbers: Items<u64>) -> Option<Line>
    ensures { result ≡ line_with keyword numbers }
{
    match keyword {
        Keyword::Reads => Some(Line::Reads(numbers)),
        Keyword::Writes => Some(Line::Writes(numbers)),
        _ => with_numbers(keyword, numbers.as_slice()),
    }
}

fn with_numbers(keyword: Keyword, numbers: &[u64]) -> Option<Line>
    ensures { result ≡ with_numbers keyword numbers.now }
{
    match numbers {
        [] => with_none(keyword),
        [a] => with_one(keyword, *a),
        [a, b] => with_two(keyword, *a, *b),
        [a, b, c] => with_three(keyword, *a, *b, *c),
        _ => None,
    }
}

fn with_none(keyword: Keyword) -> Option<Line>
    ensures { result ≡ with_none keyword }
{
    match keyword {
        Keyword::Frame => Some(Line::Plain(PlainOp::Frame)),
        Keyword::Bin(operator) => Some(Line::Plain(PlainOp::Bin(operator))),
        Keyword::Sel => Some(Line::Plain(PlainOp::Sel)),
        Keyword::Done => Some(Line::Done),
        Keyword::End => Some(Line::End),
        Keyword::Stop => Some(Line::Stop),
        _ => None,
    }
}

fn with_one(keyword: Keyword, number: u64) -> Option<Line>
    ensures { result ≡ with_one keyword number }
{
    match keyword {
        Keyword::Pyrros if number == 1 => Some(Line::Pyrros),
        Keyword::Processors => Some(Line::Processors(number)),
        Keyword::Task => Some(Line::Task(number)),
        Keyword::Push => Some(Line::Plain(PlainOp::Push(number))),
        Keyword::Load => Some(Line::Plain(PlainOp::Load(number))),
        Keyword::Store => Some(Line::Plain(PlainOp::Store(number))),
        Keyword::Get => Some(Line::Plain(PlainOp::Get(number))),
        Keyword::Put => Some(Line::Plain(PlainOp::Put(number))),
        Keyword::Print => Some(Line::Print(number)),
        Keyword::Processor => Some(Line::Processor(number)),
        Keyword::Exec => Some(Line::Instr(RawInstr::Exec { task: number })),
        _ => None,
    }
}

fn with_two(keyword: Keyword, first: u64, second: u64) -> Option<Line>
    ensures { result ≡ with_two keyword first second }
{
    match keyword {
        Keyword::Loop => Some(Line::Loop(first, second)),
        Keyword::Recv => Some(Line::Instr(RawInstr::Recv {
            from: first,
            datum: second,
        })),
        Keyword::Send => Some(Line::Instr(RawInstr::Send {
            to: first,
            datum: second,
        })),
        _ => None,
    }
}

fn with_three(keyword: Keyword, first: u64, second: u64, third: u64) -> Option<Line>
    ensures { result ≡ with_three keyword first second third }
{
    match keyword {
        Keyword::Channel => Some(Line::Channel(RawChannel {
            from: first,
            to: second,
            capacity: third,
        })),
        _ => None,
    }
}

// The line of a datum, of its name and its length.
fn datum(others: Option<&[u8]>) -> Result<Line, LineFault>
    ensures { IsRead (datum_line (words_of others.entry)) result }
{
    let Some(text) = others else {
        return Err(LineFault::Text);
    };
    let (name, behind) = first_word(text);
    let Some(text) = behind else {
        return Err(LineFault::Text);
    };
    let (length, behind) = first_word(text);
    last_word(name, length, behind)
}

// The line of a datum, where this is what stands behind its length.
#[tactic(auto, using(crate::proofs::Cuts::datum_long))]
fn last_word(name: &[u8], length: &[u8], behind: Option<&[u8]>) -> Result<Line, LineFault>
    ensures { IsRead (datum_line (name.now ∷ length.now ∷ words_of behind.entry)) result }
{
    match behind {
        Some(_) => Err(LineFault::Text),
        None => named(name, number(length)),
    }
}

fn named(name: &[u8], length: Option<u64>) -> Result<Line, LineFault>
    ensures { IsRead (datum_with name.now length) result }
{
    let Some(length) = length else {
        return Err(LineFault::Text);
    };
    match Name::new(name) {
        Some(name) => Ok(Line::Datum(name, length)),
        None => Err(LineFault::Text),
    }
}
