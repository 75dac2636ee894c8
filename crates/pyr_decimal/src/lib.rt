//! Decimals: the number that a text writes, and numbers written out. What a number's text is stands in
//! `specs/Number.antt`, and that exactly the decimals of numbers below 2^64 are read is a law.
#![tactic(auto)]

mod decimals;
mod laws;
mod numeral;

pub use decimals::{put_decimal, put_number};
pub use laws::number_is_decimal;
pub use numeral::number;
