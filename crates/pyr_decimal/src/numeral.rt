// Numbers as they are written.
ghost use Rattle.std.specs.Prelude.{◌≡◌, ◌+◌, ◌*◌, ◌<◌, ◌^◌, SomeIff};
ghost use Rattle.std.specs.Char.{digit_value};
ghost use Rattle.std.specs.Str.Parse.{digits_value, AllDigits};
ghost use Rattle.pyr_decimal.specs.Number.{number_of};

// The number with one more digit behind it.
fn with_digit(number: u64, byte: u8) -> Option<u64>
    ensures { SomeIff result
        ((digit_value byte < 10) × (number * 10 + digit_value byte < 2 ^ 64))
        (number * 10 + digit_value byte) }
{
    if !byte.is_ascii_digit() {
        return None;
    }
    number.checked_mul(10)?.checked_add(u64::from(byte - b'0'))
}

// The number that the digits write, also with zeros in front.
fn digits(text: &[u8]) -> Option<u64>
    ensures { SomeIff result
        (AllDigits 10 text.now × (digits_value 10 text.now < 2 ^ 64))
        (digits_value 10 text.now) }
{
    let mut number = 0;
    for byte in text {
        number = with_digit(number, *byte)?;
    }
    Some(number)
}

/// The number with this text, and `None` exactly where there is none. A number is written in
/// decimal, without leading zeros, and is at most 18446744073709551615. It takes no memory.
#[tactic(auto, using(crate::proofs::Numbers::numerals))]
pub fn number(text: &[u8]) -> Option<u64>
    ensures { result ≡ number_of text.now }
{
    match text {
        [] => None,
        [b'0', _, ..] => None,
        _ => digits(text),
    }
}
