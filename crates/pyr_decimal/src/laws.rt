// The law of numbers, for the crates above. A law is a function with no code, whose contract is it.
ghost use Rattle.pyr_decimal.specs.Laws.{NumberIsDecimal};

/// A text is read as a number exactly where it is the decimal of one below 2^64.
pub fn number_is_decimal()
    ensures { NumberIsDecimal }
{}
