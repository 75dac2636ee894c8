//! Tests of the crates from words to plans: expected values from outside, and each public function on
//! its happy path. There is no code but them.
#![tactic(auto)]

#[cfg(test)]
mod tests;
