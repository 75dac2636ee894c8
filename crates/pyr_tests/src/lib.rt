//! Tests of whole commands, from the words and the input to the status, the output and the line on a
//! refusal. There is no code but them.
#![tactic(auto)]

#[cfg(test)]
mod tests;
