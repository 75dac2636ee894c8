//! Tests of the crates from bundles to teams of processors, one file for each crate. There is no
//! code but them.
#![tactic(auto)]

#[cfg(test)]
mod tests;
