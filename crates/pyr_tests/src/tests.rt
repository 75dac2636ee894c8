// What each file tests is told by its name.
mod bundle_commands;
mod bundles;
mod call;
mod failures;
mod faults;
mod generated;
mod graph_commands;
mod graphs;
mod memory;
mod paces;
mod statuses;
mod words;
