//! Calm capacities: the least capacities of a bundle's channels with which no send ever waits, told by
//! one run. They are the greatest lengths of a net's lists over all interleavings in which no send
//! waits.
#![tactic(auto)]

mod capacities;
mod course;
mod laws;
mod passage;
mod viewer;
mod watching;

pub use capacities::{calm, calmed};
pub use laws::{
    calm_capacities_never_wait, enough_room_never_waits, greatest_length_is_told, less_room_waits,
    lower_capacities_wait, one_greatest_length, one_list_is_calm, one_pass_serves_all,
    passages_tell,
};
pub use passage::Passage;
