//! Nets of actors that hand parcels to one another through bounded lists, and what holds of every
//! run of every net: in whatever order the actors make their steps, if one run comes to an end, all
//! do, after as many steps and in the same state.
#![tactic(auto)]

mod action;
mod drive;
mod handover;
mod handover_local;
mod laws;
mod net;

pub use action::Action;
pub use drive::{first_enabled, run_to_end};
pub use handover::{CONSUMER, Handover, PRODUCER};
pub use handover_local::HandoverLocal;
pub use laws::{
    longest_runs_agree, occupancy_suffices, pipelines_complete, run_completes, runs_are_local,
    step_persists, steps_commute,
};
pub use net::Net;
