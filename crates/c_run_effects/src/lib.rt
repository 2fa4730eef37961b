//! The effect of an MPI call, once its arguments are evaluated and checked.
#![tactic(auto)]

mod arguments;
mod checks;
mod collectives;
mod comm;
mod communicators;
mod completions;
pub mod effects;
mod messages;
mod probes;
mod results;
