//! Message races of a run: for each wildcard receive the other messages that could have reached it.
#![tactic(auto)]

mod arrival;
mod completions;
pub mod fault;
pub mod laws;
mod listing;
pub mod names;
pub mod races;
pub mod receives;
mod seen;
pub mod sends;
