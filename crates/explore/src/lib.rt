//! Every outcome that the runs of a program can have: a search over what histories leave to their future.
#![tactic(auto)]

mod ahead;
mod back;
pub mod course;
pub mod found;
pub mod laws;
pub mod met;
mod probes;
mod quiet;
mod races;
pub mod ranks;
pub mod search;
mod telling;
mod tries;
pub mod watch;
