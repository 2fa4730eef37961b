//! What the ranks of a run that is stuck wait for, and for whom.
#![tactic(auto)]

mod awaited;
mod cycle;
pub mod difference;
pub mod graph;
pub mod laws;
pub mod message;
mod own;
mod partners;
pub mod reading;
pub mod register;
pub mod stuck;
mod taken;
pub mod wait;
mod waits;
