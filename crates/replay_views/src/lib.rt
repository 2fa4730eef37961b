//! What is asked of a replay: how a variable of a rank changes, where each rank stands, and where a message went.
#![tactic(auto)]

pub mod changes;
mod given;
pub mod laws;
pub mod places;
pub mod role;
pub mod snapshot;
pub mod watch;
