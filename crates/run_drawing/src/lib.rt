//! A run in space and time: a lane of calls for each rank, and what joins them.
#![tactic(auto)]

mod choices;
pub mod draw;
pub mod drawing;
pub mod laws;
mod links;
mod receives;
mod scene;
mod tracing;
