//! The drawing of a run as trace events in JSON.
#![tactic(auto)]

pub mod json;
pub mod laws;
