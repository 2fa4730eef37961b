//! The texts of what a run is made of.
#![tactic(auto)]

pub mod call_text;
pub mod group_text;
pub mod recording;
