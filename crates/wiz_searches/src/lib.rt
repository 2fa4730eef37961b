//! The command that searches for every outcome.
#![tactic(auto)]

pub mod commands;
pub mod exploring;
