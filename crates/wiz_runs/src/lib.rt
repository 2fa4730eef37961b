//! The commands that run a program: runs are recorded, and told.
#![tactic(auto)]

pub mod commands;
pub mod recording;
