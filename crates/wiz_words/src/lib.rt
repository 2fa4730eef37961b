//! The arguments of a command line: which command they ask for, read by one clap command each.
#![tactic(auto)]

pub mod command;
mod forms;
pub mod limits;
pub mod read;
mod values;
