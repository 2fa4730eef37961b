//! The text of a log, format 1, written and read.
#![tactic(auto)]

pub mod adding;
mod entry_line;
pub mod entry_text;
pub mod fault;
pub mod fault_numbers;
pub mod limits;
mod line;
mod lists;
mod mark;
mod pieces;
pub mod read_error;
pub mod read_log;
pub mod spelled;
pub mod write_log;
