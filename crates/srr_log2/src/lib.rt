//! The text of a log, format 2: its bytes, written and read.
#![tactic(auto)]

mod entry_bytes;
mod field;
mod kind;
mod list;
mod mark;
pub mod read_either;
mod read_error;
pub mod read_log2;
mod record;
pub mod write_log2;
