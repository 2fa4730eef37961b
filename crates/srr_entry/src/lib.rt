//! The entries of a log: what a group of ranks keeps of each reply. Of a message, a collective or a communicator that
//! came from inside the group an entry keeps the name alone; of what came from outside, the contents.
#![tactic(auto)]

pub mod entry;
mod inner;
pub mod known;
pub mod log;
pub mod members;
pub mod place;
mod reply_entry;
pub mod run_log;
