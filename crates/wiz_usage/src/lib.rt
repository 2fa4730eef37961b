//! What the error output shows beside a refusal: the forms of the commands, and the line of a program that was refused.
#![tactic(auto)]

mod fault;
mod forms;
mod mark;
mod store;

pub use fault::fault_line;
pub use forms::usage;
pub use store::WatchedStore;
