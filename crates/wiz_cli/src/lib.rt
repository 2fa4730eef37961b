//! The top call: arguments and files in, texts, files and an exit status out.
#![tactic(auto)]

pub mod limits;
mod serial;
mod threaded;
pub mod top;
