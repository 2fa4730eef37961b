//! What a history leaves to its future, and what whole runs come to.
#![tactic(auto)]

pub mod code;
pub mod key;
pub mod laws;
pub mod origins;
pub mod pairs;
pub mod starts;
