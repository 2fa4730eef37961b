//! Calls that a search may make first, since nothing is missed if they are.
#![tactic(auto)]

pub mod laws;
