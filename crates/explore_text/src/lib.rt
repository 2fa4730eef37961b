//! The text of a search for every outcome.
#![tactic(auto)]

pub mod text;
