//! What a replay of one group of ranks from its log is, and the laws of replay.
#![tactic(auto)]

pub mod laws;
pub mod replayed;
pub mod step;
