//! What commands have in common: what their input texts hold, who runs the ranks, and how they end.
#![tactic(auto)]

pub mod accept;
pub mod ranks;
pub mod ready;
pub mod replay;
pub mod runner;
