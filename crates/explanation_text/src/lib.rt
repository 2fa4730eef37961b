//! The texts that explain a run.
#![tactic(auto)]

pub mod advice;
pub mod diff;
pub mod order;
pub mod races;
pub mod waits;
