//! The commands that read logs: they are replayed, regrouped, compared and told.
#![tactic(auto)]

pub mod commands;
pub mod comparing;
pub mod regrouping;
pub mod replaying;
pub mod viewing;
