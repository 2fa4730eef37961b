//! Whom the wildcard receives of a run could have taken their messages from.
#![tactic(auto)]

mod counts;
mod known;
pub mod laws;
pub mod listing;
pub mod other;
