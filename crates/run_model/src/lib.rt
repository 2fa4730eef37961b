//! Histories of events, programs and the ranks that run them, and the definition of the runs that the matching rules
//! allow.
//!
//! The definitions stand in `specs/`; README.md has the list, with what each file says.
#![tactic(auto)]

pub mod by_rank;
pub mod communicators;
pub mod ending;
pub mod event;
pub mod history;
pub mod laws;
pub mod lists;
pub mod program;
pub mod shape;
pub mod starts;
