//! The communicators of a run: their numbers, their members, and what each Split and Dup gave to each member.
#![tactic(auto)]

pub mod colours;
pub mod communicators;
pub mod groups;
pub mod numbers;
