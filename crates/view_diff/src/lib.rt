//! Where two histories of one program part, and which partings come first.
#![tactic(auto)]

pub mod alike;
pub mod compare;
pub mod compare_fault;
pub mod compared;
pub mod comparing;
pub mod laws;
mod marks;
pub mod opens;
pub mod parting;
