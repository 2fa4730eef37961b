//! The evaluator of C programs that begins again at each call.
#![tactic(auto)]

mod calls;
mod evaluate;
mod flow;
pub mod outcome;
pub mod perform;
pub mod rank;
