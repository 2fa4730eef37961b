//! Advice on the groups of a run: which blocks of neighbouring ranks have the logs with the fewest ints, with a certificate.
#![tactic(auto)]

pub mod advice;
mod advising;
mod costs;
mod holding;
mod laws;
mod pieces;
mod plans;
mod span;
mod ways;

pub use advice::{Advice, Bounds};
pub use advising::advise;
pub use holding::holds;
pub use laws::{every_cutting_costs, one_advice};
pub use plans::plan_cost;

#[cfg(test)]
mod tests;
