//! Happens-before over the events of a run or of a replay.
#![tactic(auto)]

pub mod causes;
mod clock;
pub mod key;
mod known;
pub mod pair_table;
pub mod places;
pub mod position_table;
pub mod positions;
pub mod rests;
pub mod tables;
#[cfg(test)]
mod tests;
