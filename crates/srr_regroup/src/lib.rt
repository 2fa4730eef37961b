//! Logs of finer and coarser groups: of a log's group, a part of it; of two logs, their groups together.
#![tactic(auto)]

mod coarser;
mod finer;
mod join_fault;
pub mod laws;
mod refine_fault;

pub use coarser::{can_join, join};
pub use finer::{are_within, can_refine, refine};
pub use join_fault::JoinFault;
pub use refine_fault::RefineFault;
