//! Replay of one group of ranks from its log.
#![tactic(auto)]

mod answer;
mod clash;
mod fill;
mod find;
mod fit;
mod indexed_history;
mod kept;
mod missing;
mod next_call;
mod note;
mod places;
pub mod replay;
pub mod serial;
