//! Recording and replay with a thread for each rank.
#![tactic(auto)]

mod attempts;
mod bell;
pub mod gate;
mod looks;
mod patience;
mod place;
mod recorder;
mod replayer;
mod rounds;
pub mod threads;
mod worker;

pub use gate::{Gate, OpenGate};
pub use threads::{record_threads, replay_threads};
