//! A ticket lock with seats: each thread that works on the locked value has a seat of its own, and a proof knows of
//! the value what its seat has seen and which entries of the value are its own.
#![tactic(auto)]

mod ends;
mod ledger;
mod lock;
mod seat;
mod sleepers;
mod steps;
mod view;

pub use ledger::Ledger;
pub use lock::{MOST_SEATS, TurnLock};
pub use seat::{Held, Seat};
