//! Who has entered which collective, and with what.
//!
//! A rank's Enters on a communicator go to that communicator's instances 0, 1, 2 and so on; the members of one instance meet
//! there.
#![tactic(auto)]

pub mod board;
pub mod entrants;
mod instance_table;
pub mod instances;
