//! What ranks have seen of a run, in tables: their starts, their Enters and the communicators that they know.
#![tactic(auto)]

pub mod enter_table;
pub mod member_table;
pub mod start_table;
