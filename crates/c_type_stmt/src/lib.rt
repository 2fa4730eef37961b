//! The typed form of simple statements, declarations, statements and blocks, or their first fault.
#![tactic(auto)]

pub mod declaration;
pub mod simple;
pub mod statement;
