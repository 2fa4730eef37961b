//! What a name means where it stands, the kinds of expressions, constants, and their faults.
#![tactic(auto)]

pub mod comma_list;
pub mod constant;
mod declarations;
pub mod fault;
mod innermost;
pub mod joins;
pub mod kind;
pub mod meaning;
pub mod refusals;
pub mod scope;
