//! The grammar of the C subset: terminals, trees and what they spell.
#![tactic(auto)]

pub mod limits;
pub mod statement;
pub mod terminal;
pub mod tree;
