//! The names that a program need not declare, the kinds of variables, and the operators on ints.
#![tactic(auto)]

pub mod function;
pub mod kind;
pub mod operator;
pub mod predefined;
