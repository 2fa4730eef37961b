//! The typed form of expressions, arguments, calls and right sides, or their faults.
#![tactic(auto)]

pub mod argument;
pub mod call;
mod collective;
pub mod expression;
mod forms;
mod mpi;
mod mpi_arguments;
mod point_to_point;
