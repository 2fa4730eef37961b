//! A rank of a C program that is suspended at each call, and goes on from there with the reply.
#![tactic(auto)]

pub mod frame;
pub mod going;
pub mod rank;
pub mod stack;
mod steps;
