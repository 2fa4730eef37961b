//! The commands, a file for each: what it reads, what it does, and what it tells.
pub mod convert;
pub mod diff;
pub mod join;
pub mod refine;
pub mod replay;
pub mod show;
pub mod stats;
pub mod view;
