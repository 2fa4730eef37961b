//! The command, and the order files that it writes.
pub mod explore_files;
pub mod explore_runs;
