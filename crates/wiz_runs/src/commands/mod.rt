//! The commands, a file for each: what it reads, what it does, and what it tells.
pub mod advise;
pub mod check;
pub mod demo;
pub mod picture;
pub mod race_orders;
pub mod races;
pub mod record;
pub mod record_files;
pub mod waits;
