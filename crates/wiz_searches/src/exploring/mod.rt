//! The command that searches: what starts its ranks, the search, and who waits in what it found.
pub mod make;
pub mod start;
