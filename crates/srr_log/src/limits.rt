//! The bounds of a log beside those of calls and runs (`mpi_call::limits`).

/// The greatest number of a start, of a communicator, and of an item's index.
pub const GREATEST_NUMBER: u32 = 999_999;
/// The most entries of a rank.
pub const MOST_ENTRIES: u32 = 999_064;
/// The most bytes of a program.
pub const MOST_PROGRAM_BYTES: u32 = 65_536;
/// The most bytes of a log's text, in either format: 128 MiB.
pub const MOST_LOG_BYTES: u64 = 134_217_728;
