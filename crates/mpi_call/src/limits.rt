//! The limits of calls, of runs and of programs.

/// The most ranks of a run.
pub const MOST_RANKS: u8 = 64;
/// The most ints of a message, and the greatest count of a collective.
pub const MOST_INTS: u32 = 65_536;
/// The most ints that a rank enters into a collective, and the most that a collective gives.
pub const MOST_RESULT_INTS: u32 = 262_144;
/// The most starts that a completion lists, and the number below which each start number stays.
pub const MOST_STARTS: u32 = 1_000_000;
/// The greatest tag: `MPI_TAG_UB`.
pub const GREATEST_TAG: u32 = 2_147_483_647;
/// A run of this many events stops.
pub const MOST_EVENTS: u32 = 999_000;
/// A run whose events have this size together, or more, stops.
pub const MOST_SIZE: u64 = 4_194_304;
