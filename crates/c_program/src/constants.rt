//! Ints of MPI's constants, and the limits of a rank of a C program.

/// `MPI_PROC_NULL`, `MPI_ANY_TAG` and null handles.
pub const NULL: i32 = -1;
/// `MPI_ANY_SOURCE`.
pub const ANY_SOURCE: i32 = -2;
/// The most cells of a rank's variables.
pub const MOST_CELLS: u32 = 262_144;
/// The most bytes that a rank prints.
pub const MOST_PRINTED: u32 = 65_536;
/// The steps that a rank may take.
pub const MOST_STEPS: u32 = 10_000_000;
/// The most calls of functions that are open.
pub const MOST_CALLS: u32 = 100;
/// The numbers that an int holds are those below this one, and those of the same size below 0.
pub const INT_LIMIT: u32 = 2_147_483_648;
