//! The bounds of the numbers that arguments spell.

/// The greatest rank of a breakpoint, of a message's sender and of a rank that is watched.
pub const GREATEST_RANK: u32 = 63;

/// The greatest number of a call of a breakpoint.
pub const GREATEST_CALL: u32 = 999_999;

/// The greatest number of a message's start.
pub const GREATEST_START: u32 = 999_999;

/// The fewest ranks that a block of an advice may be limited to; the most are all ranks of the largest run.
pub const FEWEST_RANKS: u32 = 1;

/// The greatest seed of a demo.
pub const GREATEST_SEED: u32 = 2_147_483_647;

/// The fewest rounds of a demo.
pub const FEWEST_ROUNDS: u32 = 1;

/// The most rounds of a demo.
pub const MOST_ROUNDS: u32 = 1000;

/// The fewest states that a search looks at.
pub const FEWEST_STATES: u32 = 1;

/// The most states that a search looks at.
pub const MOST_STATES: u32 = 1_000_000;

/// How many states a search looks at where nothing is said.
pub const USUAL_STATES: u32 = 10_000;

/// The fewest times in a row that a rank may look in vain.
pub const FEWEST_POLLS: u32 = 1;

/// The most times in a row that a rank may look in vain.
pub const MOST_POLLS: u32 = 1000;

/// How many times in a row a rank may look in vain where nothing is said.
pub const USUAL_POLLS: u32 = 3;
