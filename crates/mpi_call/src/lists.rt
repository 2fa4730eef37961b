//! Lists of numbers, and of lists of them.
use listed::Listed;

/// Ints of 32 bits, which contracts see as a list.
pub type Ints = Listed<i32>;

/// Start numbers, which contracts see as a list.
pub type Starts = Listed<u32>;

/// Ranks, which contracts see as a list.
pub type Ranks = Listed<u8>;

/// What each member of a collective contributed, in member order, empty where it is not needed; contracts see a list of
/// lists.
pub type Inputs = Listed<Ints>;
