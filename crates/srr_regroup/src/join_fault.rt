//! Why two logs cannot be joined.

use thiserror::Error;

/// The first reason, in this order, why two logs cannot be joined.
#[derive(Clone, Copy, Debug, PartialEq, Eq, Error)]
pub enum JoinFault {
    /// Their runs have different numbers of ranks.
    #[error("ranks {one} {two}")]
    Ranks { one: u8, two: u8 },
    /// Their programs' texts differ.
    #[error("programs differ")]
    Programs,
    /// A rank is in both groups, this is the least.
    #[error("shared rank {rank}")]
    Shared { rank: u8 },
}
