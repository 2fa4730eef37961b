//! The limits of texts.

/// The most bytes of a source text.
pub const MOST_BYTES: usize = 65_536;
/// The greatest number that a text may spell.
pub const GREATEST_LITERAL: u64 = 2_147_483_647;
