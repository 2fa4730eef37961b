//! The limits of the grammar.

/// How deep a program may go: its functions stand at the first depth.
pub const MOST_DEPTHS: u8 = 64;
/// The level of `?:`, which binds the loosest; the levels of binary operators are below it, from 1 on.
pub const CONDITIONAL_LEVEL: u8 = 11;
