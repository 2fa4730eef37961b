//! Why a text is no number.
use thiserror::Error;

/// The first reason, in this order, why a text spells no 64-bit number.
#[derive(Clone, Copy, Debug, PartialEq, Eq, Error)]
pub enum NumberFault {
    #[error("no digit")]
    Empty,
    /// The place, from 0, of the first byte after a leading `-` that is no digit; the text's
    /// length after a lone `-`.
    #[error("no digit at byte {at}")]
    NotDigit { at: usize },
    #[error("a zero before other digits, or behind a sign")]
    LeadingZero,
    #[error("outside 64 bits")]
    TooLarge,
}
