//! Why races are not listed.
use std::alloc::{AllocError, AllocFailed};
use thiserror::Error;

/// The most others that are listed, of all receives together.
pub const MOST_OTHERS: u32 = 1_000_000;

/// Why races are not listed.
#[derive(Clone, Copy, Debug, Drop, PartialEq, Eq, Error)]
pub enum RaceFault {
    /// The receives have more than `MOST_OTHERS` others together.
    #[error("too many races")]
    TooMany,
    #[error("out of memory")]
    NoMemory,
}

impl From<AllocError> for RaceFault {
    ghost use Rattle.std.specs.Prelude.{◌≡◌};
    ghost use Rattle.msg_races.specs.declared.fault.RaceFault.TheVariants.{NoMemory};

    ghost from_gives = { λ _ fault. fault ≡ NoMemory };

    fn from(_error: AllocError) -> Self {
        RaceFault::NoMemory
    }
}
