//! Why a text was not read, before the place of the fault is known.
ghost use Rattle.std.specs.Prelude.{◌≡◌, ◌<◌, ◌^◌, length};
ghost use Rattle.srr_log.specs.Refused.{IsPlaced, IsWithin, line_fault};

use crate::fault::{LogFault, LogWhy};
use std::alloc::AllocError;

/// Why a line or a piece of it was not read.
#[derive(Clone, Copy)]
pub enum Unread {
    /// It says nothing that is allowed there.
    NotAllowed,
    NoMemory,
}

impl From<AllocError> for Unread {
    ghost use Rattle.std.specs.Prelude.{◌≡◌};
    ghost use Rattle.srr_log.specs.declared.read_error.Unread.TheVariants.{NoMemory};

    ghost from_gives = { λ _ unread. unread ≡ NoMemory };

    fn from(_error: AllocError) -> Self {
        Unread::NoMemory
    }
}

/// Why a text was not read: a fault with `left` bytes from its place to the text's end, or out of memory.
#[derive(Clone, Copy)]
pub enum ReadError {
    NoMemory,
    Fault { why: LogWhy, left: usize },
}

impl From<AllocError> for ReadError {
    ghost use Rattle.std.specs.Prelude.{◌≡◌};
    ghost use Rattle.srr_log.specs.declared.read_error.ReadError.TheVariants.{NoMemory};

    ghost from_gives = { λ _ error. error ≡ NoMemory };

    fn from(_error: AllocError) -> Self {
        ReadError::NoMemory
    }
}

/// A line that was not read is a fault with this reason.
pub fn refused(unread: Unread, why: LogWhy, left: usize) -> ReadError
    ensures { result ≡ line_fault unread why left }
{
    match unread {
        Unread::NotAllowed => ReadError::Fault { why, left },
        Unread::NoMemory => ReadError::NoMemory,
    }
}

/// The fault with its place.
pub fn fault_of(text: &[u8], error: ReadError) -> LogFault
    requires few { length text.now < 2 ^ 32 }
    requires fits { IsWithin error (length text.now) }
    ensures { IsPlaced error (length text.now) result }
{
    match error {
        ReadError::NoMemory => LogFault {
            at: 0,
            why: LogWhy::NoMemory,
        },
        ReadError::Fault { why, left } => LogFault {
            at: (text.len() - left) as u32,
            why,
        },
    }
}
