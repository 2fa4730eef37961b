//! Faults of fields.
ghost use Rattle.std.specs.Prelude.{◌≡◌};
ghost use Rattle.srr_log.specs.declared.fault.LogWhy.TheVariants.{BadEntry, Short};
ghost use Rattle.srr_log.specs.declared.read_error.ReadError.TheVariants.{Fault};

use srr_log::fault::LogWhy;
use srr_log::read_error::ReadError;

/// A field that the text's end cuts off.
pub fn cut_off() -> ReadError
    ensures { result ≡ Fault Short 0 }
{
    ReadError::Fault {
        why: LogWhy::Short,
        left: 0,
    }
}

/// A field of a record that is not allowed.
pub fn bad_entry(left: usize) -> ReadError
    ensures { result ≡ Fault BadEntry left }
{
    ReadError::Fault {
        why: LogWhy::BadEntry,
        left,
    }
}
