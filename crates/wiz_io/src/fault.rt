//! Why a file or an output was refused.
ghost use Rattle.std.specs.Prelude.{◌≡◌};

use std::alloc::AllocError;
use thiserror::Error;

/// Why a file was not read.
#[derive(Clone, Copy, Debug, PartialEq, Eq, Error)]
pub enum ReadFault {
    #[error("no such file")]
    Missing,
    #[error("more bytes than the limit")]
    TooLong,
    #[error("the file could not be read")]
    Failed,
    #[error("out of memory")]
    NoMemory,
}

/// Why a file was not written.
#[derive(Clone, Copy, Debug, PartialEq, Eq, Error)]
pub enum WriteFault {
    #[error("the file could not be written")]
    Failed,
    #[error("out of memory")]
    NoMemory,
}

/// Why a piece was not put out, or not all of it.
#[derive(Clone, Copy, Debug, PartialEq, Eq, Error)]
pub enum PutFault {
    #[error("the output could not be written")]
    Failed,
    #[error("out of memory")]
    NoMemory,
}

impl From<AllocError> for ReadFault {
    ghost use Rattle.wiz_io.specs.declared.fault.ReadFault.TheVariants.{NoMemory};

    ghost from_gives = { λ _ fault. fault ≡ NoMemory };

    fn from(_: AllocError) -> Self {
        ReadFault::NoMemory
    }
}

impl From<AllocError> for WriteFault {
    ghost use Rattle.wiz_io.specs.declared.fault.WriteFault.TheVariants.{NoMemory};

    ghost from_gives = { λ _ fault. fault ≡ NoMemory };

    fn from(_: AllocError) -> Self {
        WriteFault::NoMemory
    }
}

impl From<AllocError> for PutFault {
    ghost use Rattle.wiz_io.specs.declared.fault.PutFault.TheVariants.{NoMemory};

    ghost from_gives = { λ _ fault. fault ≡ NoMemory };

    fn from(_: AllocError) -> Self {
        PutFault::NoMemory
    }
}
