//! Why a text is no program.
use std::alloc::{AllocError, AllocFailed};
use thiserror::Error;

/// Why a text is refused. Of two reasons at one place, the one that comes first here is told.
#[derive(Clone, Copy, Debug, PartialEq, Eq)]
pub enum Why {
    /// A byte that begins no token, or one outside 32 to 126 in a text.
    BadByte,
    /// A comment without its end. On a line that is a define it has to end on that line.
    OpenComment,
    /// A text without its closing mark on its line.
    OpenText,
    /// A number that is not one of C's, or above `GREATEST_LITERAL`.
    BadLiteral,
    Unexpected,
    TooDeep,
    Unknown,
    Twice,
    WrongType,
    WrongCount,
    NoMain,
    BadFormat,
    /// A word, a directive or a name of C or MPI that this language leaves out.
    LeftOut,
    NoMemory,
}

/// A refusal and its place. Both numbers count from 1, the column in bytes.
#[derive(Clone, Copy, Debug, PartialEq, Eq, Error)]
#[error("{line}:{column} {why:?}")]
pub struct SourceFault {
    pub line: u32,
    pub column: u32,
    pub why: Why,
}

impl From<AllocError> for SourceFault {
    ghost use Rattle.std.specs.Prelude.{◌≡◌};
    ghost use Rattle.c_lex.specs.NoMemory.{no_memory_fault};

    ghost from_gives = { λ _ fault. fault ≡ no_memory_fault };

    /// Being out of memory has no place: it is told at the first one.
    fn from(_error: AllocError) -> Self {
        SourceFault {
            line: 1,
            column: 1,
            why: Why::NoMemory,
        }
    }
}

impl<T: Drop> From<AllocFailed<T>> for SourceFault {
    ghost use Rattle.std.specs.Prelude.{◌≡◌};
    ghost use Rattle.c_lex.specs.NoMemory.{no_memory_fault};

    ghost from_gives = { λ _ fault. fault ≡ no_memory_fault };

    fn from(_error: AllocFailed<T>) -> Self {
        SourceFault::from(AllocError)
    }
}
