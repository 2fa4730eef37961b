//! Why a text is no log.
use thiserror::Error;

/// What is wrong with a text: in format 1 with its first part that no log has there, in format 2 with its first field that is not allowed.
#[derive(Clone, Copy, Debug, PartialEq, Eq)]
pub enum LogWhy {
    /// Format 1: the first line is neither `srr 1` nor that of another version. Format 2: the first six bytes are neither `srr 2` and a
    /// newline nor those of another version.
    BadHead,
    /// Format 1: the `ranks` line, the `program` line, a `rank` line, or no newline after the program. Format 2: the number of ranks, of
    /// the program's bytes, or of a rank's entries.
    BadNumber,
    /// Format 1: the `group` line. Format 2: the group's eight bytes.
    BadGroup,
    /// Format 1: an entry's line, or the `end` line. Format 2: a field of a record.
    BadEntry,
    /// The text ends within a part of format 1, or a field of format 2.
    Short,
    /// Format 1: bytes come after the `end` line. Format 2: after the digest.
    Extra,
    /// Format 1: the first line is `srr` and the number of another version. Format 2: after `srr` and a blank stands another byte than `2`.
    BadVersion,
    /// Format 2: the digest is not that of the bytes before it. Format 1 has no digest.
    Digest,
    /// No memory was left: of the text it says nothing.
    NoMemory,
}

/// A refusal and the place of its first byte: the text's length for Short, 0 for NoMemory.
#[derive(Clone, Copy, Debug, PartialEq, Eq, Error)]
#[error("{at} {why:?}")]
pub struct LogFault {
    pub at: u32,
    pub why: LogWhy,
}
