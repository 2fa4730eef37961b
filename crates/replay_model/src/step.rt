//! What an attempt answers.
use mpi_call::call::{Call, Comm};
use mpi_call::reply::Reply;
use srr_entry::entry::Entry;

/// What a rank waits for.
#[derive(Clone, Copy, Debug, PartialEq, Eq)]
pub enum Missing {
    /// This start of this rank.
    Start { source: u8, start: u32 },
    /// This member's Enter of this instance of the communicator's collectives.
    Member { rank: u8, comm: Comm, instance: u32 },
}

/// A replayed start that does not agree with the entry that names it.
#[derive(Drop)]
pub struct Found {
    pub rank: u8,
    pub start: u32,
    pub call: Call,
}

/// A call that does not fit its entry.
#[derive(Drop)]
pub struct Divergence {
    pub rank: u8,
    /// The number of the call among the rank's calls, from 0.
    pub call_number: u32,
    pub entry: Entry,
    pub call: Call,
    /// The replayed start that disagrees, where it is no fault of the rank alone.
    pub found: Option<Found>,
}

/// The answer to a rank's attempt.
#[derive(Drop)]
pub enum Step {
    /// The call was answered by this reply, and its event was appended.
    Replied(Reply),
    /// The entry rests on something that has not been replayed.
    Wait(Missing),
    /// The rank's entries are used up.
    LogEnded,
    /// The rank is at its breakpoint.
    AtBreak,
    /// The call does not fit.
    Diverged(Divergence),
}
