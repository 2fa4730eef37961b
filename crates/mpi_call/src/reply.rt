//! The replies to calls.
ghost use Rattle.std.specs.Prelude.{◌≡◌, IfOk};

use crate::call::{Comm, Halt};
use crate::lists::{Ints, Ranks};
use listed::Listed;
use std::alloc::AllocError;

/// What the completion of a start gives.
#[derive(Clone, Drop)]
pub enum Got {
    /// The send is complete.
    Sent,
    /// The receive was from `MPI_PROC_NULL`.
    Nothing,
    /// A message, by its sender and the number of its Send among that rank's starts.
    Message {
        source: u8,
        start: u32,
        tag: u32,
        ints: Ints,
    },
    /// The result of a collective.
    Joined {
        ints: Ints,
    },
    /// A new communicator and its members in order; number 0 without members is `MPI_COMM_NULL`.
    Made {
        comm: Comm,
        members: Ranks,
    },
}

/// One completed start, by its index in the list of the Take.
#[derive(Clone, Drop)]
pub struct Item {
    pub index: u32,
    pub got: Got,
}

/// Completed starts, which contracts see as a list.
pub type Items = Listed<Item>;

/// The answer to a call.
#[derive(Clone, Drop)]
pub enum Reply {
    /// To a Send, Post, Enter or End.
    Done,
    /// To a Take: the completed starts, their indices rising.
    Took(Items),
    /// To a Test or a probe that does not wait.
    NotYet,
    /// To a probe: the message that it found, and how many ints it has.
    Peeked {
        source: u8,
        start: u32,
        tag: u32,
        count: u32,
    },
    /// The run has stopped; the rank makes no further call.
    Stopped(Halt),
}

/// A copy of a reply.
pub fn copy_of(reply: &Reply) -> Result<Reply, AllocError>
    ensures { IfOk result (λ copied. copied ≡ reply.now) }
{
    reply.clone()
}
