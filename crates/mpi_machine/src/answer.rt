//! What an attempt answers.
use mpi_call::reply::Reply;

/// The answer to a rank's attempt.
#[derive(Drop)]
pub enum Answer {
    /// The call has this reply, and is one more event.
    Replied(Reply),
    /// The rank waits: its call cannot go yet.
    Wait,
}
