//! The primitive calls that a rank makes, the replies that it gets, and when a receive accepts a message.
//!
//! An MPI call is lowered to these: a send or a receive is a `Send` or a `Post`, its completion a `Take`, a collective an
//! `Enter` and a `Take`, a probe a `Peek`. Ranks in calls are ranks of `MPI_COMM_WORLD`.
#![tactic(auto)]

pub mod acceptance;
pub mod call;
pub mod limits;
pub mod lists;
pub mod members;
pub mod needs;
pub mod operations;
pub mod reply;
pub mod results;
pub mod splits;
