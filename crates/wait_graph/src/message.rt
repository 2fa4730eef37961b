//! Messages to a rank that is stuck.
use listed::Listed;
use mpi_call::call::Comm;
use msg_races::names::Name;

/// A message that a rank took.
#[derive(Clone, Copy)]
pub struct Taken {
    pub name: Name,
    /// The number of the call that took it.
    pub call: u32,
}

/// A message that nobody has received.
#[derive(Clone, Copy)]
pub struct Open {
    pub name: Name,
    pub comm: Comm,
    pub tag: u32,
}

/// Messages that nobody has received, which contracts see as a list.
pub type Opens = Listed<Open>;
