//! Changes of a variable.
use listed::Listed;
use mpi_call::lists::Ints;

/// A change of a variable, by the call before which it is seen. There are no values where no such variable stands.
#[derive(Drop)]
pub struct Change {
    /// The number of the call.
    pub number: usize,
    /// The values before the call before it.
    pub old: Option<Ints>,
    /// The values before it.
    pub new: Option<Ints>,
}

/// Changes in order, which contracts see as a list.
pub type Changes = Listed<Change>;
