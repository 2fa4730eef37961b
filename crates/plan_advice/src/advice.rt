//! Advice and its bounds.
use listed::Listed;
use mpi_call::lists::Ranks;

/// Costs, the k-th that of the first k ranks; contracts see a list.
pub type Bounds = Listed<u64>;

/// Which blocks of neighbouring ranks to take as groups.
#[derive(Drop)]
pub struct Advice {
    /// For each block, in order, the rank after its last one.
    pub ends: Ranks,
    /// The ints that the logs of the blocks keep together.
    pub cost: u64,
    /// For each number of ranks, from 0 on, what the cheapest cutting of the first so many costs.
    pub bounds: Bounds,
}
