//! Who waits for whom in a run.
use crate::wait::Waits;
use listed::Listed;
use mpi_call::call::Call;
use mpi_call::lists::Ranks;

/// A rank that is stuck.
#[derive(Drop)]
pub struct Blocked {
    pub rank: u8,
    /// The number of its call.
    pub number: u32,
    pub call: Call,
    /// What it waits for there.
    pub waits: Waits,
}

/// Ranks that are stuck, which contracts see as a list.
pub type BlockedRanks = Listed<Blocked>;

/// Cycles of ranks, each from its least rank, which contracts see as a list of lists.
pub type Cycles = Listed<Ranks>;

/// The ranks of a run that are stuck, who of them wait for each other in a cycle, and who wait in vain.
#[derive(Drop)]
pub struct Graph {
    /// By rank.
    pub blocked: BlockedRanks,
    /// By their least ranks.
    pub cycles: Cycles,
    /// Ranks that wait with a start, or a probe, for ranks that have all ended, rising.
    pub hopeless: Ranks,
}
