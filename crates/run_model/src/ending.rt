//! How a run ended.
use mpi_call::call::Halt;

/// Whether every rank of a run came to its end, or what stopped them all.
#[derive(Clone, Copy, Debug, PartialEq, Eq)]
pub enum Ending {
    Finished,
    Halted(Halt),
}
