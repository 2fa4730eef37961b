//! What a rank asks.
use mpi_call::call::Call;

/// A rank's next call, and how many calls it made before.
#[derive(Clone, Copy)]
pub struct NextCall<'a> {
    pub rank: u8,
    pub number: u32,
    pub call: &'a Call,
}
