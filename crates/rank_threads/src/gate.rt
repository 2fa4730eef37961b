//! A gate that each call of a rank passes.

/// Passed by a rank's thread outside the lock, once before the first attempt of each call. It may hold the thread back, and then
/// no clause says that the run goes on.
pub trait Gate {
    /// The rank is about to make its call of this number, counted from 0.
    fn pass(&self, rank: u8, call_number: u32);
}

/// A gate that holds nobody back.
#[derive(Drop)]
pub struct OpenGate;

impl Gate for OpenGate {
    fn pass(&self, _rank: u8, _call_number: u32) {}
}
