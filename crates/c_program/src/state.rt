//! What a rank holds while its program runs.

use crate::range::Range;
use mpi_call::lists::Ranks;

/// A start of the rank: its communicator, and the cells that its message goes to.
#[derive(Clone, Copy)]
pub struct Begun {
    pub comm: u32,
    pub buffer: Range,
}

/// A communicator that was made, and its members in order.
#[derive(Drop)]
pub struct MadeCommunicator {
    pub comm: u32,
    pub members: Ranks,
}

/// What stands where a block begins, or a call: how many cells and variables, which of these is the function's first one,
/// and how many calls are open.
#[derive(Clone, Copy)]
pub struct StackMark {
    pub cells: usize,
    pub slots: usize,
    pub base: usize,
    pub opens: u32,
}

/// An argument of a function of the text.
#[derive(Clone, Copy)]
pub enum Passed {
    /// An int or a communicator.
    Number(i32),
    Cells(Range),
}
