//! What evaluation goes by.

use c_program::effect::Rank;
use c_program::program::Function;
use std::alloc::Global;

/// The rank, the functions of the text, and how many more calls may be open.
#[derive(Clone, Copy)]
pub struct CallContext<'p> {
    pub alloc: Global,
    pub rank: Rank,
    pub functions: &'p [Function],
    pub depth: u32,
}
