//! What starts the ranks of a search.
ghost use Rattle.std.specs.Prelude.{◌≡◌};

use c_program::CProgram;
use explore::ranks::StartRanks;
use std::alloc::{AllocError, Global};
use wiz_task::ranks::{RunningRank, start_all};

/// The ranks of a program, started as often as it is asked.
#[derive(Drop)]
pub struct Starter<'a> {
    program: &'a CProgram,
}

impl<'a> Starter<'a> {
    /// Of this program.
    pub fn new(program: &'a CProgram) -> Self
        ensures { result.program.now ≡ program.entry.now }
    {
        Starter { program }
    }
}

impl<'a> StartRanks<CProgram, RunningRank<'a>> for Starter<'a> {
    ghost program = { λ starter. starter.program.now };

    fn start(&self, alloc: Global, n: u8) -> Result<Vec<RunningRank<'a>>, AllocError> {
        start_all(alloc, self.program, n)
    }
}
