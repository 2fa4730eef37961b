//! The ranks of a program, started anew as often as a search needs them.
ghost use Rattle.std.specs.Prelude.{◌≤◌, [], IfOk};
ghost use Rattle.mpi_call.specs.declared.limits.TheConstants.{MOST_RANKS};
ghost use Rattle.srr_record.specs.Recordings.{AreRuns};

use run_model::program::{Program, RankRun};
use std::alloc::{AllocError, Global};

/// What starts the ranks of a program.
pub trait StartRanks<P: Program, R: RankRun<Of = P>> {
    /// The program.
    ghost program: { Self → P };

    /// One run for each of n ranks, before its first call.
    fn start(&self, alloc: Global, n: u8) -> Result<Vec<R>, AllocError>
        requires { n ≤ MOST_RANKS }
        ensures { IfOk result (λ runs. AreRuns R.standing (program self.now) n [] runs.items) };
}
