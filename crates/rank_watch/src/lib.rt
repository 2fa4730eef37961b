//! A rank that runs a program, and the innermost variable of a name that stands before its next call.
#![tactic(auto)]

ghost use Rattle.std.specs.Prelude.{◌≡◌, IfOk, Some, true};
ghost use Rattle.mpi_call.specs.declared.call.Call.{Call};
ghost use Rattle.rank_watch.specs.Innermost.{innermost_values};

use mpi_call::lists::Ints;
use run_model::program::RankRun;
use std::alloc::AllocError;

/// A rank that runs a program, whose variables can be looked up by their names, one at a time.
pub trait WatchedRun: RankRun {
    /// The values of the innermost variable of a name that stands before the call that was handed out, if there is one. Takes
    /// the memory of these values alone.
    fn variable(&self, name: &[u8]) -> Result<Option<Ints>, AllocError>
        requires asked { (Self.standing self.now).asked ≡ true }
        requires live { (call : Call) × (Self.Of.next (Self.standing self.now).program (Self.standing self.now).ranks (Self.standing self.now).rank (Self.standing self.now).replies ≡ Some call) }
        ensures { IfOk result (λ found. found ≡ innermost_values name.now (Self.Of.variables (Self.standing self.now).program (Self.standing self.now).ranks (Self.standing self.now).rank (Self.standing self.now).replies)) };
}
