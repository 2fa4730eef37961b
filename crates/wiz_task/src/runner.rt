//! Who runs the ranks of a program.
ghost use Rattle.c_program.specs.View.{pure_program};
ghost use Rattle.std.specs.Prelude.{Bool, IfOk};
ghost use Rattle.srr_replay.specs.Rounds.{IsReplayable};
ghost use Rattle.wiz_task.specs.inside.Recording.{CanRun, IsMadeRecording};
ghost use Rattle.wiz_task.specs.inside.Replaying.{IsReplayBy};

use crate::ready::Ready;
use c_program::CProgram;
use replay_model::replayed::Replayed;
use srr_entry::log::Log;
use srr_record::Recording;
use std::alloc::{AllocError, Global};

/// What runs the ranks of a program. The error is being out of memory.
pub trait Runner {
    /// Whether each rank has a thread. If not, a recording is the serial run of the turns.
    ghost is_threaded: { Bool };

    /// That its calls may be made, and answer what they are asked for.
    ghost runs: { Self → Type 0 };

    /// The recording of what is run.
    fn record(&self, alloc: Global, ready: &Ready) -> Result<Recording, AllocError>
        requires runs { runs self.now }
        requires ready { CanRun ready.now }
        ensures { IfOk result (IsMadeRecording is_threaded ready.now) };

    /// The replay of a log with a program, up to the breakpoint if there is one.
    fn replay(
        &self,
        alloc: Global,
        program: &CProgram,
        log: &Log,
        stop: Option<(u8, u32)>,
    ) -> Result<Replayed, AllocError>
        requires runs { runs self.now }
        requires log { IsReplayable log.now }
        ensures { IfOk result (IsReplayBy (pure_program program.now) log.now stop) };
}
