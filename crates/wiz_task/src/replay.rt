//! The replay of a log with the program of a text.
ghost use Rattle.c_program.specs.View.{pure_program};
ghost use Rattle.std.specs.Prelude.{IfOk};
ghost use Rattle.c_types.specs.Checks.{IsProgramOf};
ghost use Rattle.srr_replay.specs.Rounds.{IsReplayable};
ghost use Rattle.wiz_task.specs.Replayings.{IsReplayOf};

use crate::runner::Runner;
use c_program::CProgram;
use c_types::text_fixes_meaning;
use replay_model::laws::every_order_shows_every_run;
use replay_model::replayed::Replayed;
use srr_entry::log::Log;
use std::alloc::{AllocError, Global};

/// The replay of a log with the program of a text: `runner` runs the ranks.
pub fn replay_text<R: Runner>(
    alloc: Global,
    program: &CProgram,
    text: &[u8],
    log: &Log,
    stop: Option<(u8, u32)>,
    runner: &R,
) -> Result<Replayed, AllocError>
    requires program { IsProgramOf text.now (pure_program program.now) }
    requires log { IsReplayable log.now }
    requires runs { R.runs runner.now }
    ensures { IfOk result (IsReplayOf text.now log.now stop) }
{
    // Two laws: all programs of a text mean the same, and any replay of a log shows each run with it.
    text_fixes_meaning(program, text);
    every_order_shows_every_run(program, log);
    runner.replay(alloc, program, log, stop)
}
