//! The replays that logs are made from.
ghost use Rattle.std.specs.Prelude.{◌≡◌, ◌∷◌, [], IfOk, None};
ghost use Rattle.std.specs.List.{AllByRecursion};
ghost use Rattle.c_program.specs.View.{pure_program};
ghost use Rattle.c_types.specs.Checks.{IsProgramOf};
ghost use Rattle.group_plan.specs.Plans.{IsRisingGroup};
ghost use Rattle.srr_replay.specs.Rounds.{IsReplayable};
ghost use Rattle.wiz_task.specs.Replayings.{IsReplayOf};

use c_program::CProgram;
use group_plan::Plan;
use replay_model::replayed::{Replayed, Replays};
use srr_entry::log::Log;
use std::alloc::{AllocError, Global};
use wiz_task::replay::replay_text;
use wiz_task::runner::Runner;

/// The replay of a log with its own program, without a breakpoint: `runner` runs the ranks.
pub fn replay_own<R: Runner>(
    alloc: Global,
    program: &CProgram,
    log: &Log,
    runner: &R,
) -> Result<Replayed, AllocError>
    requires program { IsProgramOf log.now.program (pure_program program.now) }
    requires log { IsReplayable log.now }
    requires runs { R.runs runner.now }
    ensures { IfOk result (IsReplayOf log.now.program log.now None) }
{
    replay_text(alloc, program, log.program.as_slice(), log, None, runner)
}

/// The list of two replays.
pub fn two_replays(alloc: Global, first: Replayed, second: Replayed) -> Result<Replays, AllocError>
    ensures { IfOk result (λ replays. replays ≡ first ∷ second ∷ []) }
{
    let mut replays = Replays::new(alloc);
    replays.push(first)?;
    replays.push(second)?;
    Ok(replays)
}

/// Each group of a plan has ranks, rising: a fact of its type, which no empty body can show.
pub fn groups_rise(plan: &Plan)
    ensures { AllByRecursion IsRisingGroup plan.now }
{
    plan.n();
}
