//! The replay of a log.
ghost use Rattle.c_program.specs.View.{pure_program};
ghost use Rattle.std.specs.Prelude.{◌≡◌, ◌∷◌, [], IfOk};
ghost use Rattle.srr_replay.specs.Rounds.{IsReplayable};
ghost use Rattle.wiz_task.specs.inside.Replaying.{IsReplayBy};

use c_program::CProgram;
use rank_threads::{Gate, replay_threads};
use replay_model::replayed::{Replayed, Replays};
use srr_entry::log::Log;
use srr_replay::serial::replay_serial;
use std::alloc::{AllocError, Global};
use std::sync::Wait;
use std::thread::Threads;
use wiz_task::ranks::start_group;

/// The replay on one thread, in rounds over the ranks.
pub fn replay_in_rounds(
    alloc: Global,
    program: &CProgram,
    log: &Log,
    stop: Option<(u8, u32)>,
) -> Result<Replayed, AllocError>
    requires { IsReplayable log.now }
    ensures { IfOk result (IsReplayBy (pure_program program.now) log.now stop) }
{
    let runs = start_group(alloc, program, log)?;
    replay_serial(alloc, program, log, runs, stop)
}

/// The replay with a thread for each rank.
pub fn replay_on_threads<R: Threads + Wait + Sync, G: Gate + Sync>(
    rt: &R,
    alloc: Global,
    program: &CProgram,
    log: &Log,
    stop: Option<(u8, u32)>,
    gate: &G,
) -> Result<Replayed, AllocError>
    requires { IsReplayable log.now }
    ensures { IfOk result (IsReplayBy (pure_program program.now) log.now stop) }
{
    let runs = start_group(alloc, program, log)?;
    replay_threads(rt, alloc, program, log, runs, stop, gate)
}

/// The list of one replay.
pub fn one_replay(alloc: Global, replayed: Replayed) -> Result<Replays, AllocError>
    ensures { IfOk result (λ replays. replays ≡ replayed ∷ []) }
{
    let mut replays = Replays::new(alloc);
    replays.push(replayed)?;
    Ok(replays)
}
