//! The replay of the script.
ghost use Rattle.std.specs.Prelude.{◌≤◌, [], None, IfOk};
ghost use Rattle.srr_replay.specs.Rounds.{IsReplayable, RunAll};
ghost use Rattle.replay_model.specs.Stands.{IsReplayed};
ghost use Rattle.bench_replay.specs.Logs.{log_of};
ghost use Rattle.bench_replay.specs.Script.{next_of};

use crate::script::Script;
use crate::script_log::log_of;
use crate::script_rank::ScriptRank;
use replay_model::replayed::{Replayed, Stand};
use srr_entry::log::Log;
use srr_replay::serial::replay_serial;
use std::alloc::{AllocError, Global};

/// Replays the script's run with this many messages from its log, on one thread.
pub fn replay(alloc: Global, messages: u32) -> Result<Replayed, AllocError>
    requires { messages ≤ 400000 }
    ensures { IfOk result (λ replayed. IsReplayed (next_of messages) (λ n rank replies. []) (λ n rank replies. []) (log_of messages) None replayed) }
{
    let script = Script { messages };
    let log = log_of(alloc, messages)?;
    let runs = start_all(alloc, &script, &log)?;
    replay_serial(alloc, &script, &log, runs, None)
}

/// One run for each rank of the group, before its first call.
fn start_all<'a>(
    alloc: Global,
    script: &'a Script,
    log: &Log,
) -> Result<Vec<ScriptRank<'a>>, AllocError>
    requires { IsReplayable log.now }
    ensures { IfOk result (λ runs. RunAll (λ run. run) script.now log.now [] runs.items) }
{
    let mut runs = Vec::new(alloc);
    for rank in log.group.as_slice() {
        runs.push(ScriptRank::start(alloc, script, log.ranks, *rank))?;
    }
    Ok(runs)
}

/// How many of the ranks have ended.
pub fn count_ended(stands: &[Stand]) -> usize {
    stands
        .iter()
        .filter(|stand| matches!(stand, Stand::Ended))
        .count()
}
