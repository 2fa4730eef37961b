//! Whole recordings and replays, each rank on a thread of its own where the system gives one. Where it gives none the caller does that
//! rank's work itself, so nothing is refused for want of threads. Nothing is said of waiting, fairness or time.
ghost use Rattle.std.specs.Prelude.{◌≡◌, [], ℕ, List, IfOk};
ghost use Rattle.group_plan.specs.Plans.{number_of_ranks};
ghost use Rattle.run_model.specs.declared.event.Event.{Event};
ghost use Rattle.run_model.specs.Views.{view_of};
ghost use Rattle.replay_model.specs.Laws.{IsReplayOfEveryRun};
ghost use Rattle.replay_model.specs.Replays.{IsWholeReplay};
ghost use Rattle.replay_model.specs.Stands.{IsReplayed};
ghost use Rattle.srr_record.specs.Recordings.{AreRuns, IsRecorded};
ghost use Rattle.srr_replay.specs.Rounds.{IsReplayable, RunAll};

use crate::gate::Gate;
use crate::recorder::Recorder;
use crate::replayer::Replayer;
use crate::rounds::run;
use group_plan::Plan;
use mpi_machine::machine::Machine;
use replay_model::replayed::Replayed;
use run_model::lists::all_ranks;
use run_model::program::{Program, RankRun};
use srr_entry::log::Log;
use srr_record::recording::Recording;
use srr_record::serial::finish_record;
use srr_replay::replay::Replay;
use srr_replay::serial::finish_replay;
use std::alloc::{AllocError, Global};
use std::sync::Wait;
use std::thread::Threads;

/// Records a run of the program with this text on threads: the order of the ranks' attempts is the one in which they get the lock.
/// Run k is rank k, just started; the gate is passed once before the first attempt of each call that a rank makes on its thread. The
/// error is being out of memory, at any rank.
pub fn record_threads<
    'a,
    P: Program + Sync,
    R: RankRun<Of = P> + Send,
    W: Threads + Wait + Sync,
    G: Gate + Sync,
>(
    rt: &W,
    alloc: Global,
    program: &'a P,
    text: &[u8],
    plan: &Plan,
    runs: Vec<R>,
    gate: &G,
) -> Result<Recording, AllocError>
    requires runs { AreRuns R.standing program.now (number_of_ranks plan.now) [] runs.items }
    ensures { IfOk result (λ recording. IsRecorded (P.next program.now) (P.output program.now) (number_of_ranks plan.now) text.now plan.now recording) }
{
    let ranks = all_ranks(alloc, plan.n())?;
    let machine = Box::new(alloc, Machine::new(alloc, program, plan.n())?)?;
    let recorder = Recorder {
        machine,
        is_short: false,
    };
    let (recorder, runs) = run(rt, alloc, recorder, ranks.as_slice(), runs, true, gate)?;
    let Recorder { machine, .. } = recorder;
    finish_record(alloc, Box::into_inner(machine), text, plan, runs)
}

/// Replays a log's group on threads, up to the breakpoint (a rank, and the number of its call) if there is one. Run k is the k-th rank
/// of the group, just started; no rank outside the group is run. The gate is passed once before the first attempt of each call that
/// a rank makes on its thread. The error is being out of memory, at any rank.
pub fn replay_threads<
    'a,
    P: Program + Sync,
    R: RankRun<Of = P> + Send,
    W: Threads + Wait + Sync,
    G: Gate + Sync,
>(
    rt: &W,
    alloc: Global,
    program: &'a P,
    log: &'a Log,
    runs: Vec<R>,
    stop: Option<(u8, u32)>,
    gate: &G,
) -> Result<Replayed, AllocError>
    requires log { IsReplayable log.now }
    requires runs { RunAll R.standing program.now log.now [] runs.items }
    ensures replay { IfOk result (λ replayed. IsReplayed (P.next program.now) (P.output program.now) (P.variables program.now) log.now stop replayed) }
    ensures runs { IfOk result (λ replayed. IsReplayOfEveryRun (P.next program.now) (P.output program.now) log.now stop replayed) }
    ensures alike { IfOk result (λ replayed. (other : List Event) → IsWholeReplay (P.next program.now) log.now stop other → (rank : ℕ) → view_of replayed.events.events rank ≡ view_of other rank) }
{
    let replay = Box::new(alloc, Replay::new(alloc, program, log, stop)?)?;
    let replayer = Replayer {
        replay,
        is_short: false,
    };
    let (replayer, runs) = run(rt, alloc, replayer, log.group.as_slice(), runs, false, gate)?;
    let Replayer { replay, .. } = replayer;
    finish_replay(alloc, Box::into_inner(replay), runs)
}
