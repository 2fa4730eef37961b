//! `check PROGRAM PLAN [--serial]`: a run is recorded, and each group is replayed from the bytes of its log.
ghost use Rattle.c_program.specs.View.{pure_program};
ghost use Rattle.std.specs.Prelude.{◌≡◌, [], IfOk, None};
ghost use Rattle.std.specs.List.{AllByRecursion, AllZip};
ghost use Rattle.srr_entry.specs.declared.log.Log.{Log};
ghost use Rattle.wiz_runs.specs.Runs.{check_outcome};
ghost use Rattle.wiz_task.specs.Replayings.{IsReplayOf};
ghost use Rattle.wiz_task.specs.inside.Ends.{EndsTask};
ghost use Rattle.wiz_task.specs.inside.Recording.{CanRun};
ghost use Rattle.wiz_runs.specs.inside.Recording.{IsCheckedRun, IsKeptLog};
ghost use Rattle.wiz_tool.specs.inside.Told.{outcome_written};
ghost use Rattle.wiz_tool.specs.Environment.{around};
ghost use Rattle.wiz_words.specs.Texts.{run_with_texts};
ghost use Rattle.wiz_words.specs.Words.{is_threaded_run};
ghost use Rattle.wiz_runs.specs.Runs.{TellsCheck, checked, run_task};

use crate::recording::ready::read_run;
use c_program::CProgram;
use replay_model::replayed::{Replayed, Replays};
use srr_entry::log::Log;
use srr_log2::read_either::read_either;
use srr_log2::write_log2::write_log2;
use srr_record::Recording;
use std::alloc::{AllocError, Global};
use wiz_base::Bytes;
use wiz_io::{Sink, Store};
use wiz_task::ready::Ready;
use wiz_task::replay::replay_text;
use wiz_task::runner::Runner;
use wiz_tool::failure::Failure;
use wiz_tool::report::{Done, Report, tell};
use wiz_tool::status::of_ending;
use wiz_trace::check::check_text;
use wiz_words::command::RunWords;

/// Records what the arguments name, and replays each group: `runner` runs the ranks.
pub fn check<'a, S: Store, K: Sink, R: Runner>(
    alloc: Global,
    run: &RunWords<&'a str>,
    store: &mut S,
    out: &mut K,
    runner: &R,
) -> Result<Report, Failure<'a>>
    requires threads { R.is_threaded ≡ is_threaded_run (run_with_texts run.now) }
    requires runs { R.runs runner.now }
    ensures { EndsTask (run_task (run_with_texts run.now) (TellsCheck checked)) (around S.observed K.observed store out) result }
{
    let ready = read_run(alloc, run, store)?;
    let checked = run_and_replay(alloc, &ready, runner)?;
    let text = check_text(
        alloc,
        &ready.plan,
        &checked.replays,
        &checked.recording.ending,
    )?;
    let report = tell(checked.told_by(text), out)?;
    Ok(report)
}

/// A run, and the replay of each group's log.
#[derive(Drop)]
pub struct CheckedRun {
    pub recording: Recording,
    pub replays: Replays,
}

impl CheckedRun {
    /// What is told of it, by a text.
    pub fn told_by(self, text: Bytes) -> Done
        ensures { outcome_written [] result ≡ check_outcome text self.recording self.replays }
    {
        let CheckedRun { recording, replays } = self;
        let status = of_ending(&recording.ending);
        Done {
            text,
            status,
            run: Some(recording.history),
            replays,
        }
    }
}

/// Records a run and replays each group.
pub fn run_and_replay<R: Runner>(
    alloc: Global,
    ready: &Ready,
    runner: &R,
) -> Result<CheckedRun, AllocError>
    requires ready { CanRun ready.now }
    requires runs { R.runs runner.now }
    ensures { IfOk result (IsCheckedRun R.is_threaded ready.now) }
{
    let recording = runner.record(alloc, ready)?;
    let replays = replay_groups(alloc, &ready.program, recording.logs.as_slice(), runner)?;
    Ok(CheckedRun { recording, replays })
}

/// The replay of each log with the one program that all of them hold.
fn replay_groups<R: Runner>(
    alloc: Global,
    program: &CProgram,
    logs: &[Log],
    runner: &R,
) -> Result<Replays, AllocError>
    requires logs { AllByRecursion (IsKeptLog (pure_program program.now)) logs.now }
    requires runs { R.runs runner.now }
    ensures { IfOk result (λ replays. AllZip (λ (log : Log). IsReplayOf log.program log None) logs.now replays) }
{
    let mut replays = Replays::new(alloc);
    for log in logs {
        let replayed = replay_kept(alloc, program, log, runner)?;
        replays.push(replayed)?;
    }
    Ok(replays)
}

/// The replay of a log that is read from its text.
fn replay_kept<R: Runner>(
    alloc: Global,
    program: &CProgram,
    log: &Log,
    runner: &R,
) -> Result<Replayed, AllocError>
    requires log { IsKeptLog (pure_program program.now) log.now }
    requires runs { R.runs runner.now }
    ensures { IfOk result (IsReplayOf log.now.program log.now None) }
{
    let text = write_log2(alloc, log)?;
    // The text of a log is read back unless memory is out.
    let Ok(read) = read_either(alloc, text.as_slice()) else {
        return Err(AllocError);
    };
    replay_text(alloc, program, read.program.as_slice(), &read, None, runner)
}
