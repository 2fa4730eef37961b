//! `diff LOG OTHER`: two logs of one group are replayed, each alone, and it is told where what their ranks saw parts.
ghost use Rattle.std.specs.Prelude.{◌≡◌, [], IfOk};
ghost use Rattle.c_program.specs.View.{pure_program};
ghost use Rattle.c_types.specs.Checks.{IsProgramOf};
ghost use Rattle.srr_replay.specs.Rounds.{IsReplayable};
ghost use Rattle.view_diff.specs.Comparing.{CanCompare};
ghost use Rattle.wiz_logs.specs.Comparisons.{Compares, of_comparison};
ghost use Rattle.wiz_logs.specs.inside.Comparing.{AreReplayedRuns};
ghost use Rattle.wiz_task.specs.inside.Ends.{EndsTask};
ghost use Rattle.wiz_tool.specs.inside.Told.{outcome_written};
ghost use Rattle.wiz_tool.specs.Environment.{around};
ghost use Rattle.wiz_logs.specs.Logs.{diff_requirements, logs_task};

use crate::comparing::subject::{TwoRuns, read_runs};
use crate::regrouping::make::{replay_own, two_replays};
use c_types::text_fixes_meaning;
use explanation_text::diff::diff_text;
use replay_model::replayed::Replayed;
use std::alloc::{AllocError, Global};
use view_diff::compare::compare;
use view_diff::compared::{Comparison, parts};
use view_diff::laws::parts_by_a_reply;
use wiz_io::{Sink, Store};
use wiz_task::runner::Runner;
use wiz_tool::failure::Failure;
use wiz_tool::report::{Done, Report, tell, text_of_replays};
use wiz_tool::status::{Status, of_both};
use wiz_trace::trace::traces_text;

/// Compares two logs: `runner` replays them.
pub fn diff<'a, S: Store, K: Sink, R: Runner>(
    alloc: Global,
    one: &'a str,
    other: &'a str,
    store: &mut S,
    out: &mut K,
    runner: &R,
) -> Result<Report, Failure<'a>>
    requires runs { R.runs runner.now }
    ensures { EndsTask (logs_task one.now other.now diff_requirements Compares) (around S.observed K.observed store out) result }
{
    let runs = read_runs(alloc, one, other, store)?;
    let done = compare_runs(alloc, &runs, runner)?;
    let report = tell(done, out)?;
    Ok(report)
}

/// Replays both logs, and tells where their runs part.
fn compare_runs<R: Runner>(alloc: Global, runs: &TwoRuns, runner: &R) -> Result<Done, AllocError>
    requires compared { CanCompare runs.now.one runs.now.other }
    requires program { IsProgramOf runs.now.one.program (pure_program runs.now.program) }
    requires one { IsReplayable runs.now.one }
    requires other { IsReplayable runs.now.other }
    requires runs { R.runs runner.now }
    ensures { IfOk result (λ done. Compares runs.now.one runs.now.other (outcome_written [] done)) }
{
    let first = replay_own(alloc, &runs.program, &runs.one, runner)?;
    let second = replay_own(alloc, &runs.program, &runs.other, runner)?;
    compared(alloc, runs, first, second)
}

/// Where the runs of two replays part, or the traces of the replays where one is not done.
fn compared(
    alloc: Global,
    runs: &TwoRuns,
    first: Replayed,
    second: Replayed,
) -> Result<Done, AllocError>
    requires { AreReplayedRuns runs.now first second }
    ensures { IfOk result (λ done. Compares runs.now.one runs.now.other (outcome_written [] done)) }
{
    // Laws: all programs of a text mean the same, and where two replays part one call is answered in two ways, or one is cut short.
    text_fixes_meaning(&runs.program, runs.one.program.as_slice());
    parts_by_a_reply(
        &runs.program,
        &runs.one,
        &runs.other,
        &first.events,
        &second.events,
    );
    let ranks = compare(
        alloc,
        runs.one.ranks,
        &runs.one.group,
        &first.events,
        &second.events,
    )?;
    match of_both(first.ends.as_slice(), second.ends.as_slice()) {
        Status::Done => {
            let text = diff_text(alloc, &first.events, &second.events, &ranks)?;
            let replays = two_replays(alloc, first, second)?;
            Ok(text_of_replays(text, of_comparison(&ranks), replays))
        }
        status => {
            let replays = two_replays(alloc, first, second)?;
            let text = traces_text(alloc, &replays)?;
            Ok(text_of_replays(text, status, replays))
        }
    }
}

/// The status of a comparison: whether the runs part.
fn of_comparison(ranks: &Comparison) -> Status
    ensures { result ≡ of_comparison ranks.now }
{
    if parts(ranks) {
        Status::Parted
    } else {
        Status::Done
    }
}
