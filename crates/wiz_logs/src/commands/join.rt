//! `join LOG OTHER FILE`: two logs are replayed, each alone, and the log of both groups together is written.
ghost use Rattle.std.specs.Prelude.{◌≡◌, ◌∷◌, [], IfOk};
ghost use Rattle.srr_log2.specs.LogBytes.{log_bytes};
ghost use Rattle.srr_regroup.specs.Regrouping.{both_groups, joined_log};
ghost use Rattle.wiz_logs.specs.Regroupings.{Joins, done_outcome, join_outcome, log_file};
ghost use Rattle.wiz_task.specs.inside.Ends.{EndsTask};
ghost use Rattle.wiz_logs.specs.inside.Regrouping.{AreJoinable};
ghost use Rattle.wiz_tool.specs.inside.Told.{IsReportedBy};
ghost use Rattle.wiz_tool.specs.Environment.{around};
ghost use Rattle.wiz_trace.specs.RegroupTexts.{joined_text};
ghost use Rattle.wiz_logs.specs.Logs.{join_requirements, logs_task};

use crate::regrouping::make::{replay_own, two_replays};
use crate::regrouping::subject::{Pair, read_pair};
use crate::regrouping::tell::tell_traces;
use log_bounds::ints32::replies_fit;
use replay_model::replayed::Replayed;
use srr_log2::write_log2::write_log2;
use std::alloc::{AllocError, Global};
use wiz_base::Bytes;
use wiz_io::{Sink, Store};
use wiz_task::runner::Runner;
use wiz_tool::failure::Failure;
use wiz_tool::finish::finish;
use wiz_tool::report::{Report, text_of_replays};
use wiz_tool::status::{Status, of_both};
use wiz_tool::writing::write_file;
use wiz_trace::regroup::joined_text;

/// Joins two logs: `runner` runs the ranks.
pub fn join<'a, S: Store, K: Sink, R: Runner>(
    alloc: Global,
    one: &'a str,
    other: &'a str,
    file: &str,
    store: &mut S,
    out: &mut K,
    runner: &R,
) -> Result<Report, Failure<'a>>
    requires { R.runs runner.now }
    ensures { EndsTask (logs_task one.now other.now join_requirements (Joins file.now)) (around S.observed K.observed store out) result }
{
    let pair = read_pair(alloc, one, other, store)?;
    let first = replay_own(alloc, &pair.program, &pair.one, runner)?;
    let second = replay_own(alloc, &pair.program, &pair.other, runner)?;
    replies_fit(first.events.as_slice());
    replies_fit(second.events.as_slice());
    let report = tell_replayed(alloc, file, &pair, first, second, store, out)?;
    Ok(report)
}

/// Writes the log of both groups where all is done, and tells it; else tells the replays by their traces.
fn tell_replayed<S: Store, K: Sink>(
    alloc: Global,
    file: &str,
    pair: &Pair,
    first: Replayed,
    second: Replayed,
    store: &mut S,
    out: &mut K,
) -> Result<Report, AllocError>
    requires { AreJoinable pair.now.one first.events.events pair.now.other second.events.events }
    ensures told { IsReportedBy (join_outcome file.now pair.now.one first pair.now.other second) (around S.observed K.observed store out) result }
    ensures reads { (S.observed store.new).reads ≡ (S.observed store.old).reads }
{
    match of_both(first.ends.as_slice(), second.ends.as_slice()) {
        Status::Done => write_joined(alloc, file, pair, first, second, store, out),
        status => {
            let replays = two_replays(alloc, first, second)?;
            tell_traces(alloc, status, replays, out)
        }
    }
}

/// Writes the log of both groups and tells it.
fn write_joined<S: Store, K: Sink>(
    alloc: Global,
    file: &str,
    pair: &Pair,
    first: Replayed,
    second: Replayed,
    store: &mut S,
    out: &mut K,
) -> Result<Report, AllocError>
    requires { AreJoinable pair.now.one first.events.events pair.now.other second.events.events }
    ensures told { let files = log_file file.now (joined_log pair.now.one first.events.events pair.now.other second.events.events) in
        IsReportedBy (done_outcome files (joined_text (both_groups pair.now.one pair.now.other)) (first ∷ second ∷ [])) (around S.observed K.observed store out) result }
    ensures reads { (S.observed store.new).reads ≡ (S.observed store.old).reads }
{
    let (text, bytes) = joined(alloc, pair, &first, &second)?;
    let replays = two_replays(alloc, first, second)?;
    let written = write_file(alloc, file, bytes.as_slice(), store);
    let done = text_of_replays(text, Status::Done, replays);
    finish(alloc, written, done, out)
}

/// What is told of the log of both groups, and the bytes of its file.
fn joined(
    alloc: Global,
    pair: &Pair,
    first: &Replayed,
    second: &Replayed,
) -> Result<(Bytes, Bytes), AllocError>
    requires { AreJoinable pair.now.one first.now.events.events pair.now.other second.now.events.events }
    ensures text { IfOk result (λ both. both.0 ≡ joined_text (both_groups pair.now.one pair.now.other)) }
    ensures bytes { IfOk result (λ both. both.1 ≡ log_bytes (joined_log pair.now.one first.now.events.events pair.now.other second.now.events.events)) }
{
    let made = srr_regroup::join(alloc, &pair.one, first, &pair.other, second)?;
    let text = joined_text(alloc, &made.group)?;
    let bytes = write_log2(alloc, &made)?;
    Ok((text, bytes))
}
