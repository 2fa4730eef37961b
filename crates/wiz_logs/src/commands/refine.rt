//! `refine LOG PLAN PREFIX`: a log is replayed, and the log of each plan group that lies in its group is written.
ghost use Rattle.std.specs.Prelude.{◌≡◌, ◌≤◌, ◌<◌, ◌∷◌, [], IfErr, OnOk, drop, length};
ghost use Rattle.std.specs.List.{slice_index_or};
ghost use Rattle.srr_regroup.specs.Regrouping.{refined};
ghost use Rattle.wiz_tool.specs.Files.{AreWritten};
ghost use Rattle.wiz_logs.specs.Regroupings.{done_outcome, part_file, part_files, refine_outcome};
ghost use Rattle.wiz_task.specs.inside.Ends.{EndsTask};
ghost use Rattle.wiz_logs.specs.inside.Regrouping.{IsRegroupable};
ghost use Rattle.wiz_tool.specs.inside.Told.{IsStopped, IsReportedBy};
ghost use Rattle.wiz_tool.specs.Environment.{around};
ghost use Rattle.wiz_trace.specs.RegroupTexts.{refined_text};
ghost use Rattle.wiz_logs.specs.Logs.{refine_task};

use crate::regrouping::make::{groups_rise, replay_own};
use crate::regrouping::subject::{Refinement, read_refinement};
use crate::regrouping::tell::tell_traces;
use crate::replaying::make::one_replay;
use log_bounds::ints32::replies_fit;
use replay_model::replayed::Replayed;
use srr_regroup::are_within;
use std::alloc::{AllocError, Global};
use wiz_io::{Sink, Store};
use wiz_task::runner::Runner;
use wiz_tool::failure::Failure;
use wiz_tool::finish::finish;
use wiz_tool::report::{Report, text_of_replays};
use wiz_tool::status::{Status, of_stands};
use wiz_tool::writing::{Unwritten, write_log_file};
use wiz_trace::regroup::refined_text;

/// Refines a log by a plan: `runner` runs the ranks.
pub fn refine<'a, S: Store, K: Sink, R: Runner>(
    alloc: Global,
    name: &'a str,
    plan: &'a str,
    prefix: &str,
    store: &mut S,
    out: &mut K,
    runner: &R,
) -> Result<Report, Failure<'a>>
    requires { R.runs runner.now }
    ensures { EndsTask (refine_task name.now plan.now prefix.now) (around S.observed K.observed store out) result }
{
    let refinement = read_refinement(alloc, name, plan, store)?;
    let replayed = replay_own(alloc, &refinement.program, &refinement.log, runner)?;
    // A law: each group of a plan has ranks, rising, so that the parts' logs are in form.
    groups_rise(&refinement.plan);
    replies_fit(replayed.events.as_slice());
    let report = tell_replayed(alloc, prefix, &refinement, replayed, store, out)?;
    Ok(report)
}

/// Writes the parts where all is done, and tells it; else tells the replay by its trace.
fn tell_replayed<S: Store, K: Sink>(
    alloc: Global,
    prefix: &str,
    refinement: &Refinement,
    replayed: Replayed,
    store: &mut S,
    out: &mut K,
) -> Result<Report, AllocError>
    requires { IsRegroupable refinement.now.log replayed.events.events }
    ensures told { IsReportedBy (refine_outcome prefix.now refinement.now.log refinement.now.plan replayed) (around S.observed K.observed store out) result }
    ensures reads { (S.observed store.new).reads ≡ (S.observed store.old).reads }
{
    match of_stands(replayed.ends.as_slice()) {
        Status::Done => write_refined(alloc, prefix, refinement, replayed, store, out),
        status => {
            let replays = one_replay(alloc, replayed)?;
            tell_traces(alloc, status, replays, out)
        }
    }
}

/// Writes the parts and tells it.
fn write_refined<S: Store, K: Sink>(
    alloc: Global,
    prefix: &str,
    refinement: &Refinement,
    replayed: Replayed,
    store: &mut S,
    out: &mut K,
) -> Result<Report, AllocError>
    requires { IsRegroupable refinement.now.log replayed.events.events }
    ensures told { let log = refinement.now.log in let groups = refinement.now.plan in
        let files = part_files prefix.now log.group (refined log replayed.events.events) 0 groups in
        IsReportedBy (done_outcome files (refined_text log.group groups) (replayed ∷ [])) (around S.observed K.observed store out) result }
    ensures reads { (S.observed store.new).reads ≡ (S.observed store.old).reads }
{
    let text = refined_text(alloc, &refinement.log.group, &refinement.plan)?;
    let written = write_parts(alloc, prefix, 0, refinement, &replayed, store);
    let replays = one_replay(alloc, replayed)?;
    let done = text_of_replays(text, Status::Done, replays);
    finish(alloc, written, done, out)
}

/// Writes the log of each plan group from `k` on that lies in the log's group.
fn write_parts<S: Store>(
    alloc: Global,
    prefix: &str,
    k: u8,
    refinement: &Refinement,
    replayed: &Replayed,
    store: &mut S,
) -> Result<(), Unwritten>
    requires replay { IsRegroupable refinement.now.log replayed.now.events.events }
    requires k { k ≤ length refinement.now.plan }
    ensures ok { let log = refinement.now.log in
        OnOk result (AreWritten (S.observed store.old).files (S.observed store.new).files (part_files prefix.now log.group (refined log replayed.now.events.events) k (drop k refinement.now.plan)) []) }
    ensures stopped { let log = refinement.now.log in
        IfErr result (λ why. IsStopped (S.observed store.old) (S.observed store.new) (part_files prefix.now log.group (refined log replayed.now.events.events) k (drop k refinement.now.plan)) why) }
    ensures reads { (S.observed store.new).reads ≡ (S.observed store.old).reads }
    ensures later { (S.observed store.old).writes ≤ (S.observed store.new).writes }
{
    if k == refinement.plan.groups() {
        return Ok(());
    }
    write_part(alloc, prefix, k, refinement, replayed, store)?;
    write_parts(alloc, prefix, k + 1, refinement, replayed, store)
}

/// Writes the log of plan group `k` where it lies in the log's group.
fn write_part<S: Store>(
    alloc: Global,
    prefix: &str,
    k: u8,
    refinement: &Refinement,
    replayed: &Replayed,
    store: &mut S,
) -> Result<(), Unwritten>
    requires replay { IsRegroupable refinement.now.log replayed.now.events.events }
    requires k { k < length refinement.now.plan }
    ensures ok { let log = refinement.now.log in
        OnOk result (AreWritten (S.observed store.old).files (S.observed store.new).files (part_file prefix.now log.group (refined log replayed.now.events.events) k (slice_index_or refinement.now.plan k [])) []) }
    ensures stopped { let log = refinement.now.log in
        IfErr result (λ why. IsStopped (S.observed store.old) (S.observed store.new) (part_file prefix.now log.group (refined log replayed.now.events.events) k (slice_index_or refinement.now.plan k [])) why) }
    ensures reads { (S.observed store.new).reads ≡ (S.observed store.old).reads }
    ensures later { (S.observed store.old).writes ≤ (S.observed store.new).writes }
{
    let part = refinement.plan.ranks(k);
    if !are_within(refinement.log.group.as_slice(), part.as_slice()) {
        return Ok(());
    }
    let made = srr_regroup::refine(alloc, &refinement.log, replayed, part)?;
    write_log_file(alloc, prefix, k as u64, &made, store)
}
