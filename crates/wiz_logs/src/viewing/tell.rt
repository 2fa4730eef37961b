//! The text of what is asked of a replay.
ghost use Rattle.std.specs.Prelude.{◌≡◌, ◌≤◌, ◌++◌, [], IfOk, OnOk, map, true};
ghost use Rattle.mpi_call.specs.declared.limits.TheConstants.{MOST_RANKS};
ghost use Rattle.c_program.specs.View.{pure_program};
ghost use Rattle.c_program.specs.Program.{next_of, variables_of};
ghost use Rattle.replay_views.specs.Snapshots.{snapshots_of};
ghost use Rattle.run_model.specs.Lists.{are_below};
ghost use Rattle.run_model.specs.Program.{IsViewOf};
ghost use Rattle.srr_replay.specs.Rounds.{IsReplayable};
ghost use Rattle.wiz_logs.specs.Views.{changes_in, reported_text, view_with_texts};
ghost use Rattle.wiz_logs.specs.inside.Viewing.{HaveCome};

use crate::viewing::ask::ReplayView;
use c_program::CProgram;
use mpi_call::members::is_member;
use replay_model::replayed::{Replayed, Stand};
use replay_views::changes::Changes;
use replay_views::places::places_of;
use replay_views::snapshot::{Snapshots, snapshot_of};
use replay_views::watch::changes_of;
use run_model::by_rank::ByRank;
use run_model::event::Event;
use srr_entry::log::Log;
use std::alloc::{AllocError, Global};
use wiz_base::Bytes;
use wiz_task::ranks::RunningRank;
use wiz_trace::at::at_text;
use wiz_trace::places::where_text;
use wiz_trace::watch::watch_text;

/// The text of what is asked of a replay of a log. Runs the ranks of which variables are told once more, each alone.
pub fn told_text(
    alloc: Global,
    program: &CProgram,
    log: &Log,
    view: &ReplayView<&str>,
    replayed: &Replayed,
) -> Result<Bytes, AllocError>
    requires log { IsReplayable log.now }
    requires came { HaveCome (next_of (pure_program program.now)) log.now.ranks replayed.now.events.events }
    ensures { IfOk result (λ text. text ≡ reported_text (pure_program program.now) log.now (view_with_texts view.now) replayed.now.events.events replayed.now.ends) }
{
    let by_rank = ByRank::new(alloc, &replayed.events)?;
    let group = log.group.as_slice();
    match view {
        ReplayView::Changes { rank, name } => {
            let own = by_rank.get(*rank);
            let changes = changes_in(alloc, program, log, *rank, name.as_bytes(), own)?;
            watch_text(alloc, *rank, name.as_bytes(), &changes)
        }
        ReplayView::Snapshots => {
            let ends = replayed.ends.as_slice();
            let snapshots = snapshots(alloc, program, log, &by_rank, ends)?;
            at_text(alloc, &snapshots)
        }
        ReplayView::Places(name) => {
            let places = places_of(alloc, *name, &by_rank, group)?;
            where_text(alloc, *name, group, &places)
        }
    }
}

/// The changes of a variable of a rank that has seen these events. A rank outside the group has none.
fn changes_in(
    alloc: Global,
    program: &CProgram,
    log: &Log,
    rank: u8,
    name: &[u8],
    own: &[&Event],
) -> Result<Changes, AllocError>
    requires log { IsReplayable log.now }
    requires came { IsViewOf (next_of (pure_program program.now)) log.now.ranks rank (map (λ event. (event.now.call, event.now.reply)) own.now) }
    ensures { IfOk result (λ changes. changes ≡ changes_in (pure_program program.now) log.now rank name.now (map (λ event. (event.now.call, event.now.reply)) own.now)) }
{
    if !is_member(log.group.as_slice(), rank) {
        return Ok(Changes::new(alloc));
    }
    let mut run = RunningRank::start(alloc, program, log.ranks, rank)?;
    changes_of(alloc, &mut run, own, name)
}

/// Where each rank of the group stands.
fn snapshots(
    alloc: Global,
    program: &CProgram,
    log: &Log,
    by_rank: &ByRank<'_>,
    ends: &[Stand],
) -> Result<Snapshots, AllocError>
    requires log { IsReplayable log.now }
    requires came { HaveCome (next_of (pure_program program.now)) log.now.ranks by_rank.now }
    ensures { IfOk result (λ snapshots. snapshots ≡ snapshots_of (next_of (pure_program program.now)) (variables_of (pure_program program.now)) log.now.ranks by_rank.now log.now.group ends.now) }
{
    let mut snapshots = Snapshots::new(alloc);
    let group = log.group.as_slice();
    add_snapshots(
        alloc,
        program,
        log.ranks,
        by_rank,
        group,
        ends,
        &mut snapshots,
    )?;
    Ok(snapshots)
}

/// The same, of some ranks, at most 64.
fn add_snapshots(
    alloc: Global,
    program: &CProgram,
    n: u8,
    by_rank: &ByRank<'_>,
    group: &[u8],
    ends: &[Stand],
    snapshots: &mut Snapshots,
) -> Result<(), AllocError>
    requires few { n ≤ MOST_RANKS }
    requires below { are_below n group.now ≡ true }
    requires came { HaveCome (next_of (pure_program program.now)) n by_rank.now }
    ensures { OnOk result (snapshots.new ≡ snapshots.old ++ snapshots_of (next_of (pure_program program.now)) (variables_of (pure_program program.now)) n by_rank.now group.now ends.now) }
{
    match group {
        [] => Ok(()),
        [rank, group @ ..] => match ends {
            [] => Ok(()),
            [stand, ends @ ..] => {
                let mut run = RunningRank::start(alloc, program, n, *rank)?;
                let own = by_rank.get(*rank);
                snapshots.push(snapshot_of(alloc, &mut run, *rank, own, stand)?)?;
                add_snapshots(alloc, program, n, by_rank, group, ends, snapshots)
            }
        },
    }
}
