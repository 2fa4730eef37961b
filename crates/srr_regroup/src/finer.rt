//! The log of a part of a group.
ghost use Rattle.std.specs.Prelude.{◌≡◌, ◌<◌, ℕ, [], IfErr, IfOk, OnOk, None, Some, length, false};
ghost use Rattle.std.specs.List.{list_any, slice_index_or};
ghost use Rattle.mpi_call.specs.Collectives.{is_member};
ghost use Rattle.srr_replay.specs.Rounds.{IsReplayable};
ghost use Rattle.srr_log.specs.Bounds.{IsInBounds};
ghost use Rattle.srr_regroup.specs.Refining.{CanRefine, IsLeastCrossing, IsRefineFault, crosses};
ghost use Rattle.srr_regroup.specs.Regrouping.{IsPartOf, IsReplayOfAProgram, are_within, refined};

use crate::refine_fault::RefineFault;
use group_plan::plan::Plan;
use log_bounds::ints32::replies_fit;
use mpi_call::lists::Ranks;
use mpi_call::members::is_member;
use replay_model::replayed::Replayed;
use run_model::by_rank::ByRank;
use srr_entry::log::Log;
use srr_entry::run_log::log_of;
use std::alloc::{AllocError, Global};

/// Whether a plan is for as many ranks as the log, and each of its groups lies in the log's group or outside it. Takes no memory.
pub fn can_refine(log: &Log, plan: &Plan) -> Result<(), RefineFault>
    ensures refines { OnOk result (CanRefine log.now plan.now) }
    ensures fault { IfErr result (IsRefineFault log.now plan.now) }
{
    let ranks = plan.n();
    if ranks != log.ranks {
        return Err(RefineFault::Ranks {
            plan: ranks,
            log: log.ranks,
        });
    }
    match least_crossing(log.group.as_slice(), plan) {
        Some(group) => Err(RefineFault::Crosses { group }),
        None => Ok(()),
    }
}

/// The log of a part of a log's group, from a replay of the log. If the log is of a run, then so is the part's
/// (`laws::refined_log_is_of_the_run`); if it has a text, then so has the part's.
pub fn refine(
    alloc: Global,
    log: &Log,
    replayed: &Replayed,
    part: &Ranks,
) -> Result<Log, AllocError>
    requires log { IsReplayable log.now }
    requires replay { IsReplayOfAProgram log.now replayed.now.events.events }
    requires part { IsPartOf log.now.group part.now }
    ensures log { IfOk result (λ made. made ≡ refined log.now replayed.now.events.events part.now) }
    ensures in_bounds { IsInBounds log.now → IfOk result (λ made. IsInBounds made) }
{
    replies_fit(replayed.events.as_slice());
    let by_rank = ByRank::new(alloc, &replayed.events)?;
    log_of(alloc, log.ranks, part, log.program.as_slice(), &by_rank)
}

/// Whether each of these ranks is in a group. Takes no memory.
pub fn are_within(group: &[u8], ranks: &[u8]) -> bool
    ensures { result ≡ are_within group.now ranks.now }
{
    ranks.iter().all(|rank| is_member(group, *rank))
}

/// The least group of a plan that has ranks inside and outside a group.
fn least_crossing(group: &[u8], plan: &Plan) -> Option<u8>
    ensures some { (number : ℕ) → result ≡ Some number → IsLeastCrossing group.now plan.now number }
    ensures none { result ≡ None → (number : ℕ) → number < length plan.now → crosses group.now (slice_index_or plan.now number []) ≡ false }
{
    for number in 0..plan.groups() {
        if crosses(group, plan.ranks(number).as_slice()) {
            return Some(number);
        }
    }
    None
}

/// Whether some of these ranks are in a group, and not all of them.
fn crosses(group: &[u8], ranks: &[u8]) -> bool
    ensures { result ≡ crosses group.now ranks.now }
{
    is_any_within(group, ranks) && !are_within(group, ranks)
}

fn is_any_within(group: &[u8], ranks: &[u8]) -> bool
    ensures { result ≡ list_any (λ rank. is_member group.now rank) ranks.now }
{
    ranks.iter().any(|rank| is_member(group, *rank))
}
