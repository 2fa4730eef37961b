//! The log of two groups together.
ghost use Rattle.std.specs.Prelude.{◌≡◌, ◌++◌, ◌||◌, [], ℕ, IfErr, IfOk, None, OnOk, Some, false, true};
ghost use Rattle.mpi_call.specs.Collectives.{is_member};
ghost use Rattle.run_model.specs.Views.{view_of};
ghost use Rattle.srr_entry.specs.Entries.{entries_from};
ghost use Rattle.srr_log.specs.Bounds.{IsInBounds};
ghost use Rattle.srr_regroup.specs.Joining.{CanJoin, IsJoinFault, IsLeastShared, lesser_shared};
ghost use Rattle.srr_regroup.specs.Regrouping.{CanBeJoined, both_groups, joined_log};

use crate::join_fault::JoinFault;
use log_bounds::ints32::replies_fit;
use mpi_call::lists::Ranks;
use mpi_call::members::is_member;
use replay_model::replayed::Replayed;
use run_model::by_rank::ByRank;
use srr_entry::log::{Entries, Lists, Log};
use srr_entry::run_log::entries_of;
use std::alloc::{AllocError, Global};
use wiz_base::bytes::Bytes;

/// Whether these logs are of one program, on one number of ranks, and of groups without a common rank. Takes no memory.
pub fn can_join(one: &Log, two: &Log) -> Result<(), JoinFault>
    ensures joins { OnOk result (CanJoin one.now two.now) }
    ensures fault { IfErr result (IsJoinFault one.now two.now) }
{
    if one.ranks != two.ranks {
        return Err(JoinFault::Ranks {
            one: one.ranks,
            two: two.ranks,
        });
    }
    if one.program != two.program {
        return Err(JoinFault::Programs);
    }
    match least_shared(one.group.as_slice(), two.group.as_slice()) {
        Some(rank) => Err(JoinFault::Shared { rank }),
        None => Ok(()),
    }
}

/// The log of both groups together, from a replay of each log. If the logs are of one run, then so is the new one
/// (`laws::joined_log_is_of_the_run`); if both have a text, then so has it.
pub fn join(
    alloc: Global,
    one: &Log,
    first: &Replayed,
    two: &Log,
    second: &Replayed,
) -> Result<Log, AllocError>
    requires { CanBeJoined one.now first.now.events.events two.now second.now.events.events }
    ensures log { IfOk result (λ made. made ≡ joined_log one.now first.now.events.events two.now second.now.events.events) }
    ensures in_bounds { IsInBounds one.now → IsInBounds two.now → IfOk result (λ made. IsInBounds made) }
{
    replies_fit(first.events.as_slice());
    replies_fit(second.events.as_slice());
    let by_first = ByRank::new(alloc, &first.events)?;
    let by_second = ByRank::new(alloc, &second.events)?;
    let group = both_groups(alloc, one, two)?;
    let mut lists = Lists::new(alloc);
    let mut rest = group.as_slice();
    while let [rank, after @ ..] = rest {
        let entries = entries_in_both(alloc, &group, one, &by_first, two, &by_second, *rank)?;
        lists.push(entries)?;
        rest = after;
    }
    let program = Bytes::from_slice(alloc, one.program.as_slice())?;
    Ok(Log {
        ranks: one.ranks,
        group,
        program,
        lists,
    })
}

/// The ranks of both groups, rising.
fn both_groups(alloc: Global, one: &Log, two: &Log) -> Result<Ranks, AllocError>
    ensures { IfOk result (λ group. group ≡ both_groups one.now two.now) }
{
    let mut group = Ranks::new(alloc);
    for rank in 0..one.ranks {
        if is_in_either(one, two, rank) {
            group.push(rank)?;
        }
    }
    Ok(group)
}

/// Whether a rank is in one of the groups.
fn is_in_either(one: &Log, two: &Log, rank: u8) -> bool
    ensures { result ≡ (is_member one.now.group rank || is_member two.now.group rank) }
{
    is_member(one.group.as_slice(), rank) || is_member(two.group.as_slice(), rank)
}

/// The entries of a rank of one of the groups, for both together.
fn entries_in_both(
    alloc: Global,
    group: &Ranks,
    one: &Log,
    first: &ByRank<'_>,
    two: &Log,
    second: &ByRank<'_>,
    rank: u8,
) -> Result<Entries, AllocError>
    requires logs { CanBeJoined one.now first.now two.now second.now }
    requires rank { (is_member one.now.group rank || is_member two.now.group rank) ≡ true }
    ensures { IfOk result (λ entries. entries
        ≡ entries_from one.now.ranks group.now rank [] (view_of (first.now ++ second.now) rank)) }
{
    if is_member(one.group.as_slice(), rank) {
        return entries_of(alloc, one.ranks, group, rank, first);
    }
    entries_of(alloc, two.ranks, group, rank, second)
}

/// The least rank of both groups.
fn least_shared(one: &[u8], two: &[u8]) -> Option<u8>
    ensures some { (rank : ℕ) → result ≡ Some rank → IsLeastShared one.now two.now rank }
    ensures none { result ≡ None → (rank : ℕ) → is_member one.now rank ≡ true → is_member two.now rank ≡ false }
{
    let mut least = None;
    let mut rest = one;
    while let [rank, after @ ..] = rest {
        least = lesser_shared(two, least, *rank);
        rest = after;
    }
    least
}

/// The lesser of the least so far, if there is one, and another rank, if it is in the group.
fn lesser_shared(group: &[u8], least: Option<u8>, rank: u8) -> Option<u8>
    ensures { result ≡ lesser_shared group.now least rank }
{
    if !is_member(group, rank) {
        return least;
    }
    match least {
        Some(least) => Some(least.min(rank)),
        None => Some(rank),
    }
}
