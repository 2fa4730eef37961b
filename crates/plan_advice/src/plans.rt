//! What a plan costs.
ghost use Rattle.std.specs.Prelude.{◌≡◌, ◌≤◌, ◌<◌, ◌^◌, All, IfOk, sum_by};
ghost use Rattle.group_plan.specs.Plans.{IsRisingGroup, number_of_ranks};
ghost use Rattle.plan_advice.specs.Costs.{IsRunOfAProgram, group_cost, ints_of_entry, ints_in_log, ints_in_mark, plan_cost};

use group_plan::Plan;
use mpi_call::lists::Ranks;
use run_model::by_rank::ByRank;
use run_model::history::History;
use srr_entry::entry::{Entry, Mark, Marked};
use srr_entry::log::Log;
use srr_entry::run_log::log_of;
use std::alloc::{AllocError, Global};

/// The ints that the logs of a plan's groups keep together.
pub fn plan_cost(alloc: Global, history: &History, plan: &Plan) -> Result<u64, AllocError>
    requires run { IsRunOfAProgram (number_of_ranks plan.now) history.now.events }
    ensures { IfOk result (λ cost. cost ≡ plan_cost (number_of_ranks plan.now) history.now.events plan.now) }
{
    let n = plan.n();
    let groups = plan.groups();
    let by_rank = ByRank::new(alloc, history)?;
    let mut total = 0;
    for group in 0..groups {
        total += group_cost(alloc, n, plan.ranks(group), &by_rank)?;
    }
    Ok(total)
}

/// The ints that the log of a group keeps.
fn group_cost(alloc: Global, n: u8, group: &Ranks, by_rank: &ByRank<'_>) -> Result<u64, AllocError>
    requires run { IsRunOfAProgram n by_rank.now }
    requires group { IsRisingGroup group.now }
    requires below { All (λ rank. rank < n) group.now }
    ensures cost { IfOk result (λ cost. cost ≡ group_cost n by_rank.now group.now) }
    ensures few { IfOk result (λ cost. cost ≤ 2 ^ 38) }
{
    let log = log_of(alloc, n, group, &[], by_rank)?;
    Ok(ints_in_log(&log))
}

fn ints_in_log(log: &Log) -> u64
    requires { ints_in_log log.now < 2 ^ 64 }
    ensures { result ≡ ints_in_log log.now }
{
    let mut total = 0;
    for entries in log.lists.as_slice() {
        total += ints_in_entries(entries.as_slice());
    }
    total
}

fn ints_in_entries(entries: &[Entry]) -> u64
    requires { sum_by ints_of_entry entries.now < 2 ^ 64 }
    ensures { result ≡ sum_by ints_of_entry entries.now }
{
    let mut total = 0;
    for entry in entries {
        total += ints_in(entry);
    }
    total
}

fn ints_in(entry: &Entry) -> u64
    requires { ints_of_entry entry.now < 2 ^ 64 }
    ensures { result ≡ ints_of_entry entry.now }
{
    match entry {
        Entry::Took(items) => ints_in_items(items.as_slice()),
        _ => 0,
    }
}

fn ints_in_items(items: &[Marked]) -> u64
    requires { sum_by (λ item. ints_in_mark item.mark) items.now < 2 ^ 64 }
    ensures { result ≡ sum_by (λ item. ints_in_mark item.mark) items.now }
{
    let mut total = 0;
    for item in items {
        total += ints_in_mark(&item.mark);
    }
    total
}

fn ints_in_mark(mark: &Mark) -> u64
    ensures { result ≡ ints_in_mark mark.now }
{
    match mark {
        Mark::Outside { ints, .. } | Mark::Outer { ints } => ints.as_slice().len() as u64,
        _ => 0,
    }
}
