//! Whether an advice is right.
ghost use Rattle.std.specs.Prelude.{◌≡◌, ◌≤◌, ◌<◌, ◌↔◌, IfOk, MatchBool, MatchOption, length, true};
ghost use Rattle.plan_advice.specs.Advices.{IsCertified};
ghost use Rattle.plan_advice.specs.Costs.{IsRunOfAProgram, block_cost};
ghost use Rattle.plan_advice.specs.Cuttings.{IsBlock, IsCertificate, IsCutting, cutting_cost};
ghost use Rattle.plan_advice.specs.inside.Ways.{IsBound};

use crate::advice::Advice;
use crate::costs::Costs;
use run_model::history::History;
use std::alloc::{AllocError, Global};

/// Whether the bounds of an advice are a certificate for the blocks of a run, and its ends a cutting that costs the last bound.
pub fn holds(
    alloc: Global,
    n: u8,
    history: &History,
    most: u8,
    advice: &Advice,
) -> Result<bool, AllocError>
    requires run { IsRunOfAProgram n history.now.events }
    requires some { 0 < most }
    requires few { most ≤ n }
    ensures { IfOk result (λ holds. (holds ≡ true) ↔ IsCertified n history.now.events most advice.now) }
{
    let costs = Costs::new(alloc, n, history)?;
    let bounds = advice.bounds.as_slice();
    if !are_bounds(&costs, bounds, n, most) {
        return Ok(false);
    }
    match cost_of(&costs, advice.ends.as_slice(), n, most) {
        Some(cost) => Ok(advice.cost == cost && cost == bounds[n as usize]),
        None => Ok(false),
    }
}

/// Whether these are a certificate.
fn are_bounds(costs: &Costs<'_>, bounds: &[u64], n: u8, most: u8) -> bool
    requires { n ≡ costs.now.ranks }
    ensures { MatchBool result
        (IsCertificate (block_cost costs.now.ranks costs.now.events) n most bounds.now)
        (¬ (IsCertificate (block_cost costs.now.ranks costs.now.events) n most bounds.now)) }
{
    if bounds.len() != n as usize + 1 {
        return false;
    }
    if bounds[0] != 0 {
        return false;
    }
    for before in 0..n {
        if !is_bound(costs, bounds, most, before + 1) {
            return false;
        }
    }
    true
}

/// Whether no block leads to less than the bound of `end`, and one leads to it.
fn is_bound(costs: &Costs<'_>, bounds: &[u64], most: u8, end: u8) -> bool
    requires within { end ≤ costs.now.ranks }
    requires many { end < length bounds.now }
    ensures { MatchBool result
        (IsBound (block_cost costs.now.ranks costs.now.events) most bounds.now end)
        (¬ (IsBound (block_cost costs.now.ranks costs.now.events) most bounds.now end)) }
{
    let bound = bounds[end as usize] as u128;
    let mut reached = false;
    for begin in end.saturating_sub(most)..end {
        let cost = bounds[begin as usize] as u128 + costs.block(begin, end) as u128;
        if cost < bound {
            return false;
        }
        reached = reached || cost == bound;
    }
    reached
}

/// Whether a block from `begin` to `end` has 1 to `most` ranks.
fn is_block(most: u8, begin: u8, end: u8) -> bool
    ensures { MatchBool result (IsBlock most begin end) (¬ (IsBlock most begin end)) }
{
    begin < end && end - begin <= most
}

/// What a cutting costs, if the ends are one.
fn cost_of(costs: &Costs<'_>, ends: &[u8], n: u8, most: u8) -> Option<u64>
    requires { n ≡ costs.now.ranks }
    ensures { MatchOption result
        (¬ (IsCutting n most ends.now))
        (λ cost. IsCutting n most ends.now × (cost ≡ cutting_cost (block_cost costs.now.ranks costs.now.events) ends.now)) }
{
    let mut total = 0;
    let mut begin = 0;
    let mut rest = ends;
    while let [end, after @ ..] = rest {
        if *end > n || !is_block(most, begin, *end) {
            return None;
        }
        total += costs.block(begin, *end);
        begin = *end;
        rest = after;
    }
    if begin != n {
        return None;
    }
    Some(total)
}
