//! The cheapest ways to cut the first ranks into blocks.
ghost use Rattle.std.specs.Prelude.{◌≡◌, ◌≤◌, ◌<◌, ◌*◌, ◌^◌, [], IfOk, OnOk, if◌then◌else◌, length, nat_lt};
ghost use Rattle.plan_advice.specs.Costs.{block_cost};
ghost use Rattle.plan_advice.specs.inside.Ways.{AreFalling, AreLed, AreSmallCosts, AreWays, IsCheapest, cost_by};

use crate::advice::Bounds;
use crate::costs::Costs;
use mpi_call::lists::Ranks;
use std::alloc::{AllocError, Global};

/// The beginning of a last block, and what the cheapest cutting that ends with this block costs.
#[derive(Clone, Copy)]
pub struct LastBlock {
    pub begin: u8,
    pub cost: u64,
}

/// For each number of first ranks the least beginning of a last block of a cheapest cutting, and what this cutting costs.
#[derive(Drop)]
pub struct Ways {
    pub begins: Ranks,
    pub bounds: Bounds,
}

/// The way to `end` by a block from `begin`.
fn way_by(costs: &Costs<'_>, bounds: &[u64], begin: u8, end: u8) -> LastBlock
    requires some { begin < end }
    requires within { end ≤ costs.now.ranks }
    requires many { length bounds.now ≡ end }
    requires small { AreSmallCosts bounds.now }
    ensures begin { result.begin ≡ begin }
    ensures cost { result.cost ≡ cost_by (block_cost costs.now.ranks costs.now.events) bounds.now begin end }
    ensures small { result.cost ≤ end * 2 ^ 32 }
{
    LastBlock {
        begin,
        cost: bounds[begin as usize] + costs.block(begin, end),
    }
}

/// The cheaper of two ways, the first if they cost the same.
fn cheaper(one: LastBlock, other: LastBlock) -> LastBlock
    ensures { result ≡ (if nat_lt other.cost one.cost then other else one) }
{
    if other.cost < one.cost { other } else { one }
}

/// The first of the cheapest ways to `end`.
fn cheapest(costs: &Costs<'_>, bounds: &[u64], most: u8, end: u8) -> LastBlock
    requires some { 0 < most }
    requires end { 0 < end }
    requires within { end ≤ costs.now.ranks }
    requires many { length bounds.now ≡ end }
    requires small { AreSmallCosts bounds.now }
    ensures way { IsCheapest (block_cost costs.now.ranks costs.now.events) most bounds.now end end result }
    ensures small { result.cost ≤ end * 2 ^ 32 }
{
    let first = end.saturating_sub(most);
    let mut best = way_by(costs, bounds, first, end);
    for begin in first + 1..end {
        let way = way_by(costs, bounds, begin, end);
        best = cheaper(best, way);
    }
    best
}

/// The cheapest ways to all ends up to n.
pub fn find_ways(alloc: Global, costs: &Costs<'_>, n: u8, most: u8) -> Result<Ways, AllocError>
    requires some { 0 < most }
    requires ranks { n ≡ costs.now.ranks }
    ensures { IfOk result (λ ways. AreWays (block_cost costs.now.ranks costs.now.events) most n ways) }
{
    let mut begins = Ranks::new(alloc);
    let mut bounds = Bounds::new(alloc);
    begins.push(0)?;
    bounds.push(0)?;
    for before in 0..n {
        let way = cheapest(costs, bounds.as_slice(), most, before + 1);
        begins.push(way.begin)?;
        bounds.push(way.cost)?;
    }
    Ok(Ways { begins, bounds })
}

/// Adds the ends of the blocks up to `end`, by the beginnings of the last blocks. The depth is at most the number of ranks.
pub fn push_ends(ends: &mut Ranks, begins: &[u8], end: u8) -> Result<(), AllocError>
    requires empty { ends.old ≡ [] }
    requires falling { AreFalling begins.now end }
    ensures { OnOk result (AreLed begins.now end ends.new) }
{
    if end == 0 {
        return Ok(());
    }
    push_ends(ends, begins, begins[end as usize])?;
    ends.push(end)?;
    Ok(())
}
