//! The advice on a run.
ghost use Rattle.std.specs.Prelude.{◌≤◌, ◌<◌, IfOk};
ghost use Rattle.plan_advice.specs.Advices.{IsAdvice};
ghost use Rattle.plan_advice.specs.Costs.{IsRunOfAProgram};

use crate::advice::Advice;
use crate::costs::Costs;
use crate::ways::{Ways, find_ways, push_ends};
use mpi_call::lists::Ranks;
use run_model::history::History;
use std::alloc::{AllocError, Global};

/// Of all cuttings of a run's n ranks into blocks of 1 to `most` neighbouring ranks one whose logs keep the fewest ints, with
/// a certificate: from the last block to the first, each block has as many ranks as it can.
pub fn advise(alloc: Global, n: u8, history: &History, most: u8) -> Result<Advice, AllocError>
    requires run { IsRunOfAProgram n history.now.events }
    requires some { 0 < most }
    requires few { most ≤ n }
    ensures { IfOk result (λ advice. IsAdvice n history.now.events most advice) }
{
    let costs = Costs::new(alloc, n, history)?;
    let Ways { begins, bounds } = find_ways(alloc, &costs, n, most)?;
    let mut ends = Ranks::new(alloc);
    push_ends(&mut ends, begins.as_slice(), n)?;
    let cost = bounds.as_slice()[n as usize];
    Ok(Advice { ends, cost, bounds })
}
