//! Whether the bounds of an advice hold.
ghost use Rattle.plan_advice.specs.Costs.{IsRunOfAProgram};

use mpi_call::lists::Ranks;
use plan_advice::{Advice, Bounds, holds};
use run_model::history::History;
use std::alloc::{AllocError, Global};
use std::rt::HostRuntime;
use std::test::Fail;

/// A history without events.
fn nothing(alloc: Global) -> History
    ensures { IsRunOfAProgram 2 result.events }
{
    History::new(alloc)
}

/// A block for each of two ranks, with this bound for both.
fn apart(alloc: Global, cost: u64, last: u64) -> Result<Advice, AllocError> {
    let mut bounds = Bounds::new(alloc);
    bounds.push(0)?;
    bounds.push(0)?;
    bounds.push(last)?;
    Ok(Advice {
        ends: Ranks::from_slice(alloc, &[1, 2])?,
        cost,
        bounds,
    })
}

#[test]
fn a_raised_bound_does_not_hold(rt: HostRuntime) -> Result<(), Fail> {
    let alloc = rt.alloc();
    let history = nothing(alloc);
    assert!(rt; holds(alloc, 2, &history, 1, &apart(alloc, 0, 0)?)?);
    assert!(rt; !holds(alloc, 2, &history, 1, &apart(alloc, 0, 1)?)?);
    assert!(rt; !holds(alloc, 2, &history, 1, &apart(alloc, 1, 1)?)?);
    Ok(())
}
