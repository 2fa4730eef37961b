//! Advice on a run in which nothing was done yet.
ghost use Rattle.std.specs.Prelude.{◌<◌, ◌≤◌, ℕ};
ghost use Rattle.plan_advice.specs.Costs.{IsRunOfAProgram};

use crate::{advise, every_cutting_costs, holds, one_advice, plan_cost};
use group_plan::read_plan;
use run_model::history::History;
use std::alloc::Global;
use std::process::Abort;
use std::rt::HostRuntime;
use std::test::Fail;

/// A history without events.
fn nothing(alloc: Global) -> History
    ensures { (n : ℕ) → 0 < n → n ≤ 64 → IsRunOfAProgram n result.events }
{
    History::new(alloc)
}

#[test]
fn ranks_that_did_nothing_cost_nothing(rt: HostRuntime) -> Result<(), Fail> {
    every_cutting_costs();
    one_advice();
    let history = nothing(rt.alloc());
    let alone = advise(rt.alloc(), 2, &history, 1)?;
    assert!(&rt; alone.ends.as_slice() == [1, 2].as_slice());
    assert!(&rt; alone.cost == 0);
    assert!(&rt; alone.bounds.as_slice() == [0, 0, 0].as_slice());
    assert!(&rt; holds(rt.alloc(), 2, &history, 1, &alone)?);
    let together = advise(rt.alloc(), 2, &history, 2)?;
    assert!(&rt; together.ends.as_slice() == [2].as_slice());
    assert!(&rt; holds(rt.alloc(), 2, &history, 2, &together)?);
    assert!(&rt; !holds(rt.alloc(), 2, &history, 1, &together)?);
    Ok(())
}

#[test]
fn a_plan_for_ranks_that_did_nothing_costs_nothing(rt: HostRuntime) -> Result<(), Fail> {
    let history = nothing(rt.alloc());
    let plan = read_plan(rt.alloc(), b"0\n1\n").expect(&rt, "a plan");
    assert!(&rt; plan.n() == 2);
    assert!(&rt; plan_cost(rt.alloc(), &history, &plan)? == 0);
    Ok(())
}
