//! The changes of a variable of a rank.
ghost use Rattle.std.specs.Prelude.{◌≡◌, ◌++◌, [], IfOk, OnOk, Some, map, true};
ghost use Rattle.replay_views.specs.Watching.{change_between, changes_of, same_values, values_after};
ghost use Rattle.run_model.specs.Program.{IsViewOf};

use crate::changes::{Change, Changes};
use mpi_call::lists::Ints;
use rank_watch::WatchedRun;
use run_model::event::Event;
use run_model::program::{Program, Want};
use std::alloc::{AllocError, Global};

/// The changes of the innermost variable of a name, of a rank that has seen these events: `run` is that rank before its first
/// call. Runs the rank once, and looks at this variable alone.
pub fn changes_of<P: Program, R: WatchedRun<Of = P>>(
    alloc: Global,
    run: &mut R,
    own: &[&Event],
    name: &[u8],
) -> Result<Changes, AllocError>
    requires fresh { (R.standing run.old).replies ≡ [] }
    requires came { IsViewOf (P.next (R.standing run.old).program) (R.standing run.old).ranks (R.standing run.old).rank (map (λ event. (event.now.call, event.now.reply)) own.now) }
    ensures { let values = values_after (P.next (R.standing run.old).program) (P.variables (R.standing run.old).program) (R.standing run.old).ranks (R.standing run.old).rank name.now in
        IfOk result (λ changes. changes ≡ changes_of values (map (λ event. (event.now.call, event.now.reply)) own.now)) }
{
    let mut changes = Changes::new(alloc);
    let mut last = None;
    let mut number = 0;
    let mut rest = own;
    while let [event, after @ ..] = rest {
        look(run, name, number, &mut last, &mut changes)?;
        run.give(&event.reply)?;
        number += 1;
        rest = after;
    }
    look(run, name, number, &mut last, &mut changes)?;
    Ok(changes)
}

/// Looks at a variable before the next call of a rank, and notes whether it has changed.
fn look<P: Program, R: WatchedRun<Of = P>>(
    run: &mut R,
    name: &[u8],
    number: usize,
    last: &mut Option<Ints>,
    changes: &mut Changes,
) -> Result<(), AllocError>
    ensures run { OnOk result (R.standing run.new ≡ record (R.standing run.old) { asked = true }) }
    ensures last { OnOk result (last.new ≡ values_after (P.next (R.standing run.old).program) (P.variables (R.standing run.old).program) (R.standing run.old).ranks (R.standing run.old).rank name.now (R.standing run.old).replies) }
    ensures changes { OnOk result (changes.new ≡ changes.old ++ change_between number last.old (values_after (P.next (R.standing run.old).program) (P.variables (R.standing run.old).program) (R.standing run.old).ranks (R.standing run.old).rank name.now (R.standing run.old).replies)) }
{
    let values = values_now(run, name)?;
    note(number, last, values, changes)
}

/// The values of a variable before the next call of a rank.
fn values_now<P: Program, R: WatchedRun<Of = P>>(
    run: &mut R,
    name: &[u8],
) -> Result<Option<Ints>, AllocError>
    ensures run { OnOk result (R.standing run.new ≡ record (R.standing run.old) { asked = true }) }
    ensures values { IfOk result (λ values. values ≡ values_after (P.next (R.standing run.old).program) (P.variables (R.standing run.old).program) (R.standing run.old).ranks (R.standing run.old).rank name.now (R.standing run.old).replies) }
{
    match run.want()? {
        Want::Ended => Ok(None),
        Want::Ask(_) => run.variable(name),
    }
}

/// Adds a change, if the values are not the last ones; they are the last ones then.
fn note(
    number: usize,
    last: &mut Option<Ints>,
    values: Option<Ints>,
    changes: &mut Changes,
) -> Result<(), AllocError>
    ensures last { OnOk result (last.new ≡ values) }
    ensures changes { OnOk result (changes.new ≡ changes.old ++ change_between number last.old values) }
{
    if have_same_values(last, &values) {
        return Ok(());
    }
    let new = copy_of(&values)?;
    let old = last.take();
    *last = values;
    changes.push(Change { number, old, new })?;
    Ok(())
}

/// Whether there are the same values, or none both times.
fn have_same_values(one: &Option<Ints>, other: &Option<Ints>) -> bool
    ensures { result ≡ same_values one.now other.now }
{
    match one {
        None => matches!(other, None),
        Some(values) => are_values(values.as_slice(), other),
    }
}

fn are_values(values: &[i32], other: &Option<Ints>) -> bool
    ensures { result ≡ same_values (Some values.now) other.now }
{
    match other {
        None => false,
        Some(others) => values == others.as_slice(),
    }
}

fn copy_of(values: &Option<Ints>) -> Result<Option<Ints>, AllocError>
    ensures { IfOk result (λ copy. copy ≡ values.now) }
{
    match values {
        None => Ok(None),
        Some(values) => Ok(Some(values.clone()?)),
    }
}
