//! Taking a machine back by an event, so that it stands where its ranks stand.
ghost use Rattle.std.specs.Prelude.{◌≡◌, ◌<◌, ◌≤◌, ◌+◌, [], List, None, OnOk, length, take};
ghost use Rattle.std.specs.List.{slice_index_or};
ghost use Rattle.group_plan.specs.Plans.{number_of_ranks};
ghost use Rattle.run_model.specs.declared.event.Event.{Event};
ghost use Rattle.run_model.specs.Due.{halted};
ghost use Rattle.picked_runs.specs.declared.turn.Pick.TheVariants.{First};
ghost use Rattle.picked_runs.specs.Picked.{IsPicked};
ghost use Rattle.explore.specs.Courses.{IsAhead, IsCourse};

use crate::course::{SearchCourse, Setting, answer};
use mpi_call::call;
use mpi_machine::machine::Machine;
use picked_runs::picks::Picks;
use picked_runs::turn::Pick;
use run_model::history::History;
use run_model::program::{Program, RankRun};
use std::alloc::AllocError;
use std::mem;

/// What the event at a position picked.
fn pick_at(picks: &Picks, at: u32) -> Pick
    ensures { result ≡ slice_index_or picks.now.written at First }
{
    match picks.as_slice().get(at as usize) {
        Some(pick) => *pick,
        None => Pick::First,
    }
}

/// Makes the event at a position of a run again, with what it picked.
fn make_event<P: Program>(
    machine: &mut Machine<'_, P>,
    history: &History,
    picks: &Picks,
    at: u32,
) -> Result<(), AllocError>
    requires picked { IsPicked (P.next machine.old.program) machine.old.ranks picks.now.written history.now.events }
    requires at { at < length history.now.events }
    requires free { halted (take (at + 1) history.now.events) ≡ None }
    requires before { machine.old.events ≡ take at history.now.events }
    ensures program { OnOk result (machine.new.program ≡ machine.old.program) }
    ensures ranks { OnOk result (machine.new.ranks ≡ machine.old.ranks) }
    ensures made { OnOk result (machine.new.events ≡ take (at + 1) history.now.events) }
{
    let event = history.get(at);
    let call = call::copy_of(&event.call)?;
    answer(machine, event.rank, call, pick_at(picks, at))?;
    Ok(())
}

/// Makes the first events of a run again, so many.
fn make_events<P: Program>(
    machine: &mut Machine<'_, P>,
    history: &History,
    picks: &Picks,
    count: u32,
) -> Result<(), AllocError>
    requires picked { IsPicked (P.next machine.old.program) machine.old.ranks picks.now.written history.now.events }
    requires count { count ≤ length history.now.events }
    requires free { halted (take count history.now.events) ≡ None }
    requires before { machine.old.events ≡ [] }
    ensures program { OnOk result (machine.new.program ≡ machine.old.program) }
    ensures ranks { OnOk result (machine.new.ranks ≡ machine.old.ranks) }
    ensures made { OnOk result (machine.new.events ≡ take count history.now.events) }
{
    for at in 0..count {
        make_event(machine, history, picks, at)?;
    }
    Ok(())
}

/// Takes the machine back by its last event, which the ranks have not seen.
pub fn take_back<'a, P: Program, R: RankRun<Of = P>, S>(
    setting: &Setting<'a, P, S>,
    course: &mut SearchCourse<'a, P, R>,
) -> Result<(), AllocError>
    requires planned { setting.now.ranks ≡ number_of_ranks setting.now.plan.now }
    requires ahead { (events : List Event) × (halted events ≡ None) × IsAhead R.standing setting.now.program.now setting.now.ranks events course.old.machine course.old.runs.items }
    ensures { OnOk result ((events : List Event) → IsAhead R.standing setting.now.program.now setting.now.ranks events course.old.machine course.old.runs.items → IsCourse R.standing setting.now.program.now setting.now.ranks events course.new.machine course.new.runs.items) }
{
    let anew = Machine::new(setting.alloc, setting.program, setting.plan.n())?;
    let ahead = mem::replace(&mut course.machine, anew);
    let (history, picks) = ahead.into_run();
    let count = history.len().saturating_sub(1);
    make_events(&mut course.machine, &history, &picks, count)
}
