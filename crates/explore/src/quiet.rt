//! Looking at states where quiet calls go first.
ghost use Rattle.std.specs.Prelude.{◌≡◌, ◌<◌, ◌++◌, ◌∷◌, [], IfOk, MatchBool, None, OnOk, Some, false, slice_get, true, ℕ};
ghost use Rattle.mpi_machine.specs.Courses.{capped};
ghost use Rattle.run_model.specs.Due.{total_size};
ghost use Rattle.group_plan.specs.Plans.{number_of_ranks};
ghost use Rattle.run_model.specs.declared.event.Event.{Event};
ghost use Rattle.picked_runs.specs.declared.turn.Turn.{Turn};
ghost use Rattle.quiet_calls.specs.Closure.{IsFarBelow};
ghost use Rattle.explore.specs.Courses.{IsCourse, IsQuietlyAnswered, IsSetting};
ghost use Rattle.picked_runs.specs.declared.turn.Pick.TheVariants.{First};
ghost use Rattle.picked_runs.specs.declared.turn.Turn.{Turn};
ghost use Rattle.explore.specs.declared.quiet.Look.TheVariants.{Followed};
ghost use Rattle.run_model.specs.Program.{IsAfter};
ghost use Rattle.explore.specs.Explored.{events_of_turns};
ghost use Rattle.explore.specs.inside.RaceFlags.{races_of};
ghost use Rattle.explore.specs.QuietFirst.{ArePassed, AreReckonedBelow, HasLookedAtQuietly, HasMetQuietly, IsLastAnswered, IsReckonedWith, has_mismatch, is_hindered, is_mismatched_ending};
ghost use Rattle.explore.specs.Searching.{IsState, IsUnderWay, WentOn, question_of};

use crate::ahead::{PassedStates, note_passed};
use crate::course::{SearchCourse, SearchLimits, Setting, after_turns, make_anew};
use crate::found::FoundOutcome;
use crate::met::Met;
use crate::probes::keeps_probe;
use crate::races::{Race, Races};
use crate::ranks::StartRanks;
use crate::tries;
use crate::tries::{call_of, copy_of, note};
use mpi_call::call::Halt;
use mpi_call::limits::{MOST_EVENTS, MOST_SIZE};
use mpi_call::reply::Reply;
use mpi_machine::answer::Answer;
use mpi_machine::machine::Machine;
use mpi_machine::size::size_of;
use picked_runs::turn::{Pick, Turn, Turns};
use run_model::ending::Ending;
use run_model::event::Event;
use run_model::program::{Program, RankRun, Want};
use std::alloc::AllocError;

/// Why a search that follows quiet calls first cannot go on.
#[derive(Clone, Copy)]
pub enum Hindrance {
    /// A rank makes a racy call that is not reckoned with.
    Racy(Race),
    /// An Enter disagrees with another one.
    Mismatched,
    /// More states than were asked for, or one that is not far below the bound of runs.
    Large,
}

/// What came of looking at a state.
#[derive(Clone, Copy)]
pub enum Look {
    /// It was not looked at.
    Hindered(Hindrance),
    /// All its turns were tried.
    Opened,
    /// A quiet call was followed, by this turn.
    Followed(Turn),
}

/// The size of events, at most the greatest number that there is.
fn total_size(events: &[Event]) -> u64
    ensures { result ≡ capped (total_size events.now) }
{
    let mut size: u64 = 0;
    let mut rest = events;
    while let [event, after @ ..] = rest {
        size = size.saturating_add(size_of(event));
        rest = after;
    }
    size
}

/// Whether events are less than half of what a run can have, in number and in size.
fn is_far_below(events: &[Event]) -> bool
    ensures { MatchBool result (IsFarBelow events.now) (IsFarBelow events.now → ⊥) }
{
    events.len() < MOST_EVENTS as usize / 2 && total_size(events) < MOST_SIZE / 2
}

/// Whether the last of these events was answered, other than by a halt or NotYet, and keeps its rank's probe.
fn is_last_answered(events: &[Event]) -> bool
    ensures { MatchBool result (IsLastAnswered events.now) (IsLastAnswered events.now → ⊥) }
{
    let [before @ .., event] = events else {
        return false;
    };
    match event.reply {
        Reply::NotYet | Reply::Stopped(_) => false,
        _ => keeps_probe(before, event),
    }
}

/// The race of some rank's next call that is not reckoned with.
fn race_of_next<'a, P: Program, R: RankRun<Of = P>, S>(
    setting: &Setting<'a, P, S>,
    races: &Races,
    course: &mut SearchCourse<'a, P, R>,
    turns: &[Turn],
) -> Result<Option<Race>, AllocError>
    requires course { IsCourse R.standing setting.now.program.now setting.now.ranks (events_of_turns (P.next setting.now.program.now) setting.now.ranks turns.now) course.old.machine course.old.runs.items }
    ensures course { OnOk result (IsCourse R.standing setting.now.program.now setting.now.ranks (events_of_turns (P.next setting.now.program.now) setting.now.ranks turns.now) course.new.machine course.new.runs.items) }
    ensures reckoned { IfOk result (λ race. race ≡ None → AreReckonedBelow (P.next setting.now.program.now) setting.now.ranks (races_of races.now) (events_of_turns (P.next setting.now.program.now) setting.now.ranks turns.now) setting.now.ranks) }
{
    for rank in 0..setting.ranks {
        let next = call_of(&mut course.runs[rank as usize])?;
        let race = races.race_next(rank, &next);
        if race.is_some() {
            return Ok(race);
        }
    }
    Ok(None)
}

/// Makes a rank's next call, where it is quiet and can be answered, and gives the rank the reply: whether it was.
fn make<P: Program, R: RankRun<Of = P>>(
    machine: &mut Machine<'_, P>,
    run: &mut R,
    races: &Races,
    rank: u8,
) -> Result<bool, AllocError>
    requires rank { rank < machine.old.ranks }
    requires run { IsAfter machine.old.program machine.old.ranks rank machine.old.events (R.standing run.old) }
    ensures program { OnOk result (machine.new.program ≡ machine.old.program) }
    ensures ranks { OnOk result (machine.new.ranks ≡ machine.old.ranks) }
    ensures run { OnOk result (IsAfter machine.old.program machine.old.ranks rank machine.new.events (R.standing run.new)) }
    ensures made { IfOk result (λ made. MatchBool made (IsQuietlyAnswered (P.next machine.old.program) machine.old.ranks (races_of races.now) machine.old.events machine.new.events rank) (machine.new.events ≡ machine.old.events)) }
{
    let call = match run.want()? {
        Want::Ended => return Ok(false),
        Want::Ask(call) => call,
    };
    if !races.is_quiet(&call) {
        return Ok(false);
    }
    match machine.attempt(rank, call)? {
        Answer::Replied(reply) => {
            run.give(&reply)?;
            Ok(true)
        }
        Answer::Wait => Ok(false),
    }
}

/// Makes a rank's next call after a state, where it is quiet, and goes along with it: whether it was, and was followed.
fn make_quiet<'a, P: Program, R: RankRun<Of = P>, S: StartRanks<P, R>>(
    setting: &Setting<'a, P, S>,
    bounds: SearchLimits,
    races: &Races,
    met: &mut Met,
    course: &mut SearchCourse<'a, P, R>,
    turns: &[Turn],
    rank: u8,
) -> Result<bool, AllocError>
    requires setting { IsSetting (S.program setting.now.starter.now) setting.now.program.now (number_of_ranks setting.now.plan.now) setting.now.ranks }
    requires state { IsState (P.next setting.now.program.now) setting.now.ranks (events_of_turns (P.next setting.now.program.now) setting.now.ranks setting.now.under.now) turns.now }
    requires met { IsUnderWay (P.next setting.now.program.now) (P.output setting.now.program.now) setting.now.ranks (events_of_turns (P.next setting.now.program.now) setting.now.ranks setting.now.under.now) met.old }
    requires course { IsCourse R.standing setting.now.program.now setting.now.ranks (events_of_turns (P.next setting.now.program.now) setting.now.ranks turns.now) course.old.machine course.old.runs.items }
    requires rank { rank < setting.now.ranks }
    ensures course { IfOk result (λ made. made ≡ false → IsCourse R.standing setting.now.program.now setting.now.ranks (events_of_turns (P.next setting.now.program.now) setting.now.ranks turns.now) course.new.machine course.new.runs.items) }
    ensures along { IfOk result (λ made. made ≡ true → IsCourse R.standing setting.now.program.now setting.now.ranks (events_of_turns (P.next setting.now.program.now) setting.now.ranks (turns.now ++ (record { rank = rank; pick = First }) ∷ [])) course.new.machine course.new.runs.items) }
    ensures went { OnOk result (WentOn (P.next setting.now.program.now) (P.output setting.now.program.now) setting.now.ranks (events_of_turns (P.next setting.now.program.now) setting.now.ranks setting.now.under.now) met.old met.new) }
    ensures followed { IfOk result (λ made. made ≡ true → HasMetQuietly (P.next setting.now.program.now) setting.now.ranks (races_of races.now) met.new turns.now) }
{
    if !make(
        &mut course.machine,
        &mut course.runs[rank as usize],
        races,
        rank,
    )? {
        return Ok(false);
    }
    if !is_last_answered(course.machine.history().as_slice()) {
        make_anew(setting, course, turns)?;
        return Ok(false);
    }
    let pick = Pick::First;
    note(setting, bounds, met, course, turns, Turn { rank, pick })?;
    Ok(true)
}

/// Makes one quiet call after a state, where there is one, and goes along with it: the turn that was followed.
fn follow_quiet<'a, P: Program, R: RankRun<Of = P>, S: StartRanks<P, R>>(
    setting: &Setting<'a, P, S>,
    bounds: SearchLimits,
    races: &Races,
    met: &mut Met,
    course: &mut SearchCourse<'a, P, R>,
    turns: &[Turn],
) -> Result<Option<Turn>, AllocError>
    requires setting { IsSetting (S.program setting.now.starter.now) setting.now.program.now (number_of_ranks setting.now.plan.now) setting.now.ranks }
    requires state { IsState (P.next setting.now.program.now) setting.now.ranks (events_of_turns (P.next setting.now.program.now) setting.now.ranks setting.now.under.now) turns.now }
    requires met { IsUnderWay (P.next setting.now.program.now) (P.output setting.now.program.now) setting.now.ranks (events_of_turns (P.next setting.now.program.now) setting.now.ranks setting.now.under.now) met.old }
    requires course { IsCourse R.standing setting.now.program.now setting.now.ranks (events_of_turns (P.next setting.now.program.now) setting.now.ranks turns.now) course.old.machine course.old.runs.items }
    ensures course { IfOk result (λ made. made ≡ None → IsCourse R.standing setting.now.program.now setting.now.ranks (events_of_turns (P.next setting.now.program.now) setting.now.ranks turns.now) course.new.machine course.new.runs.items) }
    ensures along { IfOk result (λ made. (turn : Turn) → made ≡ Some turn → IsCourse R.standing setting.now.program.now setting.now.ranks (events_of_turns (P.next setting.now.program.now) setting.now.ranks (turns.now ++ turn ∷ [])) course.new.machine course.new.runs.items) }
    ensures went { OnOk result (WentOn (P.next setting.now.program.now) (P.output setting.now.program.now) setting.now.ranks (events_of_turns (P.next setting.now.program.now) setting.now.ranks setting.now.under.now) met.old met.new) }
    ensures followed { IfOk result (λ made. (turn : Turn) → made ≡ Some turn → HasMetQuietly (P.next setting.now.program.now) setting.now.ranks (races_of races.now) met.new turns.now) }
{
    let pick = Pick::First;
    for rank in 0..setting.ranks {
        if make_quiet(setting, bounds, races, met, course, turns, rank)? {
            return Ok(Some(Turn { rank, pick }));
        }
    }
    Ok(None)
}

/// Why a search in which quiet calls go first cannot go on at a state, which the course stands at.
fn hindrance_at<'a, P: Program, R: RankRun<Of = P>, S>(
    setting: &Setting<'a, P, S>,
    races: &Races,
    course: &mut SearchCourse<'a, P, R>,
    turns: &[Turn],
) -> Result<Option<Hindrance>, AllocError>
    requires course { IsCourse R.standing setting.now.program.now setting.now.ranks (events_of_turns (P.next setting.now.program.now) setting.now.ranks turns.now) course.old.machine course.old.runs.items }
    ensures course { OnOk result (IsCourse R.standing setting.now.program.now setting.now.ranks (events_of_turns (P.next setting.now.program.now) setting.now.ranks turns.now) course.new.machine course.new.runs.items) }
    ensures met { IfOk result (λ hindrance. hindrance ≡ None → IsReckonedWith (P.next setting.now.program.now) setting.now.ranks (races_of races.now) (events_of_turns (P.next setting.now.program.now) setting.now.ranks turns.now)) }
{
    let events = course.machine.history().as_slice();
    if !is_far_below(events) {
        return Ok(Some(Hindrance::Large));
    }
    if let Some(race) = races.race_in(events) {
        return Ok(Some(Hindrance::Racy(race)));
    }
    match race_of_next(setting, races, course, turns)? {
        Some(race) => Ok(Some(Hindrance::Racy(race))),
        None => Ok(None),
    }
}

/// Looks at a state, which the course stands at: follows one quiet call, where there is one, and else tries all turns.
fn look_from<'a, P: Program, R: RankRun<Of = P>, S: StartRanks<P, R>>(
    setting: &Setting<'a, P, S>,
    bounds: SearchLimits,
    races: &Races,
    met: &mut Met,
    course: &mut SearchCourse<'a, P, R>,
    turns: &[Turn],
) -> Result<Look, AllocError>
    requires setting { IsSetting (S.program setting.now.starter.now) setting.now.program.now (number_of_ranks setting.now.plan.now) setting.now.ranks }
    requires state { IsState (P.next setting.now.program.now) setting.now.ranks (events_of_turns (P.next setting.now.program.now) setting.now.ranks setting.now.under.now) turns.now }
    requires met { IsUnderWay (P.next setting.now.program.now) (P.output setting.now.program.now) setting.now.ranks (events_of_turns (P.next setting.now.program.now) setting.now.ranks setting.now.under.now) met.old }
    requires course { IsCourse R.standing setting.now.program.now setting.now.ranks (events_of_turns (P.next setting.now.program.now) setting.now.ranks turns.now) course.old.machine course.old.runs.items }
    ensures went { OnOk result (WentOn (P.next setting.now.program.now) (P.output setting.now.program.now) setting.now.ranks (events_of_turns (P.next setting.now.program.now) setting.now.ranks setting.now.under.now) met.old met.new) }
    ensures looked { IfOk result (λ look. is_hindered look ≡ false → HasLookedAtQuietly (question_of (P.next setting.now.program.now) (P.output setting.now.program.now) setting.now.ranks bounds.polls) (races_of races.now) met.new turns.now) }
    ensures along { IfOk result (λ look. (turn : Turn) → look ≡ Followed turn → IsCourse R.standing setting.now.program.now setting.now.ranks (events_of_turns (P.next setting.now.program.now) setting.now.ranks (turns.now ++ turn ∷ [])) course.new.machine course.new.runs.items) }
{
    if let Some(hindrance) = hindrance_at(setting, races, course, turns)? {
        return Ok(Look::Hindered(hindrance));
    }
    if let Some(turn) = follow_quiet(setting, bounds, races, met, course, turns)? {
        return Ok(Look::Followed(turn));
    }
    let copy = copy_of(setting.alloc, turns)?;
    tries::look_from(setting, bounds, met, course, copy)?;
    Ok(Look::Opened)
}

/// Whether these turns are the same.
fn is_same_turns(one: &[Turn], other: &[Turn]) -> bool
    ensures { result ≡ true → one.now ≡ other.now }
{
    let mut rest = one;
    let mut others = other;
    while let [turn, after @ ..] = rest {
        let [second, behind @ ..] = others else {
            return false;
        };
        if turn != second {
            return false;
        }
        rest = after;
        others = behind;
    }
    others.is_empty()
}

/// The place of the last of these states, where these turns make it.
fn last_place(states: &[Turns], turns: &[Turn]) -> Option<usize>
    ensures { (place : ℕ) → result ≡ Some place → slice_get states.now place ≡ Some turns.now }
{
    let place = states.len().checked_sub(1)?;
    let last = states.get(place)?;
    if is_same_turns(last.as_slice(), turns) {
        return Some(place);
    }
    None
}

/// Looks at a state, which the course stands at, and goes along the quiet calls behind it: each new state that they lead to is looked at at once,
/// and its place is noted.
fn look_along<'a, P: Program, R: RankRun<Of = P>, S: StartRanks<P, R>>(
    setting: &Setting<'a, P, S>,
    bounds: SearchLimits,
    races: &Races,
    met: &mut Met,
    passed: &mut PassedStates,
    course: &mut SearchCourse<'a, P, R>,
    turns: &mut Turns,
) -> Result<Option<Hindrance>, AllocError>
    requires setting { IsSetting (S.program setting.now.starter.now) setting.now.program.now (number_of_ranks setting.now.plan.now) setting.now.ranks }
    requires state { IsState (P.next setting.now.program.now) setting.now.ranks (events_of_turns (P.next setting.now.program.now) setting.now.ranks setting.now.under.now) turns.old }
    requires met { IsUnderWay (P.next setting.now.program.now) (P.output setting.now.program.now) setting.now.ranks (events_of_turns (P.next setting.now.program.now) setting.now.ranks setting.now.under.now) met.old }
    requires course { IsCourse R.standing setting.now.program.now setting.now.ranks (events_of_turns (P.next setting.now.program.now) setting.now.ranks turns.old) course.old.machine course.old.runs.items }
    requires passed { ArePassed (question_of (P.next setting.now.program.now) (P.output setting.now.program.now) setting.now.ranks bounds.polls) (races_of races.now) met.old passed.old }
    ensures went { OnOk result (WentOn (P.next setting.now.program.now) (P.output setting.now.program.now) setting.now.ranks (events_of_turns (P.next setting.now.program.now) setting.now.ranks setting.now.under.now) met.old met.new) }
    ensures looked { IfOk result (λ hindrance. hindrance ≡ None → HasLookedAtQuietly (question_of (P.next setting.now.program.now) (P.output setting.now.program.now) setting.now.ranks bounds.polls) (races_of races.now) met.new turns.old) }
    ensures passed { OnOk result (ArePassed (question_of (P.next setting.now.program.now) (P.output setting.now.program.now) setting.now.ranks bounds.polls) (races_of races.now) met.new passed.new) }
{
    let mut look = look_from(setting, bounds, races, met, course, turns.as_slice())?;
    for _ in 0..bounds.most {
        let turn = match look {
            Look::Hindered(hindrance) => return Ok(Some(hindrance)),
            Look::Opened => return Ok(None),
            Look::Followed(turn) => turn,
        };
        turns.push(turn)?;
        let Some(place) = last_place(met.states.as_slice(), turns.as_slice()) else {
            return Ok(None);
        };
        look = look_from(setting, bounds, races, met, course, turns.as_slice())?;
        note_passed(passed, place, look)?;
    }
    Ok(Some(Hindrance::Large))
}

/// Looks at a state, where quiet calls go first, and at the new states that they lead to. Where the search cannot go on so, it says why.
fn look_quietly<'a, P: Program, R: RankRun<Of = P>, S: StartRanks<P, R>>(
    setting: &Setting<'a, P, S>,
    bounds: SearchLimits,
    races: &Races,
    met: &mut Met,
    passed: &mut PassedStates,
    turns: Turns,
) -> Result<Option<Hindrance>, AllocError>
    requires setting { IsSetting (S.program setting.now.starter.now) setting.now.program.now (number_of_ranks setting.now.plan.now) setting.now.ranks }
    requires state { IsState (P.next setting.now.program.now) setting.now.ranks (events_of_turns (P.next setting.now.program.now) setting.now.ranks setting.now.under.now) turns }
    requires met { IsUnderWay (P.next setting.now.program.now) (P.output setting.now.program.now) setting.now.ranks (events_of_turns (P.next setting.now.program.now) setting.now.ranks setting.now.under.now) met.old }
    requires passed { ArePassed (question_of (P.next setting.now.program.now) (P.output setting.now.program.now) setting.now.ranks bounds.polls) (races_of races.now) met.old passed.old }
    ensures went { OnOk result (WentOn (P.next setting.now.program.now) (P.output setting.now.program.now) setting.now.ranks (events_of_turns (P.next setting.now.program.now) setting.now.ranks setting.now.under.now) met.old met.new) }
    ensures looked { IfOk result (λ hindrance. hindrance ≡ None → HasLookedAtQuietly (question_of (P.next setting.now.program.now) (P.output setting.now.program.now) setting.now.ranks bounds.polls) (races_of races.now) met.new turns) }
    ensures passed { OnOk result (ArePassed (question_of (P.next setting.now.program.now) (P.output setting.now.program.now) setting.now.ranks bounds.polls) (races_of races.now) met.new passed.new) }
{
    let mut course: SearchCourse<'a, P, R> = after_turns(setting, turns.as_slice())?;
    let mut turns = turns;
    look_along(setting, bounds, races, met, passed, &mut course, &mut turns)
}

/// Looks at the state at a place, unless that was done already. Where the search cannot go on so, it says why.
pub fn look_once<'a, P: Program, R: RankRun<Of = P>, S: StartRanks<P, R>>(
    setting: &Setting<'a, P, S>,
    bounds: SearchLimits,
    races: &Races,
    met: &mut Met,
    passed: &mut PassedStates,
    place: usize,
    turns: Turns,
) -> Result<Option<Hindrance>, AllocError>
    requires setting { IsSetting (S.program setting.now.starter.now) setting.now.program.now (number_of_ranks setting.now.plan.now) setting.now.ranks }
    requires state { IsState (P.next setting.now.program.now) setting.now.ranks (events_of_turns (P.next setting.now.program.now) setting.now.ranks setting.now.under.now) turns }
    requires place { slice_get met.old.states place ≡ Some turns }
    requires met { IsUnderWay (P.next setting.now.program.now) (P.output setting.now.program.now) setting.now.ranks (events_of_turns (P.next setting.now.program.now) setting.now.ranks setting.now.under.now) met.old }
    requires passed { ArePassed (question_of (P.next setting.now.program.now) (P.output setting.now.program.now) setting.now.ranks bounds.polls) (races_of races.now) met.old passed.old }
    ensures went { OnOk result (WentOn (P.next setting.now.program.now) (P.output setting.now.program.now) setting.now.ranks (events_of_turns (P.next setting.now.program.now) setting.now.ranks setting.now.under.now) met.old met.new) }
    ensures looked { IfOk result (λ hindrance. hindrance ≡ None → HasLookedAtQuietly (question_of (P.next setting.now.program.now) (P.output setting.now.program.now) setting.now.ranks bounds.polls) (races_of races.now) met.new turns) }
    ensures passed { OnOk result (ArePassed (question_of (P.next setting.now.program.now) (P.output setting.now.program.now) setting.now.ranks bounds.polls) (races_of races.now) met.new passed.new) }
{
    if passed.comes_to(place) {
        return Ok(None);
    }
    look_quietly(setting, bounds, races, met, passed, turns)
}

/// Whether a run ended by a mismatch.
fn is_mismatched_ending(ending: Ending) -> bool
    ensures { result ≡ is_mismatched_ending ending }
{
    match ending {
        Ending::Halted(halt) => matches!(halt, Halt::Mismatched { .. }),
        Ending::Finished => false,
    }
}

/// Whether one of the runs that were found ended by a mismatch.
pub fn has_mismatch(listed: &[FoundOutcome]) -> bool
    ensures { result ≡ has_mismatch listed.now }
{
    let mut rest = listed;
    while let [found, after @ ..] = rest {
        if is_mismatched_ending(found.outcome.ending()) {
            return true;
        }
        rest = after;
    }
    false
}
