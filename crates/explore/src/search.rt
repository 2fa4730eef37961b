//! The search.
ghost use Rattle.std.specs.Prelude.{◌≡◌, ◌<◌, [], List, All, IfOk, None, OnOk, drop, false, take};
ghost use Rattle.mpi_call.specs.Lists.{IsIn};
ghost use Rattle.group_plan.specs.Plans.{number_of_ranks};
ghost use Rattle.picked_runs.specs.declared.turn.Turn.{Turn};
ghost use Rattle.picked_runs.specs.Turns.{IsPickOf};
ghost use Rattle.explore.specs.Courses.{IsSetting};
ghost use Rattle.explore.specs.Explored.{IsExplored, events_of_turns};
ghost use Rattle.explore.specs.inside.RaceFlags.{races_of};
ghost use Rattle.explore.specs.QuietFirst.{HasLookedAtQuietly};
ghost use Rattle.explore.specs.declared.found.Explored.{Explored};
ghost use Rattle.explore.specs.declared.search.QuietSearch.TheVariants.{Whole};
ghost use Rattle.explore.specs.Searching.{HasBegun, HasLookedAt, IsUnderWay, WentOn, question_of};

use crate::ahead::PassedStates;
use crate::course::{SearchCourse, SearchLimits, Setting, after_turns};
use crate::found::{Explored, States};
use crate::laws::{nothing_is_missed, nothing_is_missed_quietly};
use crate::met::Met;
use crate::quiet::{Hindrance, has_mismatch, look_once};
use crate::races::Races;
use crate::ranks::StartRanks;
use crate::tries::{copy_of, look_at, note_end};
use crate::watch::{Progress, WATCHED_STATES, Watcher};
use picked_runs::laws::picks_go_on;
use picked_runs::turn::Turns;
use run_model::program::{Program, RankRun};
use run_states::key::code_of_run;
use run_states::laws::{every_step_is_made, futures_are_same, halts_decide_outcomes};
use std::alloc::{AllocError, Global};

/// Notes the state that a search begins with, or, where it is halted, what it comes to.
fn begin<'a, P: Program, R: RankRun<Of = P>, S: StartRanks<P, R>>(
    setting: &Setting<'a, P, S>,
    met: &mut Met,
) -> Result<(), AllocError>
    requires setting { IsSetting (S.program setting.now.starter.now) setting.now.program.now (number_of_ranks setting.now.plan.now) setting.now.ranks }
    requires turns { All (λ turn. turn.rank < setting.now.ranks) setting.now.under.now }
    requires picks { All (λ turn. IsPickOf setting.now.ranks turn.pick) setting.now.under.now }
    requires met { met.old ≡ record { states = []; codes = []; found = []; polled = false } }
    ensures under_way { OnOk result (IsUnderWay (P.next setting.now.program.now) (P.output setting.now.program.now) setting.now.ranks (events_of_turns (P.next setting.now.program.now) setting.now.ranks setting.now.under.now) met.new) }
    ensures begun { OnOk result (HasBegun (P.next setting.now.program.now) (P.output setting.now.program.now) setting.now.ranks setting.now.under.now met.new) }
{
    // A law: a run that picks make has a recording machine's numbers.
    picks_go_on(setting.program, setting.ranks);
    let course: SearchCourse<'a, P, R> = after_turns(setting, setting.under)?;
    let halt = course.machine.halt();
    let (history, _picks) = course.machine.into_run();
    let turns = copy_of(setting.alloc, setting.under)?;
    if halt.is_some() {
        return note_end(setting, met, turns);
    }
    let code = code_of_run(setting.alloc, setting.program, setting.ranks, &history)?;
    met.add_state(code, turns)
}

/// Tells how far a search is, each time that it has come to so many more states; it has looked at some ahead.
fn tell<W: Watcher>(met: &Met, looked: u32, ahead: usize, watcher: &mut W) {
    if looked % WATCHED_STATES == 0 {
        let states = met.states.as_slice().len();
        watcher.looked(Progress {
            outcomes: met.found.as_slice().len(),
            states,
            left: states.saturating_sub(looked as usize).saturating_sub(ahead),
        });
    }
}

/// Looks at states in the order in which they were met, until all or enough are looked at: how many were looked at.
fn look_at_all<P: Program, R: RankRun<Of = P>, S: StartRanks<P, R>, W: Watcher>(
    setting: &Setting<'_, P, S>,
    bounds: SearchLimits,
    met: &mut Met,
    watcher: &mut W,
) -> Result<u32, AllocError>
    requires setting { IsSetting (S.program setting.now.starter.now) setting.now.program.now (number_of_ranks setting.now.plan.now) setting.now.ranks }
    requires met { IsUnderWay (P.next setting.now.program.now) (P.output setting.now.program.now) setting.now.ranks (events_of_turns (P.next setting.now.program.now) setting.now.ranks setting.now.under.now) met.old }
    ensures went { OnOk result (WentOn (P.next setting.now.program.now) (P.output setting.now.program.now) setting.now.ranks (events_of_turns (P.next setting.now.program.now) setting.now.ranks setting.now.under.now) met.old met.new) }
    ensures looked { IfOk result (λ looked. (turns : List Turn) → IsIn turns (take looked met.new.states) → HasLookedAt (question_of (P.next setting.now.program.now) (P.output setting.now.program.now) setting.now.ranks bounds.polls) met.new turns) }
{
    for at in 0..bounds.most {
        let Some(turns) = met.states.as_slice().get(at as usize) else {
            return Ok(at);
        };
        let turns = copy_of(setting.alloc, turns.as_slice())?;
        look_at(setting, bounds, met, turns)?;
        tell(met, at + 1, 0, watcher);
    }
    Ok(bounds.most)
}

/// Looks at states in the order in which they were met, where quiet calls go first, until all are looked at; or why that cannot be done.
fn look_at_all_quietly<P: Program, R: RankRun<Of = P>, S: StartRanks<P, R>, W: Watcher>(
    setting: &Setting<'_, P, S>,
    bounds: SearchLimits,
    races: &Races,
    met: &mut Met,
    watcher: &mut W,
) -> Result<Option<Hindrance>, AllocError>
    requires setting { IsSetting (S.program setting.now.starter.now) setting.now.program.now (number_of_ranks setting.now.plan.now) setting.now.ranks }
    requires met { IsUnderWay (P.next setting.now.program.now) (P.output setting.now.program.now) setting.now.ranks (events_of_turns (P.next setting.now.program.now) setting.now.ranks setting.now.under.now) met.old }
    ensures went { OnOk result (WentOn (P.next setting.now.program.now) (P.output setting.now.program.now) setting.now.ranks (events_of_turns (P.next setting.now.program.now) setting.now.ranks setting.now.under.now) met.old met.new) }
    ensures looked { IfOk result (λ hindrance. hindrance ≡ None → (turns : List Turn) → IsIn turns met.new.states → HasLookedAtQuietly (question_of (P.next setting.now.program.now) (P.output setting.now.program.now) setting.now.ranks bounds.polls) (races_of races.now) met.new turns) }
{
    let mut passed = PassedStates::new(setting.alloc);
    for at in 0..bounds.most {
        let Some(turns) = met.states.as_slice().get(at as usize) else {
            return Ok(None);
        };
        let turns = copy_of(setting.alloc, turns.as_slice())?;
        let place = at as usize;
        let hindrance = look_once(setting, bounds, races, met, &mut passed, place, turns)?;
        if hindrance.is_some() {
            return Ok(hindrance);
        }
        tell(met, at + 1, passed.ahead(), watcher);
    }
    if met.states.as_slice().len() <= bounds.most as usize {
        return Ok(None);
    }
    Ok(Some(Hindrance::Large))
}

/// The states from a place on.
fn from_place(alloc: Global, states: &[Turns], place: u32) -> Result<States, AllocError>
    ensures { IfOk result (λ left. left ≡ drop place states.now) }
{
    let mut left = States::new(alloc);
    let mut rest = match states.get(place as usize..) {
        Some(rest) => rest,
        None => &[],
    };
    while let [turns, after @ ..] = rest {
        left.push(copy_of(alloc, turns.as_slice())?)?;
        rest = after;
    }
    Ok(left)
}

/// What a search came to in which quiet calls go first.
enum QuietSearch {
    Whole(Explored),
    Hindered(Hindrance),
}

/// A search in which quiet calls go first, where it can be ended so.
fn search_quietly<P: Program, R: RankRun<Of = P>, S: StartRanks<P, R>, W: Watcher>(
    setting: &Setting<'_, P, S>,
    bounds: SearchLimits,
    races: &Races,
    watcher: &mut W,
) -> Result<QuietSearch, AllocError>
    requires setting { IsSetting (S.program setting.now.starter.now) setting.now.program.now (number_of_ranks setting.now.plan.now) setting.now.ranks }
    requires turns { All (λ turn. turn.rank < setting.now.ranks) setting.now.under.now }
    requires picks { All (λ turn. IsPickOf setting.now.ranks turn.pick) setting.now.under.now }
    ensures { IfOk result (λ attempt. (explored : Explored) → attempt ≡ Whole explored → IsExplored (P.next setting.now.program.now) (P.output setting.now.program.now) setting.now.ranks bounds.polls setting.now.under.now explored) }
{
    // Laws: where every state was looked at, nothing is missed; what a halted run comes to is decided by what was before.
    nothing_is_missed_quietly(setting.program, setting.ranks);
    halts_decide_outcomes(setting.program, setting.ranks);
    let mut met = Met::new(setting.alloc);
    begin(setting, &mut met)?;
    if let Some(hindrance) = look_at_all_quietly(setting, bounds, races, &mut met, watcher)? {
        return Ok(QuietSearch::Hindered(hindrance));
    }
    if !races.has_partial() && has_mismatch(met.found.as_slice()) {
        return Ok(QuietSearch::Hindered(Hindrance::Mismatched));
    }
    let states = met.states.as_slice().len();
    Ok(QuietSearch::Whole(Explored {
        found: met.found,
        states,
        left: States::new(setting.alloc),
        polled: met.polled,
    }))
}

/// A search in which all moves of each state are followed.
fn search_all<P: Program, R: RankRun<Of = P>, S: StartRanks<P, R>, W: Watcher>(
    setting: &Setting<'_, P, S>,
    bounds: SearchLimits,
    watcher: &mut W,
) -> Result<Explored, AllocError>
    requires setting { IsSetting (S.program setting.now.starter.now) setting.now.program.now (number_of_ranks setting.now.plan.now) setting.now.ranks }
    requires turns { All (λ turn. turn.rank < setting.now.ranks) setting.now.under.now }
    requires picks { All (λ turn. IsPickOf setting.now.ranks turn.pick) setting.now.under.now }
    ensures { IfOk result (λ explored. IsExplored (P.next setting.now.program.now) (P.output setting.now.program.now) setting.now.ranks bounds.polls setting.now.under.now explored) }
{
    // Laws: where every state was looked at, nothing is missed; what a halted run comes to is decided by what was before; runs that leave
    // the same come to the same, step by step.
    nothing_is_missed(setting.program, setting.ranks);
    halts_decide_outcomes(setting.program, setting.ranks);
    futures_are_same(setting.program, setting.ranks);
    every_step_is_made(setting.program, setting.ranks);
    let mut met = Met::new(setting.alloc);
    begin(setting, &mut met)?;
    let looked = look_at_all(setting, bounds, &mut met, watcher)?;
    let left = from_place(setting.alloc, met.states.as_slice(), looked)?;
    let states = met.states.as_slice().len();
    Ok(Explored {
        found: met.found,
        states,
        left,
        polled: met.polled,
    })
}

/// Every outcome of the runs that begin with what the setting's turns make; without turns, of all runs. Quiet calls go first, if each state is met
/// so; `watcher` is told on the way how far the search is, and a search that begins again counts anew.
pub fn explore<P: Program, R: RankRun<Of = P>, S: StartRanks<P, R>, W: Watcher>(
    setting: &Setting<'_, P, S>,
    bounds: SearchLimits,
    watcher: &mut W,
) -> Result<Explored, AllocError>
    requires setting { IsSetting (S.program setting.now.starter.now) setting.now.program.now (number_of_ranks setting.now.plan.now) setting.now.ranks }
    requires turns { All (λ turn. turn.rank < setting.now.ranks) setting.now.under.now }
    requires picks { All (λ turn. IsPickOf setting.now.ranks turn.pick) setting.now.under.now }
    ensures { IfOk result (λ explored. IsExplored (P.next setting.now.program.now) (P.output setting.now.program.now) setting.now.ranks bounds.polls setting.now.under.now explored) }
{
    let mut races = Races::none(setting.alloc, setting.ranks)?;
    // Each attempt but the last finds another rank that makes racy calls, or that some call completes in part.
    for _ in 0..u32::from(setting.ranks) + 2 {
        match search_quietly(setting, bounds, &races, watcher)? {
            QuietSearch::Whole(explored) => return Ok(explored),
            QuietSearch::Hindered(Hindrance::Racy(race)) => races.admit(race),
            QuietSearch::Hindered(Hindrance::Mismatched) => races.admit_partial(),
            QuietSearch::Hindered(Hindrance::Large) => break,
        }
    }
    search_all(setting, bounds, watcher)
}
