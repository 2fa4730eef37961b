//! The turns that can be made after a state: each is tried, and noted.
ghost use Rattle.std.specs.Prelude.{◌≡◌, ◌<◌, ◌++◌, ◌∷◌, [], IfOk, MatchBool, None, OnOk, Some, if◌then◌else◌, length, true};
ghost use Rattle.mpi_call.specs.Calls.{listed_by};
ghost use Rattle.group_plan.specs.Plans.{number_of_ranks};
ghost use Rattle.picked_runs.specs.declared.turn.Turn.{Turn};
ghost use Rattle.picked_runs.specs.Picks.{looks};
ghost use Rattle.explore.specs.Courses.{IsCourse, IsSetting};
ghost use Rattle.explore.specs.Explored.{events_of_turns};
ghost use Rattle.explore.specs.Searching.{HasLookedAt, HasTried, HasTriedPicks, HasTriedRanks, IsAnyPick, IsAtEnd, IsIndexBelow, IsOutcomeListed, IsSenderBelow, IsState, IsSearchStep, IsStepFollowed, IsTurnMade, IsUnanswered, IsUnder, IsUnderWay, WentOn, question_of};

use crate::back::take_back;
use crate::course::{SearchCourse, SearchLimits, Setting, after_turns, answer, outcome_by};
use crate::met::Met;
use crate::probes::{is_patient, keeps_probe};
use crate::ranks::StartRanks;
use mpi_call::call::{Call, Halt};
use picked_runs::laws::picks_go_on;
use picked_runs::turn::{Pick, Turn, Turns};
use run_model::history::History;
use run_model::program::{Program, RankRun, Want};
use run_states::key::code_of_run;
use run_states::laws::{codes_fix_keys, halts_decide_outcomes, keys_fix_futures};
use std::alloc::{AllocError, Global};

/// A copy of turns.
pub fn copy_of(alloc: Global, turns: &[Turn]) -> Result<Turns, AllocError>
    ensures { IfOk result (λ copy. copy ≡ turns.now) }
{
    let mut copy = Turns::new(alloc);
    let mut rest = turns;
    while let [turn, after @ ..] = rest {
        copy.push(*turn)?;
        rest = after;
    }
    Ok(copy)
}

/// These turns and one more.
fn and_turn(alloc: Global, turns: &[Turn], turn: Turn) -> Result<Turns, AllocError>
    ensures { IfOk result (λ more. more ≡ turns.now ++ turn ∷ []) }
{
    let mut more = copy_of(alloc, turns)?;
    more.push(turn)?;
    Ok(more)
}

/// Notes what a run without a halt left by its last event: a state, where the event keeps its probe and its rank is patient.
fn note_state<P: Program, S>(
    setting: &Setting<'_, P, S>,
    bounds: SearchLimits,
    met: &mut Met,
    history: &History,
    turns: Turns,
) -> Result<(), AllocError>
    requires met { IsUnderWay (P.next setting.now.program.now) (P.output setting.now.program.now) setting.now.ranks (events_of_turns (P.next setting.now.program.now) setting.now.ranks setting.now.under.now) met.old }
    requires step { IsSearchStep (P.next setting.now.program.now) setting.now.ranks (events_of_turns (P.next setting.now.program.now) setting.now.ranks setting.now.under.now) turns history.now.events }
    ensures went { OnOk result (WentOn (P.next setting.now.program.now) (P.output setting.now.program.now) setting.now.ranks (events_of_turns (P.next setting.now.program.now) setting.now.ranks setting.now.under.now) met.old met.new) }
    ensures followed { OnOk result (IsStepFollowed (P.next setting.now.program.now) setting.now.ranks bounds.polls met.new history.now.events) }
{
    let [before @ .., event] = history.as_slice() else {
        return Ok(());
    };
    if !keeps_probe(before, event) {
        return Ok(());
    }
    if !is_patient(before, event, bounds.polls) {
        met.polled = true;
        return Ok(());
    }
    // Laws: a code stands for one key, and runs of one key leave the same.
    codes_fix_keys();
    keys_fix_futures(setting.program, setting.ranks);
    let code = code_of_run(setting.alloc, setting.program, setting.ranks, history)?;
    met.add_state(code, turns)
}

/// Notes what the recording by these turns comes to, after which nothing but halts follows.
pub fn note_end<P: Program, R: RankRun<Of = P>, S: StartRanks<P, R>>(
    setting: &Setting<'_, P, S>,
    met: &mut Met,
    turns: Turns,
) -> Result<(), AllocError>
    requires setting { IsSetting (S.program setting.now.starter.now) setting.now.program.now (number_of_ranks setting.now.plan.now) setting.now.ranks }
    requires met { IsUnderWay (P.next setting.now.program.now) (P.output setting.now.program.now) setting.now.ranks (events_of_turns (P.next setting.now.program.now) setting.now.ranks setting.now.under.now) met.old }
    requires turns { IsUnder (P.next setting.now.program.now) setting.now.ranks (events_of_turns (P.next setting.now.program.now) setting.now.ranks setting.now.under.now) turns }
    requires end { IsAtEnd (P.next setting.now.program.now) setting.now.ranks (events_of_turns (P.next setting.now.program.now) setting.now.ranks turns) }
    ensures went { OnOk result (WentOn (P.next setting.now.program.now) (P.output setting.now.program.now) setting.now.ranks (events_of_turns (P.next setting.now.program.now) setting.now.ranks setting.now.under.now) met.old met.new) }
    ensures noted { OnOk result (IsOutcomeListed (P.next setting.now.program.now) (P.output setting.now.program.now) setting.now.ranks turns met.new.found) }
{
    // A law: a run that picks make has a recording machine's numbers.
    picks_go_on(setting.program, setting.ranks);
    let found = outcome_by(setting, turns)?;
    met.add_found(found)
}

/// Notes what one more turn of a state came to.
pub fn note<P: Program, R: RankRun<Of = P>, S: StartRanks<P, R>>(
    setting: &Setting<'_, P, S>,
    bounds: SearchLimits,
    met: &mut Met,
    course: &SearchCourse<'_, P, R>,
    turns: &[Turn],
    turn: Turn,
) -> Result<(), AllocError>
    requires setting { IsSetting (S.program setting.now.starter.now) setting.now.program.now (number_of_ranks setting.now.plan.now) setting.now.ranks }
    requires state { IsState (P.next setting.now.program.now) setting.now.ranks (events_of_turns (P.next setting.now.program.now) setting.now.ranks setting.now.under.now) turns.now }
    requires met { IsUnderWay (P.next setting.now.program.now) (P.output setting.now.program.now) setting.now.ranks (events_of_turns (P.next setting.now.program.now) setting.now.ranks setting.now.under.now) met.old }
    requires rank { turn.rank < setting.now.ranks }
    requires program { course.now.machine.program ≡ setting.now.program.now }
    requires ranks { course.now.machine.ranks ≡ setting.now.ranks }
    requires made { IsTurnMade (P.next setting.now.program.now) setting.now.ranks (events_of_turns (P.next setting.now.program.now) setting.now.ranks turns.now) course.now.machine.events turn }
    ensures went { OnOk result (WentOn (P.next setting.now.program.now) (P.output setting.now.program.now) setting.now.ranks (events_of_turns (P.next setting.now.program.now) setting.now.ranks setting.now.under.now) met.old met.new) }
    ensures tried { OnOk result (HasTried (question_of (P.next setting.now.program.now) (P.output setting.now.program.now) setting.now.ranks bounds.polls) met.new (events_of_turns (P.next setting.now.program.now) setting.now.ranks turns.now) turn) }
{
    // A law: what a run comes to that is halted is decided by what was before, and by the halt.
    halts_decide_outcomes(setting.program, setting.ranks);
    let history = course.machine.history();
    match course.machine.halt() {
        None => {
            let more = and_turn(setting.alloc, turns, turn)?;
            note_state(setting, bounds, met, history, more)
        }
        Some(halt) => match halt {
            Halt::Stuck => {
                let same = copy_of(setting.alloc, turns)?;
                note_end(setting, met, same)
            }
            _ => {
                let more = and_turn(setting.alloc, turns, turn)?;
                note_end(setting, met, more)
            }
        },
    }
}

/// The next call of a rank, if it makes one.
pub fn call_of<R: RankRun>(run: &mut R) -> Result<Option<Call>, AllocError>
    ensures call { IfOk result (λ call. R.Of.next (R.standing run.old).program (R.standing run.old).ranks (R.standing run.old).rank (R.standing run.old).replies ≡ call) }
    ensures run { OnOk result (R.standing run.new ≡ record (R.standing run.old) { asked = true }) }
{
    match run.want()? {
        Want::Ended => Ok(None),
        Want::Ask(call) => Ok(Some(call)),
    }
}

/// Tries one more turn of a state, and notes what it came to: whether it was answered.
fn try_turn<'a, P: Program, R: RankRun<Of = P>, S: StartRanks<P, R>>(
    setting: &Setting<'a, P, S>,
    bounds: SearchLimits,
    met: &mut Met,
    course: &mut SearchCourse<'a, P, R>,
    turns: &[Turn],
    turn: Turn,
) -> Result<bool, AllocError>
    requires setting { IsSetting (S.program setting.now.starter.now) setting.now.program.now (number_of_ranks setting.now.plan.now) setting.now.ranks }
    requires state { IsState (P.next setting.now.program.now) setting.now.ranks (events_of_turns (P.next setting.now.program.now) setting.now.ranks setting.now.under.now) turns.now }
    requires met { IsUnderWay (P.next setting.now.program.now) (P.output setting.now.program.now) setting.now.ranks (events_of_turns (P.next setting.now.program.now) setting.now.ranks setting.now.under.now) met.old }
    requires course { IsCourse R.standing setting.now.program.now setting.now.ranks (events_of_turns (P.next setting.now.program.now) setting.now.ranks turns.now) course.old.machine course.old.runs.items }
    requires rank { turn.rank < setting.now.ranks }
    ensures course { OnOk result (IsCourse R.standing setting.now.program.now setting.now.ranks (events_of_turns (P.next setting.now.program.now) setting.now.ranks turns.now) course.new.machine course.new.runs.items) }
    ensures went { OnOk result (WentOn (P.next setting.now.program.now) (P.output setting.now.program.now) setting.now.ranks (events_of_turns (P.next setting.now.program.now) setting.now.ranks setting.now.under.now) met.old met.new) }
    ensures tried { IfOk result (λ answered. MatchBool answered (HasTried (question_of (P.next setting.now.program.now) (P.output setting.now.program.now) setting.now.ranks bounds.polls) met.new (events_of_turns (P.next setting.now.program.now) setting.now.ranks turns.now) turn) (IsUnanswered (P.next setting.now.program.now) setting.now.ranks (events_of_turns (P.next setting.now.program.now) setting.now.ranks turns.now) turn)) }
{
    let Some(call) = call_of(&mut course.runs[turn.rank as usize])? else {
        return Ok(false);
    };
    if !answer(&mut course.machine, turn.rank, call, turn.pick)? {
        return Ok(false);
    }
    note(setting, bounds, met, course, turns, turn)?;
    take_back(setting, course)?;
    Ok(true)
}

/// How many senders can be picked for a call, of so many ranks.
fn senders_for(call: &Call, ranks: u8) -> u8
    ensures { result ≡ (if looks call.now then ranks else 0) }
{
    match call {
        Call::Post { .. } | Call::Peek { .. } => ranks,
        _ => 0,
    }
}

/// How many starts a call lists.
fn starts_for(call: &Call) -> usize
    ensures { result ≡ length (listed_by call.now) }
{
    match call {
        Call::Take { starts, .. } => starts.as_slice().len(),
        _ => 0,
    }
}

/// Tries all senders for a rank's call: whether one was there.
fn try_senders<'a, P: Program, R: RankRun<Of = P>, S: StartRanks<P, R>>(
    setting: &Setting<'a, P, S>,
    bounds: SearchLimits,
    met: &mut Met,
    course: &mut SearchCourse<'a, P, R>,
    turns: &[Turn],
    rank: u8,
    count: u8,
) -> Result<bool, AllocError>
    requires setting { IsSetting (S.program setting.now.starter.now) setting.now.program.now (number_of_ranks setting.now.plan.now) setting.now.ranks }
    requires state { IsState (P.next setting.now.program.now) setting.now.ranks (events_of_turns (P.next setting.now.program.now) setting.now.ranks setting.now.under.now) turns.now }
    requires met { IsUnderWay (P.next setting.now.program.now) (P.output setting.now.program.now) setting.now.ranks (events_of_turns (P.next setting.now.program.now) setting.now.ranks setting.now.under.now) met.old }
    requires course { IsCourse R.standing setting.now.program.now setting.now.ranks (events_of_turns (P.next setting.now.program.now) setting.now.ranks turns.now) course.old.machine course.old.runs.items }
    requires rank { rank < setting.now.ranks }
    ensures course { OnOk result (IsCourse R.standing setting.now.program.now setting.now.ranks (events_of_turns (P.next setting.now.program.now) setting.now.ranks turns.now) course.new.machine course.new.runs.items) }
    ensures went { OnOk result (WentOn (P.next setting.now.program.now) (P.output setting.now.program.now) setting.now.ranks (events_of_turns (P.next setting.now.program.now) setting.now.ranks setting.now.under.now) met.old met.new) }
    ensures tried { IfOk result (λ made. HasTriedPicks (question_of (P.next setting.now.program.now) (P.output setting.now.program.now) setting.now.ranks bounds.polls) met.new (events_of_turns (P.next setting.now.program.now) setting.now.ranks turns.now) rank (IsSenderBelow count) made) }
{
    let mut made = false;
    for sender in 0..count {
        let pick = Pick::Sender(sender);
        if try_turn(setting, bounds, met, course, turns, Turn { rank, pick })? {
            made = true;
        }
    }
    Ok(made)
}

/// Tries all indices for a rank's call: whether one was there.
fn try_indices<'a, P: Program, R: RankRun<Of = P>, S: StartRanks<P, R>>(
    setting: &Setting<'a, P, S>,
    bounds: SearchLimits,
    met: &mut Met,
    course: &mut SearchCourse<'a, P, R>,
    turns: &[Turn],
    rank: u8,
    count: usize,
) -> Result<bool, AllocError>
    requires setting { IsSetting (S.program setting.now.starter.now) setting.now.program.now (number_of_ranks setting.now.plan.now) setting.now.ranks }
    requires state { IsState (P.next setting.now.program.now) setting.now.ranks (events_of_turns (P.next setting.now.program.now) setting.now.ranks setting.now.under.now) turns.now }
    requires met { IsUnderWay (P.next setting.now.program.now) (P.output setting.now.program.now) setting.now.ranks (events_of_turns (P.next setting.now.program.now) setting.now.ranks setting.now.under.now) met.old }
    requires course { IsCourse R.standing setting.now.program.now setting.now.ranks (events_of_turns (P.next setting.now.program.now) setting.now.ranks turns.now) course.old.machine course.old.runs.items }
    requires rank { rank < setting.now.ranks }
    ensures course { OnOk result (IsCourse R.standing setting.now.program.now setting.now.ranks (events_of_turns (P.next setting.now.program.now) setting.now.ranks turns.now) course.new.machine course.new.runs.items) }
    ensures went { OnOk result (WentOn (P.next setting.now.program.now) (P.output setting.now.program.now) setting.now.ranks (events_of_turns (P.next setting.now.program.now) setting.now.ranks setting.now.under.now) met.old met.new) }
    ensures tried { IfOk result (λ made. HasTriedPicks (question_of (P.next setting.now.program.now) (P.output setting.now.program.now) setting.now.ranks bounds.polls) met.new (events_of_turns (P.next setting.now.program.now) setting.now.ranks turns.now) rank (IsIndexBelow count) made) }
{
    let mut made = false;
    for index in 0..count {
        let Ok(index) = u32::try_from(index) else {
            return Err(AllocError);
        };
        let pick = Pick::Index(index);
        if try_turn(setting, bounds, met, course, turns, Turn { rank, pick })? {
            made = true;
        }
    }
    Ok(made)
}

/// Tries all turns of a rank after a state: whether one was answered. Nothing is picked only where nothing can be.
fn try_rank<'a, P: Program, R: RankRun<Of = P>, S: StartRanks<P, R>>(
    setting: &Setting<'a, P, S>,
    bounds: SearchLimits,
    met: &mut Met,
    course: &mut SearchCourse<'a, P, R>,
    turns: &[Turn],
    rank: u8,
) -> Result<bool, AllocError>
    requires setting { IsSetting (S.program setting.now.starter.now) setting.now.program.now (number_of_ranks setting.now.plan.now) setting.now.ranks }
    requires state { IsState (P.next setting.now.program.now) setting.now.ranks (events_of_turns (P.next setting.now.program.now) setting.now.ranks setting.now.under.now) turns.now }
    requires met { IsUnderWay (P.next setting.now.program.now) (P.output setting.now.program.now) setting.now.ranks (events_of_turns (P.next setting.now.program.now) setting.now.ranks setting.now.under.now) met.old }
    requires course { IsCourse R.standing setting.now.program.now setting.now.ranks (events_of_turns (P.next setting.now.program.now) setting.now.ranks turns.now) course.old.machine course.old.runs.items }
    requires rank { rank < setting.now.ranks }
    ensures course { OnOk result (IsCourse R.standing setting.now.program.now setting.now.ranks (events_of_turns (P.next setting.now.program.now) setting.now.ranks turns.now) course.new.machine course.new.runs.items) }
    ensures went { OnOk result (WentOn (P.next setting.now.program.now) (P.output setting.now.program.now) setting.now.ranks (events_of_turns (P.next setting.now.program.now) setting.now.ranks setting.now.under.now) met.old met.new) }
    ensures tried { IfOk result (λ made. HasTriedPicks (question_of (P.next setting.now.program.now) (P.output setting.now.program.now) setting.now.ranks bounds.polls) met.new (events_of_turns (P.next setting.now.program.now) setting.now.ranks turns.now) rank IsAnyPick made) }
{
    let Some(call) = call_of(&mut course.runs[rank as usize])? else {
        return Ok(false);
    };
    let senders = senders_for(&call, setting.ranks);
    let starts = starts_for(&call);
    if try_senders(setting, bounds, met, course, turns, rank, senders)? {
        return Ok(true);
    }
    if try_indices(setting, bounds, met, course, turns, rank, starts)? {
        return Ok(true);
    }
    let pick = Pick::First;
    try_turn(setting, bounds, met, course, turns, Turn { rank, pick })
}

/// Tries all turns of each rank after a state: whether one was answered.
fn try_ranks<'a, P: Program, R: RankRun<Of = P>, S: StartRanks<P, R>>(
    setting: &Setting<'a, P, S>,
    bounds: SearchLimits,
    met: &mut Met,
    course: &mut SearchCourse<'a, P, R>,
    turns: &[Turn],
) -> Result<bool, AllocError>
    requires setting { IsSetting (S.program setting.now.starter.now) setting.now.program.now (number_of_ranks setting.now.plan.now) setting.now.ranks }
    requires state { IsState (P.next setting.now.program.now) setting.now.ranks (events_of_turns (P.next setting.now.program.now) setting.now.ranks setting.now.under.now) turns.now }
    requires met { IsUnderWay (P.next setting.now.program.now) (P.output setting.now.program.now) setting.now.ranks (events_of_turns (P.next setting.now.program.now) setting.now.ranks setting.now.under.now) met.old }
    requires course { IsCourse R.standing setting.now.program.now setting.now.ranks (events_of_turns (P.next setting.now.program.now) setting.now.ranks turns.now) course.old.machine course.old.runs.items }
    ensures went { OnOk result (WentOn (P.next setting.now.program.now) (P.output setting.now.program.now) setting.now.ranks (events_of_turns (P.next setting.now.program.now) setting.now.ranks setting.now.under.now) met.old met.new) }
    ensures tried { IfOk result (λ made. HasTriedRanks (question_of (P.next setting.now.program.now) (P.output setting.now.program.now) setting.now.ranks bounds.polls) met.new (events_of_turns (P.next setting.now.program.now) setting.now.ranks turns.now) setting.now.ranks made) }
{
    let mut made = false;
    for rank in 0..setting.ranks {
        if try_rank(setting, bounds, met, course, turns, rank)? {
            made = true;
        }
    }
    Ok(made)
}

/// Looks at a state, which the course stands at: tries all turns of each rank after it, and, where none is answered, notes what it comes to.
pub fn look_from<'a, P: Program, R: RankRun<Of = P>, S: StartRanks<P, R>>(
    setting: &Setting<'a, P, S>,
    bounds: SearchLimits,
    met: &mut Met,
    course: &mut SearchCourse<'a, P, R>,
    turns: Turns,
) -> Result<(), AllocError>
    requires setting { IsSetting (S.program setting.now.starter.now) setting.now.program.now (number_of_ranks setting.now.plan.now) setting.now.ranks }
    requires state { IsState (P.next setting.now.program.now) setting.now.ranks (events_of_turns (P.next setting.now.program.now) setting.now.ranks setting.now.under.now) turns }
    requires met { IsUnderWay (P.next setting.now.program.now) (P.output setting.now.program.now) setting.now.ranks (events_of_turns (P.next setting.now.program.now) setting.now.ranks setting.now.under.now) met.old }
    requires course { IsCourse R.standing setting.now.program.now setting.now.ranks (events_of_turns (P.next setting.now.program.now) setting.now.ranks turns) course.old.machine course.old.runs.items }
    ensures went { OnOk result (WentOn (P.next setting.now.program.now) (P.output setting.now.program.now) setting.now.ranks (events_of_turns (P.next setting.now.program.now) setting.now.ranks setting.now.under.now) met.old met.new) }
    ensures looked { OnOk result (HasLookedAt (question_of (P.next setting.now.program.now) (P.output setting.now.program.now) setting.now.ranks bounds.polls) met.new turns) }
{
    // A law: what a run comes to that is halted is decided by what was before, and by the halt.
    halts_decide_outcomes(setting.program, setting.ranks);
    if try_ranks(setting, bounds, met, course, turns.as_slice())? {
        return Ok(());
    }
    note_end(setting, met, turns)
}

/// Looks at a state: tries all turns of each rank after it, and, where none is answered, notes what it comes to.
pub fn look_at<'a, P: Program, R: RankRun<Of = P>, S: StartRanks<P, R>>(
    setting: &Setting<'a, P, S>,
    bounds: SearchLimits,
    met: &mut Met,
    turns: Turns,
) -> Result<(), AllocError>
    requires setting { IsSetting (S.program setting.now.starter.now) setting.now.program.now (number_of_ranks setting.now.plan.now) setting.now.ranks }
    requires state { IsState (P.next setting.now.program.now) setting.now.ranks (events_of_turns (P.next setting.now.program.now) setting.now.ranks setting.now.under.now) turns }
    requires met { IsUnderWay (P.next setting.now.program.now) (P.output setting.now.program.now) setting.now.ranks (events_of_turns (P.next setting.now.program.now) setting.now.ranks setting.now.under.now) met.old }
    ensures went { OnOk result (WentOn (P.next setting.now.program.now) (P.output setting.now.program.now) setting.now.ranks (events_of_turns (P.next setting.now.program.now) setting.now.ranks setting.now.under.now) met.old met.new) }
    ensures looked { OnOk result (HasLookedAt (question_of (P.next setting.now.program.now) (P.output setting.now.program.now) setting.now.ranks bounds.polls) met.new turns) }
{
    let mut course: SearchCourse<'a, P, R> = after_turns(setting, turns.as_slice())?;
    look_from(setting, bounds, met, &mut course, turns)
}
