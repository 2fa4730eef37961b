//! A machine and the ranks beside it after some turns, and what a recording by turns comes to.
ghost use Rattle.std.specs.Prelude.{◌≡◌, ◌<◌, All, IfOk, MatchBool, OnOk, Some};
ghost use Rattle.group_plan.specs.Plans.{number_of_ranks};
ghost use Rattle.mpi_call.specs.declared.reply.Reply.{Reply};
ghost use Rattle.mpi_machine.specs.declared.answer.Answer.TheVariants.{Replied, Wait};
ghost use Rattle.run_model.specs.Serial.{call_after};
ghost use Rattle.explore.specs.Courses.{ComesTo, IsAnswered, IsCourse, IsTurnHeldBack, IsSetting};
ghost use Rattle.explore.specs.Explored.{events_of_turns};

use crate::found::FoundOutcome;
use crate::ranks::StartRanks;
use crate::telling::told;
use group_plan::Plan;
use mpi_call::call::Call;
use mpi_machine::answer::Answer;
use mpi_machine::machine::Machine;
use picked_runs::turn::{Pick, Turn, Turns};
use run_model::program::{Program, RankRun};
use srr_record::record_serial;
use srr_record::rounds::take_turns;
use std::alloc::{AllocError, Global};

/// What is searched: the runs of a program on the ranks of a plan, in which nothing is late.
#[derive(Drop)]
pub struct Setting<'a, P: Program, S> {
    pub alloc: Global,
    pub program: &'a P,
    /// What starts the ranks.
    pub starter: &'a S,
    pub plan: &'a Plan,
    /// How many ranks the plan has.
    pub ranks: u8,
    /// The turns that all runs begin with which are searched; without turns, all runs are.
    pub under: &'a [Turn],
}

/// The limits of a search.
#[derive(Clone, Copy)]
pub struct SearchLimits {
    /// How many states are looked at.
    pub most: u32,
    /// How many times in a row a rank may look in vain.
    pub polls: u32,
}

/// A machine and the ranks beside it.
#[derive(Drop)]
pub struct SearchCourse<'a, P: Program, R: Drop> {
    pub machine: Machine<'a, P>,
    pub runs: Vec<R>,
}

/// The machine and the ranks after these turns.
pub fn after_turns<'a, P: Program, R: RankRun<Of = P>, S: StartRanks<P, R>>(
    setting: &Setting<'a, P, S>,
    turns: &[Turn],
) -> Result<SearchCourse<'a, P, R>, AllocError>
    requires setting { IsSetting (S.program setting.now.starter.now) setting.now.program.now (number_of_ranks setting.now.plan.now) setting.now.ranks }
    requires turns { All (λ turn. turn.rank < setting.now.ranks) turns.now }
    ensures { IfOk result (λ course. IsCourse R.standing setting.now.program.now setting.now.ranks (events_of_turns (P.next setting.now.program.now) setting.now.ranks turns.now) course.machine course.runs.items) }
{
    let ranks = setting.plan.n();
    let mut runs = setting.starter.start(setting.alloc, ranks)?;
    let mut machine = Machine::new(setting.alloc, setting.program, ranks)?;
    take_turns(&mut machine, runs.as_mut_slice(), turns)?;
    Ok(SearchCourse { machine, runs })
}

/// Makes a course anew, by these turns.
pub fn make_anew<'a, P: Program, R: RankRun<Of = P>, S: StartRanks<P, R>>(
    setting: &Setting<'a, P, S>,
    course: &mut SearchCourse<'a, P, R>,
    turns: &[Turn],
) -> Result<(), AllocError>
    requires setting { IsSetting (S.program setting.now.starter.now) setting.now.program.now (number_of_ranks setting.now.plan.now) setting.now.ranks }
    requires turns { All (λ turn. turn.rank < setting.now.ranks) turns.now }
    ensures { OnOk result (IsCourse R.standing setting.now.program.now setting.now.ranks (events_of_turns (P.next setting.now.program.now) setting.now.ranks turns.now) course.new.machine course.new.runs.items) }
{
    *course = after_turns(setting, turns)?;
    Ok(())
}

/// Whether a call was replied to.
fn is_replied(answer: &Answer) -> bool
    ensures { MatchBool result ((reply : Reply) × (answer.now ≡ Replied reply)) (answer.now ≡ Wait) }
{
    match answer {
        Answer::Replied(_) => true,
        Answer::Wait => false,
    }
}

/// Answers a rank's call with what it picks, where that can be done now: whether there is one more event.
pub fn answer<P: Program>(
    machine: &mut Machine<'_, P>,
    rank: u8,
    call: Call,
    pick: Pick,
) -> Result<bool, AllocError>
    requires rank { rank < machine.old.ranks }
    requires next { call_after (P.next machine.old.program) machine.old.ranks machine.old.events rank ≡ Some call }
    ensures program { OnOk result (machine.new.program ≡ machine.old.program) }
    ensures ranks { OnOk result (machine.new.ranks ≡ machine.old.ranks) }
    ensures answered { IfOk result (λ answered. MatchBool answered (IsAnswered (P.next machine.old.program) machine.old.ranks machine.old.events machine.new.events (record { rank = rank; pick = pick }) call) (IsTurnHeldBack machine.old.ranks machine.old.events machine.new.events (record { rank = rank; pick = pick }) call)) }
{
    match pick {
        Pick::First => Ok(is_replied(&machine.attempt(rank, call)?)),
        Pick::Sender(sender) => Ok(machine.attempt_from(rank, call, sender)?.is_some()),
        Pick::Index(index) => Ok(machine.attempt_at(rank, call, index)?.is_some()),
    }
}

/// What the recording by these turns comes to.
pub fn outcome_by<P: Program, R: RankRun<Of = P>, S: StartRanks<P, R>>(
    setting: &Setting<'_, P, S>,
    turns: Turns,
) -> Result<FoundOutcome, AllocError>
    requires setting { IsSetting (S.program setting.now.starter.now) setting.now.program.now (number_of_ranks setting.now.plan.now) setting.now.ranks }
    requires turns { All (λ turn. turn.rank < setting.now.ranks) turns }
    ensures turns { IfOk result (λ found. found.turns ≡ turns) }
    ensures comes { IfOk result (λ found. ComesTo (P.next setting.now.program.now) (P.output setting.now.program.now) setting.now.ranks turns found.outcome) }
{
    let ranks = setting.plan.n();
    let runs: Vec<R> = setting.starter.start(setting.alloc, ranks)?;
    let recording = record_serial(
        setting.alloc,
        setting.program,
        &[],
        setting.plan,
        runs,
        turns.as_slice(),
    )?;
    let outcome = told(
        setting.alloc,
        setting.ranks,
        recording.ending,
        &recording.outputs,
    )?;
    Ok(FoundOutcome { turns, outcome })
}
