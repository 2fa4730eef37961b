//! A whole recording on one thread.
ghost use Rattle.std.specs.Prelude.{◌≡◌, ◌<◌, [], All, IfOk, OnOk, map, true};
ghost use Rattle.group_plan.specs.Plans.{number_of_ranks};
ghost use Rattle.mpi_machine.specs.Turns.{IsAtStage};
ghost use Rattle.run_model.specs.Endings.{ending_by};
ghost use Rattle.run_model.specs.Lists.{IsPrefixOf, world};
ghost use Rattle.run_model.specs.Serial.{Stage};
ghost use Rattle.srr_entry.specs.Entries.{log_of};
ghost use Rattle.srr_record.specs.Recordings.{AreRuns, IsRecorded, IsRecording, recording_with};
ghost use Rattle.srr_entry.specs.Outputs.{printed_of};
ghost use Rattle.srr_record.specs.Rounds.{AreRecordedRounds};

use crate::recording::Recording;
use crate::rounds::{make_rounds, take_turns};
use group_plan::Plan;
use mpi_call::call::Halt;
use mpi_machine::machine::Machine;
use picked_runs::laws::picks_begin_run;
use picked_runs::turn::Turn;
use run_model::by_rank::ByRank;
use run_model::ending::Ending;
use run_model::lists::Outputs;
use run_model::program::{Program, RankRun};
use srr_entry::log::Logs;
use srr_entry::run_log::log_of;
use std::alloc::{AllocError, Global};
use wiz_base::bytes::Bytes;

/// Records a run of the program with this text on one thread: first the turns, then rounds over all
/// ranks, rising, until each has ended. Run k is rank k, just started.
pub fn record_serial<P: Program, R: RankRun<Of = P>>(
    alloc: Global,
    program: &P,
    text: &[u8],
    plan: &Plan,
    mut runs: Vec<R>,
    turns: &[Turn],
) -> Result<Recording, AllocError>
    requires runs { AreRuns R.standing program.now (number_of_ranks plan.now) [] runs.items }
    requires turns { All (λ turn. turn.rank < number_of_ranks plan.now) turns.now }
    ensures { IfOk result (λ recording. IsRecording (P.next program.now) (P.output program.now) (number_of_ranks plan.now) (recording_with text.now plan.now turns.now) recording) }
{
    let ranks = plan.n();
    // A law: a run whose order and picks are the turns, without a Stuck reply, begins their run.
    picks_begin_run(program, ranks);
    let mut machine = Machine::new(alloc, program, ranks)?;
    let all = runs.as_mut_slice();
    take_turns(&mut machine, all, turns)?;
    finish(alloc, machine, text, plan, all)
}

/// Goes on with a run until all ranks have ended: rounds over all ranks, rising. Run k is rank k where it stands.
pub fn finish_record<P: Program, R: RankRun<Of = P>>(
    alloc: Global,
    machine: Machine<'_, P>,
    text: &[u8],
    plan: &Plan,
    mut runs: Vec<R>,
) -> Result<Recording, AllocError>
    requires ranks { number_of_ranks plan.now ≡ machine.ranks }
    requires runs { AreRuns R.standing machine.program machine.ranks machine.events runs.items }
    ensures begins { IfOk result (λ recording. IsPrefixOf machine.entry.events recording.history.events) }
    ensures rounds { IfOk result (λ recording. (stage : Stage) → IsAtStage machine.entry stage → AreRecordedRounds (P.next machine.entry.program) machine.entry.ranks stage recording.history.events) }
    ensures recorded { IfOk result (λ recording. IsRecorded (P.next machine.entry.program) (P.output machine.entry.program) machine.entry.ranks text.now plan.now recording) }
{
    finish(alloc, machine, text, plan, runs.as_mut_slice())
}

fn finish<P: Program, R: RankRun<Of = P>>(
    alloc: Global,
    mut machine: Machine<'_, P>,
    text: &[u8],
    plan: &Plan,
    runs: &mut [R],
) -> Result<Recording, AllocError>
    requires ranks { number_of_ranks plan.now ≡ machine.ranks }
    requires runs { AreRuns R.standing machine.program machine.ranks machine.events runs.old }
    ensures begins { IfOk result (λ recording. IsPrefixOf machine.entry.events recording.history.events) }
    ensures rounds { IfOk result (λ recording. (stage : Stage) → IsAtStage machine.entry stage → AreRecordedRounds (P.next machine.entry.program) machine.entry.ranks stage recording.history.events) }
    ensures recorded { IfOk result (λ recording. IsRecorded (P.next machine.entry.program) (P.output machine.entry.program) machine.entry.ranks text.now plan.now recording) }
{
    make_rounds(&mut machine, runs)?;
    let logs = logs_of(alloc, &machine, text, plan)?;
    let outputs = outputs_of(alloc, &machine, runs)?;
    let ending = ending_by(machine.halt());
    let (history, picks) = machine.into_run();
    Ok(Recording {
        history,
        picks,
        logs,
        outputs,
        ending,
    })
}

/// The log of each group, in order.
fn logs_of<P: Program>(
    alloc: Global,
    machine: &Machine<'_, P>,
    text: &[u8],
    plan: &Plan,
) -> Result<Logs, AllocError>
    requires { number_of_ranks plan.now ≡ machine.now.ranks }
    ensures { IfOk result (λ logs. logs ≡ map (log_of text.now machine.now.ranks machine.now.events) plan.now) }
{
    let history = machine.history();
    let by_rank = ByRank::new(alloc, history)?;
    let mut logs = Logs::new(alloc);
    for group in 0..plan.groups() {
        let log = log_of(alloc, plan.n(), plan.ranks(group), text, &by_rank)?;
        logs.push(log)?;
    }
    Ok(logs)
}

/// What each rank has printed, in order.
fn outputs_of<P: Program, R: RankRun<Of = P>>(
    alloc: Global,
    machine: &Machine<'_, P>,
    runs: &mut [R],
) -> Result<Outputs, AllocError>
    requires { AreRuns R.standing machine.now.program machine.now.ranks machine.now.events runs.old }
    ensures { IfOk result (λ outputs. outputs ≡ map (printed_of (P.output machine.now.program) machine.now.ranks machine.now.events) (world machine.now.ranks 0)) }
{
    let mut outputs = Outputs::new(alloc);
    for run in runs.iter_mut() {
        let printed = printed(alloc, run)?;
        outputs.push(printed)?;
    }
    Ok(outputs)
}

/// What a rank has printed before its next call.
fn printed<R: RankRun>(alloc: Global, run: &mut R) -> Result<Bytes, AllocError>
    ensures run { OnOk result (R.standing run.new ≡ record (R.standing run.old) { asked = true }) }
    ensures printed { IfOk result (λ printed. printed ≡ R.Of.output (R.standing run.old).program (R.standing run.old).ranks (R.standing run.old).rank (R.standing run.old).replies) }
{
    run.want()?;
    Bytes::from_slice(alloc, run.printed())
}

/// How a run ended in which every rank has ended.
fn ending_by(halt: Option<Halt>) -> Ending
    ensures { result ≡ ending_by halt }
{
    match halt {
        Some(halt) => Ending::Halted(halt),
        None => Ending::Finished,
    }
}
