//! `races PROGRAM PLAN [--order FILE] [--serial] [--orders PREFIX]`: a run is recorded, and for each wildcard receive the messages are told
//! that it could have taken. With a prefix there is an order file for each message that could have come next there.
ghost use Rattle.std.specs.Prelude.{◌≡◌, [], IfOk, List, option_map, true};
ghost use Rattle.c_program.specs.View.{pure_program};
ghost use Rattle.c_program.specs.Program.{next_of};
ghost use Rattle.group_plan.specs.Plans.{number_of_ranks};
ghost use Rattle.mpi_call.specs.Lists.{IsIn};
ghost use Rattle.msg_races.specs.declared.receives.WildcardReceive.{WildcardReceive};
ghost use Rattle.other_picks.specs.declared.other.OtherPick.{OtherPick};
ghost use Rattle.other_picks.specs.Others.{others_of};
ghost use Rattle.run_model.specs.Run.{IsRun};
ghost use Rattle.wiz_runs.specs.RaceOrders.{IsOtherOrder};
ghost use Rattle.wiz_runs.specs.Runs.{races_outcome, races_over_text, reported_races};
ghost use Rattle.wiz_task.specs.inside.Ends.{EndsTask};
ghost use Rattle.wiz_runs.specs.inside.Races.{AreRacesOf};
ghost use Rattle.wiz_task.specs.inside.Recording.{IsMadeRecording};
ghost use Rattle.wiz_tool.specs.Outcomes.{run_outcome};
ghost use Rattle.wiz_tool.specs.inside.Told.{IsReportedBy};
ghost use Rattle.wiz_tool.specs.Environment.{around};
ghost use Rattle.wiz_words.specs.Texts.{run_with_texts};
ghost use Rattle.wiz_words.specs.Words.{is_threaded_run};
ghost use Rattle.wiz_runs.specs.Runs.{TellsRaces, run_task};

use crate::commands::race_orders::write_orders;
use crate::recording::ready::read_run;
use explanation_text::races::races_text;
use msg_races::fault::{MOST_OTHERS, RaceFault};
use msg_races::laws::one_list;
use other_picks::laws::others_are_taken;
use srr_record::Recording;
use std::alloc::{AllocError, Global};
use wiz_base::{Bytes, push_decimal, push_text};
use wiz_io::{Sink, Store};
use wiz_task::ready::Ready;
use wiz_task::runner::Runner;
use wiz_tool::failure::Failure;
use wiz_tool::finish::finish;
use wiz_tool::report::{Report, text_of_run};
use wiz_tool::status::{Status, of_ending};
use wiz_words::command::RunWords;

/// Records what the arguments name, and lists the message races of the run: `runner` runs the ranks.
pub fn races<'a, S: Store, K: Sink, R: Runner>(
    alloc: Global,
    run: &RunWords<&'a str>,
    orders: Option<&str>,
    store: &mut S,
    out: &mut K,
    runner: &R,
) -> Result<Report, Failure<'a>>
    requires threads { R.is_threaded ≡ is_threaded_run (run_with_texts run.now) }
    requires runs { R.runs runner.now }
    ensures { EndsTask (run_task (run_with_texts run.now) (TellsRaces (option_map (λ text. text.now) orders.entry))) (around S.observed K.observed store out) result }
{
    let ready = read_run(alloc, run, store)?;
    let recording = runner.record(alloc, &ready)?;
    let told = races_of(alloc, &ready, &recording)?;
    others_are_recorded(&ready, &recording);
    let report = write(alloc, orders, &ready, recording, told, store, out)?;
    Ok(report)
}

/// What is told of the races of a run.
#[derive(Drop)]
pub struct RacesText {
    pub text: Bytes,
    pub status: Status,
}

/// The message races of a recorded run, or that there are too many.
fn races_of(alloc: Global, ready: &Ready, recording: &Recording) -> Result<RacesText, AllocError>
    requires { IsMadeRecording true ready.now recording.now }
    ensures { IfOk result (AreRacesOf ready.now recording.now) }
{
    // Two laws: what was recorded is a run, and a run has one list of races, so that what is told of this run is determined.
    is_a_run(ready, recording);
    one_list();
    match msg_races::races::races(alloc, ready.plan.n(), &recording.history) {
        Ok(receives) => Ok(RacesText {
            text: races_text(alloc, &receives, &recording.ending)?,
            status: of_ending(&recording.ending),
        }),
        Err(RaceFault::TooMany) => Ok(RacesText {
            text: races_over(alloc)?,
            status: Status::TooMany,
        }),
        Err(RaceFault::NoMemory) => Err(AllocError),
    }
}

/// A law: what was recorded is a run.
fn is_a_run(ready: &Ready, recording: &Recording)
    requires { IsMadeRecording true ready.now recording.now }
    ensures { IsRun (next_of (pure_program ready.now.program)) (number_of_ranks ready.now.plan) recording.now.history.events }
{}

/// A law: each other pick of a recorded run has an order, which is recorded into a run with it.
fn others_are_recorded(ready: &Ready, recording: &Recording)
    requires { IsMadeRecording true ready.now recording.now }
    ensures { (other : OtherPick) → IsIn other (others_of (number_of_ranks ready.now.plan) recording.now.history.events)
        → IsOtherOrder (next_of (pure_program ready.now.program)) (number_of_ranks ready.now.plan) recording.now other }
{
    others_are_taken(&ready.program, ready.plan.n());
}

/// The message of a run with too many races.
fn races_over(alloc: Global) -> Result<Bytes, AllocError>
    ensures { IfOk result (λ text. text ≡ races_over_text) }
{
    let mut text = Bytes::new(alloc);
    push_text(&mut text, b"races over ")?;
    push_decimal(&mut text, MOST_OTHERS as u64)?;
    push_text(&mut text, b"\n")?;
    Ok(text)
}

/// Writes the order files, where a prefix is given, and tells the races.
fn write<S: Store, K: Sink>(
    alloc: Global,
    orders: Option<&str>,
    ready: &Ready,
    recording: Recording,
    told: RacesText,
    store: &mut S,
    out: &mut K,
) -> Result<Report, AllocError>
    requires { IsMadeRecording true ready.now recording }
    ensures told { (receives : List WildcardReceive) → run_outcome told.status told.text recording [] ≡ reported_races receives recording
        → IsReportedBy (races_outcome (option_map (λ text. text.now) orders.entry) (number_of_ranks ready.now.plan) receives recording) (around S.observed K.observed store out) result }
    ensures reads { (S.observed store.new).reads ≡ (S.observed store.old).reads }
{
    let written = write_orders(alloc, orders, ready.plan.n(), &recording, store);
    let done = text_of_run(alloc, told.text, told.status, recording);
    finish(alloc, written, done, out)
}
