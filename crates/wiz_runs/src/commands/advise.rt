//! `advise PROGRAM PLAN K [--order FILE] [--serial]`: a run is recorded, and the blocks of ranks are told whose logs keep the fewest ints.
ghost use Rattle.c_program.specs.View.{pure_program};
ghost use Rattle.std.specs.Prelude.{◌≡◌, ◌<◌, [], IfOk, true};
ghost use Rattle.wiz_runs.specs.Runs.{TellsAdvice};
ghost use Rattle.wiz_task.specs.inside.Ends.{EndsTask};
ghost use Rattle.wiz_task.specs.inside.Recording.{IsMadeRecording};
ghost use Rattle.wiz_tool.specs.inside.Told.{outcome_written};
ghost use Rattle.wiz_tool.specs.Environment.{around};
ghost use Rattle.wiz_words.specs.Texts.{run_with_texts};
ghost use Rattle.wiz_words.specs.Words.{is_threaded_run};
ghost use Rattle.wiz_runs.specs.Runs.{run_task};

use crate::recording::ready::read_run;
use explanation_text::advice::advice_text;
use plan_advice::{every_cutting_costs, one_advice, plan_cost};
use srr_record::Recording;
use std::alloc::{AllocError, Global};
use wiz_io::{Sink, Store};
use wiz_task::ready::Ready;
use wiz_task::runner::Runner;
use wiz_tool::failure::Failure;
use wiz_tool::report::{Done, Report, tell, text_of_run};
use wiz_tool::status::of_ending;
use wiz_words::command::RunWords;

/// Records what the arguments name, and advises on blocks of at most `most` ranks: `runner` runs the ranks.
pub fn advise<'a, S: Store, K: Sink, R: Runner>(
    alloc: Global,
    run: &RunWords<&'a str>,
    most: u8,
    store: &mut S,
    out: &mut K,
    runner: &R,
) -> Result<Report, Failure<'a>>
    requires some { 0 < most }
    requires threads { R.is_threaded ≡ is_threaded_run (run_with_texts run.now) }
    requires runs { R.runs runner.now }
    ensures { EndsTask (run_task (run_with_texts run.now) (TellsAdvice most)) (around S.observed K.observed store out) result }
{
    let ready = read_run(alloc, run, store)?;
    let recording = runner.record(alloc, &ready)?;
    let done = advise_on(alloc, most, &ready, recording)?;
    let report = tell(done, out)?;
    Ok(report)
}

/// The advice on a recorded run, and what its plan costs.
fn advise_on(
    alloc: Global,
    most: u8,
    ready: &Ready,
    recording: Recording,
) -> Result<Done, AllocError>
    requires some { 0 < most }
    requires made { IsMadeRecording true ready.now recording }
    ensures { IfOk result (λ done. TellsAdvice most (pure_program ready.now.program) ready.now.plan recording (outcome_written [] done)) }
{
    // Laws: a run has one advice, and no cutting costs less, so that what is told of this run is determined and the least.
    one_advice();
    every_cutting_costs();
    let ranks = ready.plan.n();
    let advice = plan_advice::advise(alloc, ranks, &recording.history, most.min(ranks))?;
    let given = plan_cost(alloc, &recording.history, &ready.plan)?;
    let text = advice_text(alloc, &advice, given, &recording.ending)?;
    let status = of_ending(&recording.ending);
    Ok(text_of_run(alloc, text, status, recording))
}
