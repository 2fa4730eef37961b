//! `waits PROGRAM PLAN [--order FILE] [--serial]`: a run is recorded, and where it is stuck it is told who waits for whom.
ghost use Rattle.c_program.specs.View.{pure_program};
ghost use Rattle.std.specs.Prelude.{◌≡◌, [], IfOk, true};
ghost use Rattle.wiz_runs.specs.Runs.{TellsWaits};
ghost use Rattle.wiz_task.specs.inside.Ends.{EndsTask};
ghost use Rattle.wiz_task.specs.inside.Recording.{IsMadeRecording};
ghost use Rattle.wiz_tool.specs.inside.Told.{outcome_written};
ghost use Rattle.wiz_tool.specs.Environment.{around};
ghost use Rattle.wiz_words.specs.Texts.{run_with_texts};
ghost use Rattle.wiz_words.specs.Words.{is_threaded_run};
ghost use Rattle.wiz_runs.specs.Runs.{run_task};

use crate::recording::ready::read_run;
use explanation_text::waits::waits_text;
use srr_record::Recording;
use std::alloc::{AllocError, Global};
use wait_graph::laws::{has_cause, none_fits, opens_differ, stuck_exactly};
use wait_graph::stuck::graph;
use wiz_io::{Sink, Store};
use wiz_task::ready::Ready;
use wiz_task::runner::Runner;
use wiz_tool::failure::Failure;
use wiz_tool::report::{Done, Report, tell, text_of_run};
use wiz_tool::status::of_ending;
use wiz_words::command::RunWords;

/// Records what the arguments name, and tells who waits for whom: `runner` runs the ranks.
pub fn waits<'a, S: Store, K: Sink, R: Runner>(
    alloc: Global,
    run: &RunWords<&'a str>,
    store: &mut S,
    out: &mut K,
    runner: &R,
) -> Result<Report, Failure<'a>>
    requires threads { R.is_threaded ≡ is_threaded_run (run_with_texts run.now) }
    requires runs { R.runs runner.now }
    ensures { EndsTask (run_task (run_with_texts run.now) TellsWaits) (around S.observed K.observed store out) result }
{
    let ready = read_run(alloc, run, store)?;
    let recording = runner.record(alloc, &ready)?;
    let done = waits_of(alloc, &ready, recording)?;
    let report = tell(done, out)?;
    Ok(report)
}

/// Who waits for whom in a recorded run.
fn waits_of(alloc: Global, ready: &Ready, recording: Recording) -> Result<Done, AllocError>
    requires { IsMadeRecording true ready.now recording }
    ensures { IfOk result (λ done. TellsWaits (pure_program ready.now.program) ready.now.plan recording (outcome_written [] done)) }
{
    let ranks = ready.plan.n();
    // Laws: a run is stuck where no call can go, a stuck run has a reason, and no message that would help lies about.
    stuck_exactly(&ready.program, ranks);
    has_cause(&ready.program, ranks);
    none_fits();
    opens_differ(&ready.program, ranks);
    let graph = graph(alloc, ranks, &recording.history)?;
    let text = waits_text(alloc, ranks, &recording.history, &graph, &recording.ending)?;
    let status = of_ending(&recording.ending);
    Ok(text_of_run(alloc, text, status, recording))
}
