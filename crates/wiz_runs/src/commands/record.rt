//! `record PROGRAM PLAN PREFIX [--order FILE] [--serial]`: a run is recorded, and the log of each group and the order are written.
ghost use Rattle.std.specs.Prelude.{◌≡◌, ◌≤◌, length};
ghost use Rattle.mpi_call.specs.declared.limits.TheConstants.{MOST_RANKS};
ghost use Rattle.wiz_runs.specs.Runs.{record_outcome};
ghost use Rattle.wiz_task.specs.inside.Ends.{EndsTask};
ghost use Rattle.wiz_task.specs.inside.Recording.{AreInBounds};
ghost use Rattle.wiz_tool.specs.inside.Told.{IsReportedBy};
ghost use Rattle.wiz_tool.specs.Environment.{around};
ghost use Rattle.wiz_words.specs.Texts.{run_with_texts};
ghost use Rattle.wiz_words.specs.Words.{is_threaded_run};
ghost use Rattle.wiz_runs.specs.Runs.{TellsRecord, run_task};

use crate::commands::record_files::write_files;
use crate::recording::ready::read_run;
use run_text::recording::record_text;
use srr_record::Recording;
use std::alloc::{AllocError, Global};
use wiz_io::{Sink, Store};
use wiz_task::runner::Runner;
use wiz_tool::failure::Failure;
use wiz_tool::finish::finish;
use wiz_tool::report::{Report, text_of_run};
use wiz_tool::status::of_ending;
use wiz_words::command::RunWords;

/// Records what the arguments name: `runner` runs the ranks.
pub fn record<'a, S: Store, K: Sink, R: Runner>(
    alloc: Global,
    run: &RunWords<&'a str>,
    prefix: &str,
    store: &mut S,
    out: &mut K,
    runner: &R,
) -> Result<Report, Failure<'a>>
    requires threads { R.is_threaded ≡ is_threaded_run (run_with_texts run.now) }
    requires runs { R.runs runner.now }
    ensures { EndsTask (run_task (run_with_texts run.now) (TellsRecord prefix.now)) (around S.observed K.observed store out) result }
{
    let ready = read_run(alloc, run, store)?;
    let recording = runner.record(alloc, &ready)?;
    let report = write(alloc, prefix, recording, store, out)?;
    Ok(report)
}

/// Writes the files of a recording and tells it.
fn write<S: Store, K: Sink>(
    alloc: Global,
    prefix: &str,
    recording: Recording,
    store: &mut S,
    out: &mut K,
) -> Result<Report, AllocError>
    requires in_bounds { AreInBounds recording.logs }
    requires few { length recording.logs ≤ MOST_RANKS }
    ensures told { IsReportedBy (record_outcome prefix.now recording) (around S.observed K.observed store out) result }
    ensures reads { (S.observed store.new).reads ≡ (S.observed store.old).reads }
{
    let text = record_text(alloc, &recording.outputs, &recording.ending)?;
    let status = of_ending(&recording.ending);
    let written = write_files(alloc, prefix, &recording, store);
    let done = text_of_run(alloc, text, status, recording);
    finish(alloc, written, done, out)
}
