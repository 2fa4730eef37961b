//! `picture PROGRAM PLAN FILE [--order FILE] [--trace] [--serial]`: a run is recorded, and one picture of it is written.
ghost use Rattle.c_program.specs.View.{pure_program};
ghost use Rattle.std.specs.Prelude.{◌≡◌, IfOk, None, Some, true};
ghost use Rattle.causes.specs.Clocks.{AreOfRanks};
ghost use Rattle.clap.specs.Words.{Text};
ghost use Rattle.run_drawing.specs.Drawings.{IsDrawing};
ghost use Rattle.wiz_runs.specs.Pictures.{IsDrawingOf, IsPictureOf, drawing_text, picture_outcome, picture_over_text};
ghost use Rattle.wiz_task.specs.inside.Ends.{EndsTask};
ghost use Rattle.wiz_task.specs.inside.Recording.{IsMadeRecording};
ghost use Rattle.wiz_io.specs.Files.{ObservedFiles};
ghost use Rattle.wiz_tool.specs.Environment.{around, around_of, environment};
ghost use Rattle.wiz_tool.specs.inside.Told.{IsReportedBy};
ghost use Rattle.wiz_words.specs.Texts.{run_with_texts};
ghost use Rattle.wiz_words.specs.Words.{is_threaded_run};
ghost use Rattle.wiz_runs.specs.Runs.{run_task};
ghost use Rattle.wiz_runs.specs.Pictures.{TellsPicture};

use crate::recording::ready::read_run;
use run_drawing::draw::draw;
use run_drawing::drawing::Drawing;
use run_drawing::laws::{arrows_go_right, columns_rise, lanes_rise, same_drawing, same_mates};
use srr_record::Recording;
use std::alloc::{AllocError, Global};
use svg_text::svg::svg_text;
use trace_json::json::trace_json;
use trace_json::laws::spans_are_disjoint;
use wait_graph::stuck::graph;
use wiz_base::{Bytes, push_decimal, push_text};
use wiz_io::{Sink, Store};
use wiz_task::ready::Ready;
use wiz_task::runner::Runner;
use wiz_tool::failure::Failure;
use wiz_tool::finish::finish;
use wiz_tool::report::{Report, tell, text_of_run};
use wiz_tool::status::{Status, of_ending};
use wiz_tool::writing::write_file;
use wiz_words::command::RunWords;

/// The most events of a run whose picture is SVG.
pub const MOST_DRAWN: u32 = 4_000;

/// Records what the arguments name, and writes a picture of the run to a file, as trace events where `is_trace`, else as SVG: `runner`
/// runs the ranks.
pub fn picture<'a, S: Store, K: Sink, R: Runner>(
    alloc: Global,
    run: &RunWords<&'a str>,
    file: &str,
    is_trace: bool,
    store: &mut S,
    out: &mut K,
    runner: &R,
) -> Result<Report, Failure<'a>>
    requires threads { R.is_threaded ≡ is_threaded_run (run_with_texts run.now) }
    requires runs { R.runs runner.now }
    ensures { EndsTask (run_task (run_with_texts run.now) (TellsPicture file.now is_trace)) (around S.observed K.observed store out) result }
{
    let ready = read_run(alloc, run, store)?;
    let recording = runner.record(alloc, &ready)?;
    let picture = picture_of(alloc, &ready, is_trace, &recording)?;
    let report = write(alloc, file, picture, recording, store, out)?;
    Ok(report)
}

/// The picture of a recorded run; none where it has too many events.
fn picture_of(
    alloc: Global,
    ready: &Ready,
    is_trace: bool,
    recording: &Recording,
) -> Result<Option<Bytes>, AllocError>
    requires { IsMadeRecording true ready.now recording.now }
    ensures { IfOk result (IsPictureOf is_trace (pure_program ready.now.program) ready.now.plan recording.now) }
{
    if !is_trace && recording.history.len() > MOST_DRAWN {
        return Ok(None);
    }
    let drawing = draw(alloc, &ready.plan, &recording.history)?;
    all_goes_right(ready, recording, &drawing);
    let text = drawing_text(alloc, ready.plan.n(), is_trace, recording, &drawing)?;
    Ok(Some(text))
}

/// Laws: what holds of the drawing of a recorded run.
fn all_goes_right(ready: &Ready, recording: &Recording, drawing: &Drawing)
    requires made { IsMadeRecording true ready.now recording.now }
    requires drawn { IsDrawing ready.now.plan recording.now.history.events drawing.now }
    ensures { IsDrawingOf (pure_program ready.now.program) ready.now.plan recording.now.history.events drawing.now }
{
    columns_rise();
    arrows_go_right();
    lanes_rise(&ready.program);
    spans_are_disjoint(&ready.program);
    same_drawing(&ready.program);
    same_mates(&ready.program);
}

/// The text of a drawing of a run of n ranks.
fn drawing_text(
    alloc: Global,
    n: u8,
    is_trace: bool,
    recording: &Recording,
    drawing: &Drawing,
) -> Result<Bytes, AllocError>
    requires { AreOfRanks n recording.now.history.events }
    ensures { IfOk result (λ text. text ≡ drawing_text is_trace n recording.now drawing.now) }
{
    if is_trace {
        return trace_json(alloc, &recording.history, drawing);
    }
    let graph = graph(alloc, n, &recording.history)?;
    svg_text(
        alloc,
        &recording.history,
        drawing,
        &graph,
        &recording.ending,
        &recording.outputs,
    )
}

/// Writes the picture, where there is one.
fn write<S: Store, K: Sink>(
    alloc: Global,
    file: &str,
    picture: Option<Bytes>,
    recording: Recording,
    store: &mut S,
    out: &mut K,
) -> Result<Report, AllocError>
    ensures told { IsReportedBy (picture_outcome file.now recording picture) (around S.observed K.observed store out) result }
    ensures reads { (S.observed store.new).reads ≡ (S.observed store.old).reads }
{
    match picture {
        Some(text) => write_picture(alloc, file, text.as_slice(), recording, store, out),
        None => tell_over(alloc, recording, out),
    }
}

/// Writes the file. Nothing is put out but that it could not be written.
fn write_picture<S: Store, K: Sink>(
    alloc: Global,
    file: &str,
    text: &[u8],
    recording: Recording,
    store: &mut S,
    out: &mut K,
) -> Result<Report, AllocError>
    ensures told { IsReportedBy (picture_outcome file.now recording (Some text.now)) (around S.observed K.observed store out) result }
    ensures reads { (S.observed store.new).reads ≡ (S.observed store.old).reads }
{
    let status = of_ending(&recording.ending);
    let written = write_file(alloc, file, text, store);
    let done = text_of_run(alloc, Bytes::new(alloc), status, recording);
    finish(alloc, written, done, out)
}

/// Tells that a run has too many events. No file is touched.
fn tell_over<K: Sink>(
    alloc: Global,
    recording: Recording,
    out: &mut K,
) -> Result<Report, AllocError>
    ensures { (file : Text) (store : ObservedFiles)
        → IsReportedBy (picture_outcome file recording None) (around_of (environment store (K.observed out.old)) (environment store (K.observed out.new))) result }
{
    let text = picture_over(alloc)?;
    let done = text_of_run(alloc, text, Status::TooMany, recording);
    tell(done, out)
}

/// The message of such a run.
fn picture_over(alloc: Global) -> Result<Bytes, AllocError>
    ensures { IfOk result (λ text. text ≡ picture_over_text) }
{
    let mut text = Bytes::new(alloc);
    push_text(&mut text, b"picture over ")?;
    push_decimal(&mut text, MOST_DRAWN as u64)?;
    push_text(&mut text, b"\n")?;
    Ok(text)
}
