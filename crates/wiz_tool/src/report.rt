//! What the top call answers, and how it is told.
ghost use Rattle.std.specs.Prelude.{◌≡◌, [], List, IfOk, None, OnErr, OnOk};
ghost use Rattle.wiz_tool.specs.Outcomes.{run_outcome, text_outcome, IsPut, out_of_memory};
ghost use Rattle.wiz_tool.specs.Files.{NamedFile};
ghost use Rattle.wiz_tool.specs.Messages.{unwritten_text};
ghost use Rattle.wiz_tool.specs.Output.{GrewByPart, HasSaid};
ghost use Rattle.wiz_tool.specs.Statuses.{status_number};
ghost use Rattle.wiz_tool.specs.inside.Told.{IsRefusalReported, IsReportSettled, outcome_written};
ghost use Rattle.wiz_tool.specs.declared.status.Status.TheVariants.{Unwritten};

use crate::failure::Failure;
use crate::message::{message, push_about_file};
use crate::refusal::Refusal;
use crate::status::{Status, of_refusal};
use replay_model::replayed::Replays;
use run_model::history::History;
use srr_record::Recording;
use std::alloc::{AllocError, Global};
use wiz_base::Bytes;
use wiz_io::{PutFault, Sink};

/// The outcome of a command.
#[derive(Drop)]
pub struct Report {
    /// The exit status, by its number.
    pub status: u8,
    /// The run that was recorded: of `record`, `check`, `advise`, `demo` and `waits` where the status is 0, 4 or 7, of `races` and `picture` also where it
    /// is 14.
    pub run: Option<History>,
    /// The replays that were made: of `replay` and `refine` one where the status is 0, 4, 9 or 10, of `join` two; of `check` and `demo` one
    /// for each group where it is 0, 4 or 7.
    pub replayed: Replays,
}

impl Report {
    /// A report of this status. Takes no memory.
    pub fn new(status: Status, run: Option<History>, replayed: Replays) -> Self
        ensures { result ≡ record { status = status_number status; run = run; replayed = replayed } }
    {
        Report {
            status: status.number(),
            run,
            replayed,
        }
    }
}

/// What a command tells and keeps, when its files are written.
#[derive(Drop)]
pub struct Done {
    pub text: Bytes,
    pub status: Status,
    pub run: Option<History>,
    pub replays: Replays,
}

/// A text, told with status 0.
pub fn text_alone(alloc: Global, text: Bytes) -> Done
    ensures { outcome_written [] result ≡ text_outcome text }
{
    Done {
        text,
        status: Status::Done,
        run: None,
        replays: Replays::new(alloc),
    }
}

/// A text of a run, told with a status. There are no replays.
pub fn text_of_run(alloc: Global, text: Bytes, status: Status, recording: Recording) -> Done
    ensures { outcome_written [] result ≡ run_outcome status text recording [] }
{
    Done {
        text,
        status,
        run: Some(recording.history),
        replays: Replays::new(alloc),
    }
}

/// A text of replays, told with a status. There is no run.
pub fn text_of_replays(text: Bytes, status: Status, replays: Replays) -> Done
    ensures { result ≡ record { text = text; status = status; run = None; replays = replays } }
{
    Done {
        text,
        status,
        run: None,
        replays,
    }
}

/// Puts the text out, and reports the rest. Of an empty text there is nothing to put.
#[tactic(auto, using(crate::proofs::TellLemmas::empty_put))]
pub fn tell<K: Sink>(done: Done, out: &mut K) -> Result<Report, AllocError>
    ensures put { IfOk result (λ report. (files : List NamedFile) → IsPut (outcome_written files done) (K.observed out.old) (K.observed out.new) report) }
    ensures err { OnErr result (GrewByPart (K.observed out.old).bytes (K.observed out.new).bytes done.text) }
{
    if done.text.is_empty() {
        return Ok(Report::new(done.status, done.run, done.replays));
    }
    let status = match out.put(done.text.as_slice()) {
        Ok(()) => done.status,
        Err(PutFault::Failed) => done.status.unput(),
        Err(PutFault::NoMemory) => return Err(AllocError),
    };
    Ok(Report::new(status, done.run, done.replays))
}

/// Puts a message out. A fault of the sink changes no status.
pub fn put_message<K: Sink>(text: &[u8], out: &mut K) -> Result<(), AllocError>
    ensures said { OnOk result (HasSaid (K.observed out.old) (K.observed out.new) text.now) }
    ensures err { OnErr result (GrewByPart (K.observed out.old).bytes (K.observed out.new).bytes text.now) }
{
    match out.put(text) {
        Ok(()) | Err(PutFault::Failed) => Ok(()),
        Err(PutFault::NoMemory) => Err(AllocError),
    }
}

/// Tells work of which a file was not written.
pub fn tell_unwritten<K: Sink>(
    alloc: Global,
    name: &str,
    run: Option<History>,
    replays: Replays,
    out: &mut K,
) -> Result<Report, AllocError>
    ensures said { IfOk result (λ report. HasSaid (K.observed out.old) (K.observed out.new) (unwritten_text name.now) × (report ≡ record { status = status_number Unwritten; run = run; replayed = replays })) }
    ensures err { OnErr result (GrewByPart (K.observed out.old).bytes (K.observed out.new).bytes (unwritten_text name.now)) }
{
    let mut text = Bytes::new(alloc);
    push_about_file(&mut text, b"cannot write ", name)?;
    put_message(text.as_slice(), out)?;
    Ok(Report::new(Status::Unwritten, run, replays))
}

/// The report of a command that came to its end, or else what it failed by, told.
pub fn settle<K: Sink>(alloc: Global, answered: Result<Report, Failure<'_>>, out: &mut K) -> Report
    ensures { IsReportSettled answered.entry (K.observed out.old) (K.observed out.new) result }
{
    match answered {
        Ok(report) => report,
        Err(Failure::Refused { refusal, name }) => refuse(alloc, refusal, name, out),
        Err(Failure::OutOfMemory) => out_of_memory(alloc),
    }
}

/// The report when memory is out. Takes no memory.
fn out_of_memory(alloc: Global) -> Report
    ensures { result ≡ out_of_memory }
{
    Report::new(Status::OutOfMemory, None, Replays::new(alloc))
}

/// Tells a refusal.
fn refuse<K: Sink>(alloc: Global, refusal: Refusal, name: &str, out: &mut K) -> Report
    ensures { IsRefusalReported (record { refusal = refusal; name = name.now }) (K.observed out.old) (K.observed out.new) result }
{
    let Ok(text) = message(alloc, refusal, name) else {
        return out_of_memory(alloc);
    };
    let done = Done {
        text,
        status: of_refusal(refusal),
        run: None,
        replays: Replays::new(alloc),
    };
    match tell(done, out) {
        Ok(report) => report,
        Err(_) => out_of_memory(alloc),
    }
}
