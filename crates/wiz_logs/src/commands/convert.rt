//! `convert LOG FILE [--text]`: a log is written in another format.
ghost use Rattle.std.specs.Prelude.{◌≡◌, IfOk};
ghost use Rattle.srr_log.specs.Bounds.{IsInBounds};
ghost use Rattle.wiz_logs.specs.Logs.{convert_outcome, converted};
ghost use Rattle.wiz_task.specs.inside.Ends.{EndsTask};
ghost use Rattle.wiz_tool.specs.inside.Told.{IsReportedBy};
ghost use Rattle.wiz_tool.specs.Environment.{around};
ghost use Rattle.wiz_logs.specs.Logs.{log_task};

use crate::replaying::subject::read_log_file;
use srr_entry::log::Log;
use srr_log::write_log::write_log;
use srr_log2::write_log2::write_log2;
use std::alloc::{AllocError, Global};
use wiz_base::Bytes;
use wiz_io::{Sink, Store};
use wiz_tool::failure::Failure;
use wiz_tool::finish::finish;
use wiz_tool::report::{Report, text_alone};
use wiz_tool::writing::write_file;

/// Writes the log of one file to another: in format 1 where `is_text`, else in format 2.
pub fn convert<'a, S: Store, K: Sink>(
    alloc: Global,
    name: &'a str,
    file: &str,
    is_text: bool,
    store: &mut S,
    out: &mut K,
) -> Result<Report, Failure<'a>>
    ensures { EndsTask (log_task name.now (λ log. convert_outcome file.now (converted is_text log))) (around S.observed K.observed store out) result }
{
    let log = read_log_file(alloc, name, store)?;
    let bytes = converted(alloc, &log, is_text)?;
    let report = write(alloc, file, bytes.as_slice(), store, out)?;
    Ok(report)
}

/// The text of a log, in format 1 where `is_text`, else in format 2.
fn converted(alloc: Global, log: &Log, is_text: bool) -> Result<Bytes, AllocError>
    requires { IsInBounds log.now }
    ensures { IfOk result (λ text. text ≡ converted is_text log.now) }
{
    if is_text {
        write_log(alloc, log)
    } else {
        write_log2(alloc, log)
    }
}

/// Writes the file. Nothing is put out but that it could not be written.
fn write<S: Store, K: Sink>(
    alloc: Global,
    file: &str,
    bytes: &[u8],
    store: &mut S,
    out: &mut K,
) -> Result<Report, AllocError>
    ensures told { IsReportedBy (convert_outcome file.now bytes.now) (around S.observed K.observed store out) result }
    ensures reads { (S.observed store.new).reads ≡ (S.observed store.old).reads }
{
    let written = write_file(alloc, file, bytes, store);
    let done = text_alone(alloc, Bytes::new(alloc));
    finish(alloc, written, done, out)
}
