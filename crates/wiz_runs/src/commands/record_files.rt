//! The files that a recording writes.
ghost use Rattle.std.specs.Prelude.{◌≡◌, ◌+◌, ◌<◌, ◌≤◌, ◌^◌, ◌∷◌, [], IfErr, IfOk, OnOk, length};
ghost use Rattle.std.specs.String.{string_bytes};
ghost use Rattle.explanation_text.specs.OrderTexts.{order_text};
ghost use Rattle.wiz_tool.specs.Files.{AreWritten};
ghost use Rattle.wiz_runs.specs.RecordFiles.{recording_files, order_name};
ghost use Rattle.wiz_tool.specs.LogFiles.{log_files};
ghost use Rattle.wiz_task.specs.inside.Recording.{AreInBounds};
ghost use Rattle.wiz_tool.specs.inside.Told.{IsStopped};

use explanation_text::order::order_text;
use picked_runs::picks::Picks;
use run_model::history::History;
use srr_entry::log::Log;
use srr_record::Recording;
use std::alloc::{AllocError, Global};
use wiz_io::Store;
use wiz_tool::writing::{Unwritten, write_file, write_log_file};

/// Writes the log of each group, in format 2, and then the order of the run with what it picked.
pub fn write_files<S: Store>(
    alloc: Global,
    prefix: &str,
    recording: &Recording,
    store: &mut S,
) -> Result<(), Unwritten>
    requires in_bounds { AreInBounds recording.now.logs }
    requires few { length recording.now.logs < 2 ^ 32 }
    ensures ok { OnOk result (AreWritten (S.observed store.old).files (S.observed store.new).files (recording_files prefix.now recording.now) []) }
    ensures stopped { IfErr result (λ why. IsStopped (S.observed store.old) (S.observed store.new) (recording_files prefix.now recording.now) why) }
    ensures reads { (S.observed store.new).reads ≡ (S.observed store.old).reads }
{
    write_logs(alloc, prefix, 0, recording.logs.as_slice(), store)?;
    write_order(alloc, prefix, &recording.history, &recording.picks, store)
}

/// Writes the logs of the groups from `group` on, at most 64.
fn write_logs<S: Store>(
    alloc: Global,
    prefix: &str,
    group: u64,
    logs: &[Log],
    store: &mut S,
) -> Result<(), Unwritten>
    requires in_bounds { AreInBounds logs.now }
    requires few { group + length logs.now < 2 ^ 32 }
    ensures ok { OnOk result (AreWritten (S.observed store.old).files (S.observed store.new).files (log_files prefix.now group logs.now) []) }
    ensures stopped { IfErr result (λ why. IsStopped (S.observed store.old) (S.observed store.new) (log_files prefix.now group logs.now) why) }
    ensures reads { (S.observed store.new).reads ≡ (S.observed store.old).reads }
    ensures later { (S.observed store.old).writes ≤ (S.observed store.new).writes }
{
    match logs {
        [] => Ok(()),
        [log, others @ ..] => {
            write_log_file(alloc, prefix, group, log, store)?;
            write_logs(alloc, prefix, group + 1, others, store)
        }
    }
}

fn write_order<S: Store>(
    alloc: Global,
    prefix: &str,
    history: &History,
    picks: &Picks,
    store: &mut S,
) -> Result<(), Unwritten>
    ensures ok { OnOk result (AreWritten (S.observed store.old).files (S.observed store.new).files ((record { name = order_name prefix.now; bytes = order_text history.now.events picks.now.written }) ∷ []) []) }
    ensures stopped { IfErr result (λ why. IsStopped (S.observed store.old) (S.observed store.new) ((record { name = order_name prefix.now; bytes = order_text history.now.events picks.now.written }) ∷ []) why) }
    ensures reads { (S.observed store.new).reads ≡ (S.observed store.old).reads }
    ensures later { (S.observed store.old).writes ≤ (S.observed store.new).writes }
{
    let name = order_name(alloc, prefix)?;
    let text = order_text(alloc, history, picks)?;
    write_file(alloc, &name, text.as_slice(), store)
}

/// The name of the order file.
fn order_name(alloc: Global, prefix: &str) -> Result<String, AllocError>
    ensures { IfOk result (λ name. string_bytes name ≡ order_name prefix.now) }
{
    format!(in alloc; "{prefix}.order")
}
