//! Files that are written.
ghost use Rattle.std.specs.Prelude.{◌≡◌, ◌≤◌, ◌∷◌, [], IfErr, IfOk, OnOk};
ghost use Rattle.std.specs.String.{string_bytes};
ghost use Rattle.srr_log.specs.Bounds.{IsInBounds};
ghost use Rattle.wiz_tool.specs.Files.{AreWritten};
ghost use Rattle.wiz_tool.specs.LogFiles.{log_files, log_name};
ghost use Rattle.wiz_tool.specs.inside.Told.{IsStopped};

use srr_entry::log::Log;
use srr_log2::write_log2::write_log2;
use std::alloc::{AllocError, Global};
use wiz_io::{Store, WriteFault};

/// Why a file was not written.
#[derive(Drop)]
pub enum Unwritten {
    /// The store failed at the file of this name.
    Failed(String),
    OutOfMemory,
}

impl From<AllocError> for Unwritten {
    ghost use Rattle.std.specs.Prelude.{◌≡◌};
    ghost use Rattle.wiz_tool.specs.declared.writing.Unwritten.TheVariants.{OutOfMemory};

    ghost from_gives = { λ _ why. why ≡ OutOfMemory };

    fn from(_error: AllocError) -> Self {
        Unwritten::OutOfMemory
    }
}

/// Writes the log of a group, in format 2.
pub fn write_log_file<S: Store>(
    alloc: Global,
    prefix: &str,
    group: u64,
    log: &Log,
    store: &mut S,
) -> Result<(), Unwritten>
    requires { IsInBounds log.now }
    ensures ok { OnOk result (AreWritten (S.observed store.old).files (S.observed store.new).files (log_files prefix.now group (log.now ∷ [])) []) }
    ensures stopped { IfErr result (λ why. IsStopped (S.observed store.old) (S.observed store.new) (log_files prefix.now group (log.now ∷ [])) why) }
    ensures reads { (S.observed store.new).reads ≡ (S.observed store.old).reads }
    ensures later { (S.observed store.old).writes ≤ (S.observed store.new).writes }
{
    let name = log_name(alloc, prefix, group)?;
    let text = write_log2(alloc, log)?;
    write_file(alloc, &name, text.as_slice(), store)
}

/// Writes one file.
pub fn write_file<S: Store>(
    alloc: Global,
    name: &str,
    bytes: &[u8],
    store: &mut S,
) -> Result<(), Unwritten>
    ensures ok { OnOk result (AreWritten (S.observed store.old).files (S.observed store.new).files ((record { name = name.now; bytes = bytes.now }) ∷ []) []) }
    ensures stopped { IfErr result (λ why. IsStopped (S.observed store.old) (S.observed store.new) ((record { name = name.now; bytes = bytes.now }) ∷ []) why) }
    ensures reads { (S.observed store.new).reads ≡ (S.observed store.old).reads }
    ensures later { (S.observed store.old).writes ≤ (S.observed store.new).writes }
{
    match store.write(name, bytes) {
        Ok(()) => Ok(()),
        Err(WriteFault::Failed) => Err(Unwritten::Failed(format!(in alloc; "{name}")?)),
        Err(WriteFault::NoMemory) => Err(Unwritten::OutOfMemory),
    }
}

/// The name of a group's log file.
fn log_name(alloc: Global, prefix: &str, group: u64) -> Result<String, AllocError>
    ensures { IfOk result (λ name. string_bytes name ≡ log_name prefix.now group) }
{
    format!(in alloc; "{prefix}.{group}.srr")
}
