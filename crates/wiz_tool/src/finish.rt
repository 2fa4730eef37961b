//! The end of a command that writes files.
ghost use Rattle.std.specs.Prelude.{◌≡◌, [], List, IfErr, OnOk};
ghost use Rattle.wiz_io.specs.Files.{ObservedFiles};
ghost use Rattle.wiz_tool.specs.Files.{AreWritten, NamedFile};
ghost use Rattle.wiz_tool.specs.Environment.{Environment, around_of, environment};
ghost use Rattle.wiz_tool.specs.inside.Told.{IsStopped, IsReportedBy, outcome_written};

use crate::report::{Done, Report, tell, tell_unwritten};
use crate::writing::Unwritten;
use std::alloc::{AllocError, Global};
use wiz_io::Sink;

/// Tells what is done where all files are written, else the file that is not.
pub fn finish<K: Sink>(
    alloc: Global,
    written: Result<(), Unwritten>,
    done: Done,
    out: &mut K,
) -> Result<Report, AllocError>
    ensures { (files : List NamedFile) (before : Environment) (store : ObservedFiles) → before.out ≡ K.observed out.old
        → OnOk written (AreWritten before.store.files store.files files [])
        → IfErr written (IsStopped before.store store files)
        → IsReportedBy (outcome_written files done) (around_of before (environment store (K.observed out.new))) result }
{
    match written {
        Ok(()) => tell(done, out),
        Err(Unwritten::Failed(name)) => tell_unwritten(alloc, &name, done.run, done.replays, out),
        Err(Unwritten::OutOfMemory) => Err(AllocError),
    }
}
