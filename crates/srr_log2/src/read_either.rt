//! Reading a log of either format.
ghost use Rattle.std.specs.Prelude.{◌≡◌, ◌<◌, ◌^◌, ◌⊎◌, ◌++◌, [], ℕ, List, IfOk, IfErr, MatchResult, length};
ghost use Rattle.srr_entry.specs.declared.log.Log.{Log};
ghost use Rattle.srr_log.specs.declared.fault.LogFault.{LogFault};
ghost use Rattle.srr_log.specs.Faults.{no_memory};
ghost use Rattle.srr_log2.specs.Formats.{IsFaultOfLog, IsTextOfLog, LogsHaveOneReading, is_format2};

use crate::read_log2::read_log2;
use srr_entry::log::Log;
use srr_log::fault::LogFault;
use srr_log::read_log::read_log;
use std::alloc::Global;

/// Whether a text is read as one of format 2: its first five bytes choose.
fn is_format2(text: &[u8]) -> bool
    ensures { result ≡ is_format2 text.now }
{
    &text[..text.len().min(5)] == b"srr 2".as_slice()
}

/// Reads a log of either format: as one of format 2 if its first five bytes are `srr 2`, and else as one of format 1. Takes time
/// linear in the text and the log, and memory linear in the log.
pub fn read_either(alloc: Global, text: &[u8]) -> Result<Log, LogFault>
    requires { length text.now < 2 ^ 32 }
    ensures log { IfOk result (λ log. IsTextOfLog text.now log) }
    ensures fault { IfErr result (λ fault. (fault ≡ no_memory) ⊎ IsFaultOfLog text.now fault) }
    ensures only_log { (log : Log) → IsTextOfLog text.now log
        → MatchResult result (λ found. found ≡ log) (λ fault. fault ≡ no_memory) }
    ensures only_fault { (first : LogFault) → IsFaultOfLog text.now first
        → MatchResult result (λ _. ⊥) (λ fault. (fault ≡ no_memory) ⊎ (fault ≡ first)) }
{
    if is_format2(text) {
        read_log2(alloc, text)
    } else {
        read_log(alloc, text)
    }
}

/// In either format, different logs have different texts, and none begins another. Each text has one log or one first fault,
/// never both.
pub fn either_has_one_reading()
    ensures alone { (text more : List ℕ) (log other : Log)
        → IsTextOfLog text log → IsTextOfLog (text ++ more) other → (log ≡ other) × (more ≡ []) }
    ensures logs { LogsHaveOneReading }
{}
