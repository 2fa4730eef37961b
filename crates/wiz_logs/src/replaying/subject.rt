//! What is replayed.
ghost use Rattle.std.specs.Prelude.{◌≡◌, ◌≤◌, ◌∷◌, [], List, ℕ, IfErr, IfOk, IfSome, length};
ghost use Rattle.srr_log.specs.declared.limits.TheConstants.{MOST_LOG_BYTES};
ghost use Rattle.std.specs.Option.{option_to_list};
ghost use Rattle.wiz_logs.specs.Logs.{IsLogOf, log_requirements, replay_inputs, replay_requirements};
ghost use Rattle.wiz_task.specs.Tasks.{IsRefusedBy};
ghost use Rattle.wiz_tool.specs.Inputs.{AreHeld, input, text_limit};
ghost use Rattle.wiz_task.specs.inside.Refusals.{IsUnmetIn};
ghost use Rattle.wiz_logs.specs.inside.Replaying.{IsSubjectOf, used_text};
ghost use Rattle.wiz_tool.specs.inside.Told.{IsFailureBy};
ghost use Rattle.wiz_words.specs.Texts.{replay_with_texts};

use c_program::CProgram;
use srr_entry::log::Log;
use srr_log::limits::MOST_LOG_BYTES;
use std::alloc::Global;
use wiz_base::Bytes;
use wiz_io::Store;
use wiz_task::accept::{log_in, program_in};
use wiz_tool::failure::Failure;
use wiz_tool::inputs::{TEXT_LIMIT, read_input, read_option};
use wiz_words::command::ReplayWords;

/// What is replayed: a log, the text of another program for it, and the program.
#[derive(Drop)]
pub struct Subject {
    pub log: Log,
    /// The text of the program, where it is not that in the log.
    pub text: Option<Bytes>,
    pub program: CProgram,
}

/// Reads the input files in order: the log and the program; and then what they hold, in the same order.
pub fn read_subject<'a, S: Store>(
    alloc: Global,
    replay: &ReplayWords<&'a str>,
    store: &mut S,
) -> Result<Subject, Failure<'a>>
    ensures subject { IfOk result (λ subject. (texts : List (List ℕ)) × AreHeld (S.observed store.old).files (replay_inputs (replay_with_texts replay.now)) texts × IsSubjectOf texts subject) }
    ensures refused { IfErr result (IsFailureBy (IsRefusedBy (S.observed store.old) (S.observed store.new) (replay_inputs (replay_with_texts replay.now)) replay_requirements)) }
    ensures files { (S.observed store.new).files ≡ (S.observed store.old).files }
    ensures writes { (S.observed store.new).writes ≡ (S.observed store.old).writes }
{
    let bytes = read_input(replay.log, MOST_LOG_BYTES, store)?;
    let text = read_option(replay.program, TEXT_LIMIT, store)?;
    let subject = accept_subject(alloc, bytes.as_slice(), text)?;
    Ok(subject)
}

/// The log of these bytes, and its program or that of another text.
fn accept_subject(
    alloc: Global,
    bytes: &[u8],
    text: Option<Bytes>,
) -> Result<Subject, Failure<'static>>
    requires bytes { length bytes.now ≤ MOST_LOG_BYTES }
    requires text { IfSome text (λ text. length text ≤ text_limit) }
    ensures subject { IfOk result (IsSubjectOf (bytes.now ∷ option_to_list text)) }
    ensures refused { IfErr result (IsFailureBy (IsUnmetIn (replay_requirements (bytes.now ∷ option_to_list text)))) }
{
    let log = log_in(alloc, bytes)?;
    let program = program_in(alloc, used_text(&log, &text))?;
    Ok(Subject { log, text, program })
}

/// The text of the program with which a log is replayed.
pub fn used_text<'a>(log: &'a Log, text: &'a Option<Bytes>) -> &'a [u8]
    ensures { result.now ≡ used_text log.now text.now }
{
    match text {
        Some(text) => text.as_slice(),
        None => log.program.as_slice(),
    }
}

/// Reads the log of a file.
pub fn read_log_file<'a, S: Store>(
    alloc: Global,
    name: &'a str,
    store: &mut S,
) -> Result<Log, Failure<'a>>
    ensures log { IfOk result (λ log. (texts : List (List ℕ)) × AreHeld (S.observed store.old).files (input MOST_LOG_BYTES name.now ∷ []) texts × IsLogOf texts log) }
    ensures refused { IfErr result (IsFailureBy (IsRefusedBy (S.observed store.old) (S.observed store.new) (input MOST_LOG_BYTES name.now ∷ []) log_requirements)) }
    ensures files { (S.observed store.new).files ≡ (S.observed store.old).files }
    ensures writes { (S.observed store.new).writes ≡ (S.observed store.old).writes }
{
    let bytes = read_input(name, MOST_LOG_BYTES, store)?;
    let log = log_in(alloc, bytes.as_slice())?;
    Ok(log)
}
