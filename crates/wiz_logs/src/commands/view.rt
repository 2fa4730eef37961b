//! `watch LOG R NAME`, `at LOG R:C`, `where LOG S.K`: the group of a log is replayed, and what is asked of the replay is told.
ghost use Rattle.std.specs.Prelude.{[], IfOk};
ghost use Rattle.c_program.specs.View.{pure_program};
ghost use Rattle.c_types.specs.Checks.{IsProgramOf};
ghost use Rattle.srr_replay.specs.Rounds.{IsReplayable};
ghost use Rattle.wiz_task.specs.Replayings.{IsReplayOf};
ghost use Rattle.wiz_logs.specs.Views.{TellsView, view_with_texts};
ghost use Rattle.wiz_logs.specs.inside.Replaying.{used_text};
ghost use Rattle.wiz_task.specs.inside.Ends.{EndsTask};
ghost use Rattle.wiz_tool.specs.inside.Told.{outcome_written};
ghost use Rattle.wiz_tool.specs.Environment.{around};
ghost use Rattle.wiz_words.specs.Texts.{replay_with_texts};
ghost use Rattle.wiz_logs.specs.Logs.{view_task};

use crate::replaying::make::one_replay;
use crate::replaying::subject::{Subject, read_subject, used_text};
use crate::viewing::ask::ReplayView;
use crate::viewing::tell::told_text;
use c_program::CProgram;
use c_types::text_fixes_meaning;
use replay_model::replayed::Replayed;
use replay_views::laws::{a_step_back_is_a_part, replays_step_back};
use srr_entry::log::Log;
use std::alloc::{AllocError, Global};
use wiz_io::{Sink, Store};
use wiz_task::replay::replay_text;
use wiz_task::runner::Runner;
use wiz_tool::failure::Failure;
use wiz_tool::report::{Done, Report, tell, text_of_replays};
use wiz_tool::status::{Status, of_stands};
use wiz_trace::trace::trace_text;
use wiz_words::command::ReplayWords;

/// Replays what the arguments name, and tells what is asked of the replay: `runner` runs the ranks.
pub fn view<'a, S: Store, K: Sink, R: Runner>(
    alloc: Global,
    words: &ReplayWords<&'a str>,
    asked: &ReplayView<&'a str>,
    store: &mut S,
    out: &mut K,
    runner: &R,
) -> Result<Report, Failure<'a>>
    requires { R.runs runner.now }
    ensures { EndsTask (view_task (replay_with_texts words.now) (view_with_texts asked.now)) (around S.observed K.observed store out) result }
{
    let subject = read_subject(alloc, words, store)?;
    let done = view_subject(alloc, &subject, words.stop, asked, runner)?;
    let report = tell(done, out)?;
    Ok(report)
}

/// Replays a log, and tells what is asked of the replay.
fn view_subject<R: Runner>(
    alloc: Global,
    subject: &Subject,
    stop: Option<(u8, u32)>,
    asked: &ReplayView<&str>,
    runner: &R,
) -> Result<Done, AllocError>
    requires program { IsProgramOf (used_text subject.now.log subject.now.text) (pure_program subject.now.program) }
    requires log { IsReplayable subject.now.log }
    requires runs { R.runs runner.now }
    ensures { IfOk result (λ done. TellsView (used_text subject.now.log subject.now.text) subject.now.log stop (view_with_texts asked.now) (outcome_written [] done)) }
{
    let text = used_text(&subject.log, &subject.text);
    let replayed = replay_text(alloc, &subject.program, text, &subject.log, stop, runner)?;
    viewed(
        alloc,
        &subject.program,
        text,
        &subject.log,
        stop,
        asked,
        replayed,
    )
}

/// What is asked of a replay, or its trace where it is not done.
fn viewed(
    alloc: Global,
    program: &CProgram,
    text: &[u8],
    log: &Log,
    stop: Option<(u8, u32)>,
    asked: &ReplayView<&str>,
    replayed: Replayed,
) -> Result<Done, AllocError>
    requires program { IsProgramOf text.now (pure_program program.now) }
    requires log { IsReplayable log.now }
    requires replay { IsReplayOf text.now log.now stop replayed }
    ensures { IfOk result (λ done. TellsView text.now log.now stop (view_with_texts asked.now) (outcome_written [] done)) }
{
    // Laws: all programs of a text mean the same, and what is before an earlier place is a part of what is before a later one, also beside a
    // run with the log.
    text_fixes_meaning(program, text);
    a_step_back_is_a_part();
    replays_step_back(program, log);
    match of_stands(replayed.ends.as_slice()) {
        Status::Done => {
            let told = told_text(alloc, program, log, asked, &replayed)?;
            let replays = one_replay(alloc, replayed)?;
            Ok(text_of_replays(told, Status::Done, replays))
        }
        status => {
            let told = trace_text(alloc, &replayed)?;
            let replays = one_replay(alloc, replayed)?;
            Ok(text_of_replays(told, status, replays))
        }
    }
}
