//! `replay LOG [--program FILE] [--break R:C] [--serial]`: the group of a log is replayed.
ghost use Rattle.std.specs.Prelude.{IfOk, OnErr};
ghost use Rattle.wiz_logs.specs.Logs.{replay_outcome};
ghost use Rattle.wiz_tool.specs.Outcomes.{IsPut};
ghost use Rattle.wiz_tool.specs.Output.{GrewByPart};
ghost use Rattle.wiz_trace.specs.TraceTexts.{trace_text};
ghost use Rattle.wiz_task.specs.inside.Ends.{EndsTask};
ghost use Rattle.wiz_tool.specs.Environment.{around};
ghost use Rattle.wiz_words.specs.Texts.{replay_with_texts};
ghost use Rattle.wiz_logs.specs.Logs.{TellsReplay, replay_task};

use crate::replaying::make::one_replay;
use crate::replaying::subject::{read_subject, used_text};
use replay_model::replayed::Replayed;
use std::alloc::{AllocError, Global};
use wiz_io::{Sink, Store};
use wiz_task::replay::replay_text;
use wiz_task::runner::Runner;
use wiz_tool::failure::Failure;
use wiz_tool::report::{Report, tell, text_of_replays};
use wiz_tool::status::of_stands;
use wiz_trace::trace::trace_text;
use wiz_words::command::ReplayWords;

/// Replays what the arguments name: `runner` runs the ranks.
pub fn replay<'a, S: Store, K: Sink, R: Runner>(
    alloc: Global,
    words: &ReplayWords<&'a str>,
    store: &mut S,
    out: &mut K,
    runner: &R,
) -> Result<Report, Failure<'a>>
    requires { R.runs runner.now }
    ensures { EndsTask (replay_task (replay_with_texts words.now) TellsReplay) (around S.observed K.observed store out) result }
{
    let subject = read_subject(alloc, words, store)?;
    let text = used_text(&subject.log, &subject.text);
    let replayed = replay_text(
        alloc,
        &subject.program,
        text,
        &subject.log,
        words.stop,
        runner,
    )?;
    let report = tell_replay(alloc, replayed, out)?;
    Ok(report)
}

/// Tells a replay by its trace.
fn tell_replay<K: Sink>(
    alloc: Global,
    replayed: Replayed,
    out: &mut K,
) -> Result<Report, AllocError>
    ensures put { IfOk result (IsPut (replay_outcome replayed) (K.observed out.old) (K.observed out.new)) }
    ensures err { OnErr result (GrewByPart (K.observed out.old).bytes (K.observed out.new).bytes (trace_text replayed)) }
{
    let text = trace_text(alloc, &replayed)?;
    let status = of_stands(replayed.ends.as_slice());
    let replays = one_replay(alloc, replayed)?;
    tell(text_of_replays(text, status, replays), out)
}
