//! How replays that are not done are told.
ghost use Rattle.std.specs.Prelude.{IfOk, OnErr};
ghost use Rattle.wiz_tool.specs.Outcomes.{IsPut};
ghost use Rattle.wiz_tool.specs.Output.{GrewByPart};
ghost use Rattle.wiz_logs.specs.Regroupings.{traces_outcome};
ghost use Rattle.wiz_trace.specs.TraceTexts.{traces_text};

use replay_model::replayed::Replays;
use std::alloc::{AllocError, Global};
use wiz_io::Sink;
use wiz_tool::report::{Report, tell, text_of_replays};
use wiz_tool::status::Status;
use wiz_trace::trace::traces_text;

/// Tells replays by their traces.
pub fn tell_traces<K: Sink>(
    alloc: Global,
    status: Status,
    replays: Replays,
    out: &mut K,
) -> Result<Report, AllocError>
    ensures put { IfOk result (IsPut (traces_outcome status replays) (K.observed out.old) (K.observed out.new)) }
    ensures err { OnErr result (GrewByPart (K.observed out.old).bytes (K.observed out.new).bytes (traces_text replays)) }
{
    let text = traces_text(alloc, &replays)?;
    tell(text_of_replays(text, status, replays), out)
}
