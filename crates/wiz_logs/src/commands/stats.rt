//! `stats LOG`: the entries of a log are counted.
ghost use Rattle.wiz_task.specs.inside.Ends.{EndsTask};
ghost use Rattle.wiz_tool.specs.Environment.{around};
ghost use Rattle.wiz_logs.specs.Logs.{log_task};
ghost use Rattle.wiz_tool.specs.Outcomes.{text_outcome};
ghost use Rattle.wiz_trace.specs.StatsTexts.{stats_text};

use crate::replaying::subject::read_log_file;
use std::alloc::Global;
use wiz_io::{Sink, Store};
use wiz_tool::failure::Failure;
use wiz_tool::report::{Report, tell, text_alone};
use wiz_trace::stats::stats_text;

/// Counts the entries of the log of this file.
pub fn stats<'a, S: Store, K: Sink>(
    alloc: Global,
    name: &'a str,
    store: &mut S,
    out: &mut K,
) -> Result<Report, Failure<'a>>
    ensures { EndsTask (log_task name.now (λ log. text_outcome (stats_text log))) (around S.observed K.observed store out) result }
{
    let log = read_log_file(alloc, name, store)?;
    let text = stats_text(alloc, &log)?;
    let report = tell(text_alone(alloc, text), out)?;
    Ok(report)
}
