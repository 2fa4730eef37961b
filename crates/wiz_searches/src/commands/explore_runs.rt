//! `explore PROGRAM PLAN PREFIX [--most N] [--polls K] [--under FILE]`: every outcome that the runs of a program have is listed, with an order
//! that makes it again.
ghost use Rattle.std.specs.Prelude.{◌≡◌};
ghost use Rattle.std.specs.List.{list_any};
ghost use Rattle.explore.specs.declared.found.FoundOutcome.{FoundOutcome};
ghost use Rattle.wiz_searches.specs.Explorations.{is_exploration_complete, is_halted, of_search, search_outcome, search_task};
ghost use Rattle.wiz_task.specs.inside.Ends.{EndsTask};
ghost use Rattle.wiz_tool.specs.inside.Told.{IsReportedBy};
ghost use Rattle.wiz_tool.specs.Environment.{around};
ghost use Rattle.wiz_words.specs.Texts.{run_with_texts};

use crate::commands::explore_files::write_orders;
use crate::exploring::make::{Searched, search};
use explore::course::SearchLimits;
use explore::found::{Explored, FoundOutcome};
use explore::watch::Watcher;
use explore_text::text::explore_text;
use replay_model::replayed::Replays;
use run_model::ending::Ending;
use std::alloc::{AllocError, Global};
use wiz_io::{Sink, Store};
use wiz_runs::recording::ready::read_run;
use wiz_tool::failure::Failure;
use wiz_tool::finish::finish;
use wiz_tool::report::{Report, text_of_replays};
use wiz_tool::status::Status;
use wiz_words::command::RunWords;

/// Searches the runs of what the arguments name, within these bounds, and lists what they come to. `watcher` is told on the way how far the
/// search is.
pub fn explore<'a, S: Store, K: Sink, W: Watcher>(
    alloc: Global,
    run: &RunWords<&'a str>,
    prefix: &str,
    bounds: SearchLimits,
    store: &mut S,
    out: &mut K,
    watcher: &mut W,
) -> Result<Report, Failure<'a>>
    ensures { EndsTask (search_task (run_with_texts run.now) prefix.now bounds.most bounds.polls) (around S.observed K.observed store out) result }
{
    let ready = read_run(alloc, run, store)?;
    let searched = search(alloc, &ready, bounds, watcher)?;
    let report = write(alloc, prefix, bounds, &searched, store, out)?;
    Ok(report)
}

/// Writes the files of a search and tells it.
fn write<S: Store, K: Sink>(
    alloc: Global,
    prefix: &str,
    bounds: SearchLimits,
    searched: &Searched,
    store: &mut S,
    out: &mut K,
) -> Result<Report, AllocError>
    ensures told { IsReportedBy (search_outcome prefix.now bounds.most bounds.polls searched.now.explored searched.now.waits) (around S.observed K.observed store out) result }
    ensures reads { (S.observed store.new).reads ≡ (S.observed store.old).reads }
{
    let text = explore_text(alloc, bounds, &searched.explored, searched.waits.as_slice())?;
    let status = of_search(&searched.explored);
    let written = write_orders(alloc, prefix, &searched.explored, store);
    let done = text_of_replays(text, status, Replays::new(alloc));
    finish(alloc, written, done, out)
}

/// The status of a search.
fn of_search(explored: &Explored) -> Status
    ensures { result ≡ of_search explored.now }
{
    if has_halted(explored.found.as_slice()) {
        Status::Halted
    } else if is_complete(explored) {
        Status::Done
    } else {
        Status::Incomplete
    }
}

/// Whether some outcome was halted.
fn has_halted(listed: &[FoundOutcome]) -> bool
    ensures { result ≡ list_any (λ (found : FoundOutcome). is_halted found.outcome.ending) listed.now }
{
    listed.iter().any(|found| matches!(found.outcome.ending(), Ending::Halted(_)))
}

/// Whether no state is left and no rank was held back.
fn is_complete(explored: &Explored) -> bool
    ensures { result ≡ is_exploration_complete explored.now.left explored.now.polled }
{
    match explored.left.as_slice() {
        [] => !explored.polled,
        [_, ..] => false,
    }
}
