//! The top call.
ghost use Rattle.std.specs.Prelude.{◌≡◌, false};
ghost use Rattle.srr_replay.specs.Rounds.{IsReplayable};
ghost use Rattle.wiz_cli.specs.Commands.{AskForSerially, IsReport, task_of};
ghost use Rattle.wiz_cli.specs.Promises.{IsComplete, NeverDiverges, ShowsEveryRun};
ghost use Rattle.wiz_logs.specs.declared.viewing.ask.ReplayView.TheVariants.{Changes, Places};
ghost use Rattle.wiz_cli.specs.inside.Ends.{AllowsBlocks, EndsWords, refused_words};
ghost use Rattle.wiz_task.specs.inside.Ends.{EndsTask};
ghost use Rattle.wiz_task.specs.inside.Recording.{CanRun};
ghost use Rattle.wiz_tool.specs.inside.Told.{IsFailureBy};
ghost use Rattle.wiz_tool.specs.Environment.{around};
ghost use Rattle.wiz_words.specs.Texts.{texts, with_texts};
ghost use Rattle.wiz_words.specs.Words.{AskFor, is_threaded};

use crate::limits::limits_are;
use crate::serial::Serial;
use crate::threaded::Threaded;
use c_program::CProgram;
use c_types::one_program;
use explore::course::SearchLimits;
use explore::watch::{Silent, Watcher};
use group_plan::one_reading;
use msg_races::names::Name;
use rank_threads::Gate;
use replay_model::replayed::Replayed;
use srr_entry::log::Log;
use srr_log2::read_either::either_has_one_reading;
use srr_record::Recording;
use std::alloc::{AllocError, Global};
use std::sync::Wait;
use std::thread::Threads;
use wiz_io::{Sink, Store};
use wiz_logs::commands::convert::convert;
use wiz_logs::commands::diff::diff;
use wiz_logs::commands::join::join;
use wiz_logs::commands::refine::refine;
use wiz_logs::commands::replay::replay;
use wiz_logs::commands::show::show;
use wiz_logs::commands::stats::stats;
use wiz_logs::commands::view::view;
use wiz_logs::replaying::make::replay_on_threads;
use wiz_logs::viewing::ask::ReplayView;
use wiz_runs::commands::advise::advise;
use wiz_runs::commands::check::check;
use wiz_runs::commands::demo::demo;
use wiz_runs::commands::picture::picture;
use wiz_runs::commands::races::races;
use wiz_runs::commands::record::record;
use wiz_runs::commands::waits::waits;
use wiz_runs::recording::make::record_on_threads;
use wiz_searches::commands::explore_runs::explore;
use wiz_task::ready::Ready;
use wiz_task::runner::Runner;
use wiz_tool::failure::Failure;
use wiz_tool::refusal::Refusal;
use wiz_tool::report::{Report, settle};
use wiz_words::command::Command;
use wiz_words::read::{read_command, words_ask_for_one_thing};

/// The tool as a function of its arguments, its files and its output, without threads: arguments that ask for threads are refused. Nobody is
/// told how far a search is.
pub fn wiz_serial<S: Store, K: Sink>(
    alloc: Global,
    words: &[&str],
    store: &mut S,
    out: &mut K,
) -> Report
    ensures report { IsReport AskForSerially (texts words.now) (around S.observed K.observed store out) result }
    ensures headline { ShowsEveryRun AskForSerially (texts words.now) (around S.observed K.observed store out) result }
    ensures never_diverges { NeverDiverges AskForSerially (texts words.now) (around S.observed K.observed store out) result }
    ensures complete { IsComplete AskForSerially (texts words.now) (around S.observed K.observed store out) result }
{
    let answered = answer_words(alloc, words, store, out);
    // Laws: arguments ask for one thing, and a program, a plan, an order or a log has one reading or one first fault, so that what is accepted
    // is not refused.
    words_ask_for_one_thing();
    one_program();
    one_reading();
    either_has_one_reading();
    // A law: the limits are these numbers.
    limits_are();
    settle(alloc, answered, out)
}

/// The tool with threads: a recording or a replay has a thread for each of its ranks, where the system gives one, unless its arguments
/// ask for one thread. Each thread passes the gate before each of its rank's calls. The call returns where the threads do: of waiting
/// nothing is promised. `watcher` is told on the way how far a search is.
///
/// `report` says what comes of the arguments and how it is told. `headline` is what the tool is for: for every program of a replayed log,
/// and every run with this log that the matching rules allow, whatever the order of the replay's events, at every moment each rank of
/// the group has a prefix of its recorded calls, replies and printed output; a replay that can go no further has given all of them; no
/// rank outside the group takes a step. `never_diverges` says that such a replay is never told as diverged or starved. `complete` says
/// that nothing but the named causes keeps a command from its work.
pub fn wiz<R: Threads + Wait + Sync, S: Store, K: Sink, G: Gate + Sync, W: Watcher>(
    rt: &R,
    alloc: Global,
    words: &[&str],
    store: &mut S,
    out: &mut K,
    gate: &G,
    watcher: &mut W,
) -> Report
    ensures report { IsReport AskFor (texts words.now) (around S.observed K.observed store out) result }
    ensures headline { ShowsEveryRun AskFor (texts words.now) (around S.observed K.observed store out) result }
    ensures never_diverges { NeverDiverges AskFor (texts words.now) (around S.observed K.observed store out) result }
    ensures complete { IsComplete AskFor (texts words.now) (around S.observed K.observed store out) result }
{
    let answered = answer_words_on_threads(rt, alloc, words, store, out, gate, watcher);
    // Laws: arguments ask for one thing, and a program, a plan, an order or a log has one reading or one first fault, so that what is accepted
    // is not refused.
    words_ask_for_one_thing();
    one_program();
    one_reading();
    either_has_one_reading();
    // A law: the limits are these numbers.
    limits_are();
    settle(alloc, answered, out)
}

/// What the arguments come to without threads.
fn answer_words<'a, S: Store, K: Sink>(
    alloc: Global,
    words: &'a [&'a str],
    store: &mut S,
    out: &mut K,
) -> Result<Report, Failure<'a>>
    ensures { EndsWords AskForSerially (texts words.now) (around S.observed K.observed store out) result }
{
    let Some(command) = read_command(alloc, words)? else {
        return Err(refused_words());
    };
    if command.is_threaded() {
        return Err(refused_words());
    }
    answer_serially(alloc, command, store, out, &mut Silent)
}

/// What the arguments come to with threads.
fn answer_words_on_threads<
    'a,
    R: Threads + Wait + Sync,
    S: Store,
    K: Sink,
    G: Gate + Sync,
    W: Watcher,
>(
    rt: &R,
    alloc: Global,
    words: &'a [&'a str],
    store: &mut S,
    out: &mut K,
    gate: &G,
    watcher: &mut W,
) -> Result<Report, Failure<'a>>
    ensures { EndsWords AskFor (texts words.now) (around S.observed K.observed store out) result }
{
    let Some(command) = read_command(alloc, words)? else {
        return Err(refused_words());
    };
    if !command.is_threaded() {
        return answer_serially(alloc, command, store, out, watcher);
    }
    let recorder = |ready: &Ready| -> Result<Recording, AllocError>
        requires { CanRun ready.now }
    { record_on_threads(rt, alloc, ready, gate) };
    let replayer = |program: &CProgram, log: &Log, stop: Option<(u8, u32)>| -> Result<
        Replayed,
        AllocError,
    >
        requires { IsReplayable log.now }
    { replay_on_threads(rt, alloc, program, log, stop, gate) };
    answer(
        alloc,
        command,
        store,
        out,
        &Threaded { recorder, replayer },
        watcher,
    )
}

fn refused_words() -> Failure<'static>
    ensures { IsFailureBy (λ refused. refused ≡ refused_words) result }
{
    Failure::Refused {
        refusal: Refusal::Words,
        name: "",
    }
}

/// What a command comes to on one thread.
fn answer_serially<'a, S: Store, K: Sink, W: Watcher>(
    alloc: Global,
    command: Command<&'a str>,
    store: &mut S,
    out: &mut K,
    watcher: &mut W,
) -> Result<Report, Failure<'a>>
    requires serial { is_threaded (with_texts command) ≡ false }
    requires blocks { AllowsBlocks (with_texts command) }
    ensures serial { is_threaded (with_texts command.entry) ≡ false }
    ensures ends { EndsTask (task_of (with_texts command.entry)) (around S.observed K.observed store out) result }
{
    answer(alloc, command, store, out, &Serial, watcher)
}

/// What a command comes to: `runner` runs the ranks, `watcher` is told how far a search is.
fn answer<'a, S: Store, K: Sink, R: Runner, W: Watcher>(
    alloc: Global,
    command: Command<&'a str>,
    store: &mut S,
    out: &mut K,
    runner: &R,
    watcher: &mut W,
) -> Result<Report, Failure<'a>>
    requires blocks { AllowsBlocks (with_texts command) }
    requires threads { R.is_threaded ≡ is_threaded (with_texts command) }
    requires runs { R.runs runner.now }
    ensures { EndsTask (task_of (with_texts command.entry)) (around S.observed K.observed store out) result }
{
    match command {
        Command::Record { run, prefix } => record(alloc, &run, prefix, store, out, runner),
        Command::Check(run) => check(alloc, &run, store, out, runner),
        Command::Races { run, orders } => races(alloc, &run, orders, store, out, runner),
        Command::Advise { run, most } => advise(alloc, &run, most, store, out, runner),
        Command::Demo { seed, rounds } => demo(alloc, seed, rounds, store, out, runner),
        Command::Replay(words) => replay(alloc, &words, store, out, runner),
        Command::Show(log) => show(alloc, log, store, out),
        Command::Stats(log) => stats(alloc, log, store, out),
        Command::Convert { log, file, is_text } => convert(alloc, log, file, is_text, store, out),
        Command::Refine { log, plan, prefix } => {
            refine(alloc, log, plan, prefix, store, out, runner)
        }
        Command::Join { one, other, file } => { join(alloc, one, other, file, store, out, runner) }
        Command::Diff { one, other } => diff(alloc, one, other, store, out, runner),
        Command::Waits(run) => waits(alloc, &run, store, out, runner),
        Command::Picture {
            run,
            file,
            is_trace,
        } => { picture(alloc, &run, file, is_trace, store, out, runner) }
        Command::Watch { replay, rank, name } => {
            view(alloc, &replay, &changes(rank, name), store, out, runner)
        }
        Command::At(replay) => view(alloc, &replay, &ReplayView::Snapshots, store, out, runner),
        Command::Where {
            replay,
            source,
            start,
        } => { view(alloc, &replay, &places(source, start), store, out, runner) }
        Command::Explore {
            run,
            prefix,
            most,
            polls,
        } => {
            let bounds = SearchLimits { most, polls };
            explore(alloc, &run, prefix, bounds, store, out, watcher)
        }
    }
}

/// What is asked about a variable of a rank.
fn changes(rank: u8, name: &str) -> ReplayView<&str>
    ensures { result ≡ Changes rank name.entry }
{
    ReplayView::Changes { rank, name }
}

/// What is asked about a message.
fn places(rank: u8, start: u32) -> ReplayView<&'static str>
    ensures { result ≡ Places (record { rank = rank; start = start }) }
{
    ReplayView::Places(Name { rank, start })
}
