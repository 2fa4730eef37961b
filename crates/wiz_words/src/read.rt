//! Which command the arguments ask for.
ghost use Rattle.std.specs.Prelude.{IfOk, MatchOption, codes};
ghost use Rattle.std.specs.Option.{option_map};
ghost use Rattle.clap.specs.Words.{Text};
ghost use Rattle.wiz_words.specs.declared.command.ReplayWords.{ReplayWords};
ghost use Rattle.wiz_words.specs.declared.command.RunWords.{RunWords};
ghost use Rattle.wiz_words.specs.declared.command.Verb.TheVariants as verb;
ghost use Rattle.wiz_words.specs.Texts.{replay_with_texts, run_with_texts, texts, with_texts};
ghost use Rattle.wiz_words.specs.Values.{rows_found, value_in};
ghost use Rattle.wiz_words.specs.Words.{AreReplayWords, AreRunWords, AreSearchWords, AskFor, AskForNothing, AskForOneThing, IsCommandIn};

use crate::command::{Command, ReplayWords, RunWords, Verb};
use crate::forms::{clap_form, form_named};
use crate::limits::{
    FEWEST_POLLS, FEWEST_RANKS, FEWEST_ROUNDS, FEWEST_STATES, GREATEST_RANK, GREATEST_SEED,
    MOST_POLLS, MOST_ROUNDS, MOST_STATES, USUAL_POLLS, USUAL_STATES,
};
use crate::values::{breakpoint, flag_in, matches_of, name_in, number_in, number_or, value_in};
use clap::ArgMatches;
use mpi_call::limits::MOST_RANKS;
use std::alloc::{AllocError, Global};

/// The command that the arguments ask for, or nothing where they are in no command's form. The program's own name is not among
/// the arguments.
pub fn read_command<'a>(
    alloc: Global,
    words: &'a [&'a str],
) -> Result<Option<Command<&'a str>>, AllocError>
    ensures { IfOk result (λ found. MatchOption found (AskForNothing (texts words.entry.now))
        (λ command. AskFor (texts words.entry.now) (with_texts command))) }
{
    let Some(name) = words.first() else {
        return Ok(None);
    };
    let Some(form) = form_named(*name) else {
        return Ok(None);
    };
    match matches_of(clap_form(alloc, form)?, words)? {
        Some(matches) => Ok(command_from(form.verb, &matches)),
        None => Ok(None),
    }
}

/// Arguments ask for one thing: no two commands have the same arguments.
pub fn words_ask_for_one_thing()
    ensures { AskForOneThing }
{}

/// The command of this name whose arguments clap found, where their values are in form.
fn command_from<'a>(verb: Verb, matches: &ArgMatches<'a>) -> Option<Command<&'a str>>
    ensures { IsCommandIn (rows_found matches.now) verb result }
{
    match verb {
        Verb::Record => record_from(matches),
        Verb::Check => Some(Command::Check(run_words(matches, None)?)),
        Verb::Races => races_from(matches),
        Verb::Advise => advise_from(matches),
        Verb::Demo => demo_from(matches),
        Verb::Replay => Some(Command::Replay(replay_words(matches)?)),
        Verb::Show => Some(Command::Show(value_in(matches, "LOG")?)),
        Verb::Stats => Some(Command::Stats(value_in(matches, "LOG")?)),
        Verb::Convert => convert_from(matches),
        Verb::Refine => refine_from(matches),
        Verb::Join => join_from(matches),
        Verb::Diff => diff_from(matches),
        Verb::Waits => Some(Command::Waits(ordered_run(matches)?)),
        Verb::Picture => picture_from(matches),
        Verb::Watch => watch_from(matches),
        Verb::At => Some(Command::At(replay_words(matches)?)),
        Verb::Where => where_from(matches),
        Verb::Explore => explore_from(matches),
    }
}

fn record_from<'a>(matches: &ArgMatches<'a>) -> Option<Command<&'a str>>
    ensures { IsCommandIn (rows_found matches.now) verb.Record result }
{
    let run = ordered_run(matches)?;
    let prefix = value_in(matches, "PREFIX")?;
    Some(Command::Record { run, prefix })
}

fn races_from<'a>(matches: &ArgMatches<'a>) -> Option<Command<&'a str>>
    ensures { IsCommandIn (rows_found matches.now) verb.Races result }
{
    let run = ordered_run(matches)?;
    let orders = value_in(matches, "orders");
    Some(Command::Races { run, orders })
}

fn advise_from<'a>(matches: &ArgMatches<'a>) -> Option<Command<&'a str>>
    ensures { IsCommandIn (rows_found matches.now) verb.Advise result }
{
    let run = ordered_run(matches)?;
    let most = number_in(matches, "K", FEWEST_RANKS, MOST_RANKS as u32)?;
    Some(Command::Advise {
        run,
        most: most as u8,
    })
}

fn demo_from<'a>(matches: &ArgMatches<'a>) -> Option<Command<&'a str>>
    ensures { IsCommandIn (rows_found matches.now) verb.Demo result }
{
    let seed = number_in(matches, "SEED", 0, GREATEST_SEED)?;
    let rounds = number_in(matches, "ROUNDS", FEWEST_ROUNDS, MOST_ROUNDS)?;
    Some(Command::Demo { seed, rounds })
}

fn convert_from<'a>(matches: &ArgMatches<'a>) -> Option<Command<&'a str>>
    ensures { IsCommandIn (rows_found matches.now) verb.Convert result }
{
    let log = value_in(matches, "LOG")?;
    let file = value_in(matches, "FILE")?;
    let is_text = flag_in(matches, "text");
    Some(Command::Convert { log, file, is_text })
}

fn refine_from<'a>(matches: &ArgMatches<'a>) -> Option<Command<&'a str>>
    ensures { IsCommandIn (rows_found matches.now) verb.Refine result }
{
    let log = value_in(matches, "LOG")?;
    let plan = value_in(matches, "PLAN")?;
    let prefix = value_in(matches, "PREFIX")?;
    Some(Command::Refine { log, plan, prefix })
}

fn join_from<'a>(matches: &ArgMatches<'a>) -> Option<Command<&'a str>>
    ensures { IsCommandIn (rows_found matches.now) verb.Join result }
{
    let one = value_in(matches, "LOG")?;
    let other = value_in(matches, "OTHER")?;
    let file = value_in(matches, "FILE")?;
    Some(Command::Join { one, other, file })
}

fn diff_from<'a>(matches: &ArgMatches<'a>) -> Option<Command<&'a str>>
    ensures { IsCommandIn (rows_found matches.now) verb.Diff result }
{
    let one = value_in(matches, "LOG")?;
    let other = value_in(matches, "OTHER")?;
    Some(Command::Diff { one, other })
}

fn picture_from<'a>(matches: &ArgMatches<'a>) -> Option<Command<&'a str>>
    ensures { IsCommandIn (rows_found matches.now) verb.Picture result }
{
    let run = ordered_run(matches)?;
    let file = value_in(matches, "FILE")?;
    let is_trace = flag_in(matches, "trace");
    Some(Command::Picture {
        run,
        file,
        is_trace,
    })
}

fn watch_from<'a>(matches: &ArgMatches<'a>) -> Option<Command<&'a str>>
    ensures { IsCommandIn (rows_found matches.now) verb.Watch result }
{
    let replay = replay_words(matches)?;
    let rank = number_in(matches, "RANK", 0, GREATEST_RANK)?;
    let name = value_in(matches, "NAME")?;
    Some(Command::Watch {
        replay,
        rank: rank as u8,
        name,
    })
}

fn where_from<'a>(matches: &ArgMatches<'a>) -> Option<Command<&'a str>>
    ensures { IsCommandIn (rows_found matches.now) verb.Where result }
{
    let replay = replay_words(matches)?;
    let (source, start) = name_in(matches, "MESSAGE")?;
    Some(Command::Where {
        replay,
        source,
        start,
    })
}

fn explore_from<'a>(matches: &ArgMatches<'a>) -> Option<Command<&'a str>>
    ensures { IsCommandIn (rows_found matches.now) verb.Explore result }
{
    let run = search_words(matches)?;
    let prefix = value_in(matches, "PREFIX")?;
    let most = number_or(matches, "most", FEWEST_STATES, MOST_STATES, USUAL_STATES)?;
    let polls = number_or(matches, "polls", FEWEST_POLLS, MOST_POLLS, USUAL_POLLS)?;
    Some(Command::Explore {
        run,
        prefix,
        most,
        polls,
    })
}

/// The arguments of a run that may have an order.
fn ordered_run<'a>(matches: &ArgMatches<'a>) -> Option<RunWords<&'a str>>
    ensures { let given = rows_found matches.now in let order = value_in given (codes "order")
        in MatchOption result ((run : RunWords Text) → AreRunWords given order run → ⊥)
        (λ run. AreRunWords given order (run_with_texts run)) }
{
    run_words(matches, value_in(matches, "order"))
}

/// The arguments of a run with this file for its order; nothing where an order and `--serial` are given together.
fn run_words<'a>(matches: &ArgMatches<'a>, order: Option<&'a str>) -> Option<RunWords<&'a str>>
    ensures { let order = option_map (λ text. text.now) order.entry
        in MatchOption result ((run : RunWords Text) → AreRunWords (rows_found matches.now) order run → ⊥)
        (λ run. AreRunWords (rows_found matches.now) order (run_with_texts run)) }
{
    let is_serial = flag_in(matches, "serial");
    if is_serial && order.is_some() {
        return None;
    }
    Some(RunWords {
        program: value_in(matches, "PROGRAM")?,
        plan: value_in(matches, "PLAN")?,
        order,
        is_serial,
    })
}

/// The program and the plan of a search, on one thread, and the file of its first turns, where there is one.
fn search_words<'a>(matches: &ArgMatches<'a>) -> Option<RunWords<&'a str>>
    ensures { MatchOption result ((run : RunWords Text) → AreSearchWords (rows_found matches.now) run → ⊥)
        (λ run. AreSearchWords (rows_found matches.now) (run_with_texts run)) }
{
    Some(RunWords {
        program: value_in(matches, "PROGRAM")?,
        plan: value_in(matches, "PLAN")?,
        order: value_in(matches, "under"),
        is_serial: true,
    })
}

/// The arguments of a replay; nothing where its breakpoint is out of form.
fn replay_words<'a>(matches: &ArgMatches<'a>) -> Option<ReplayWords<&'a str>>
    ensures { MatchOption result ((replay : ReplayWords Text) → AreReplayWords (rows_found matches.now) replay → ⊥)
        (λ replay. AreReplayWords (rows_found matches.now) (replay_with_texts replay)) }
{
    let stop = match value_in(matches, "break") {
        Some(text) => Some(breakpoint(text)?),
        None => None,
    };
    Some(ReplayWords {
        log: value_in(matches, "LOG")?,
        program: value_in(matches, "program"),
        stop,
        is_serial: flag_in(matches, "serial"),
    })
}
