//! The text of a search.
ghost use Rattle.std.specs.Prelude.{◌≡◌, ◌++◌, IfOk, OnOk, codes, flat_map};
ghost use Rattle.wiz_base.specs.Decimals.{decimal_text};
ghost use Rattle.explore_text.specs.ExploreTexts.{explored_counts_text, explore_text, found_outcome_text, all_found_text, looked_text, outcome_text, printed_text, progress_text, reported_ending_text, verdict_text};

use explore::course::SearchLimits;
use explore::found::{Explored, FoundOutcome, Outcome};
use explore::watch::Progress;
use mpi_call::call::Halt;
use run_model::ending::Ending;
use run_text::recording::{push_ending, push_output};
use std::alloc::{AllocError, Global};
use wiz_base::{Bytes, push_decimal, push_text};

/// What a search found, each outcome with the text of who waits in it, if there is one, and whether that is all.
pub fn explore_text(
    alloc: Global,
    bounds: SearchLimits,
    explored: &Explored,
    waits: &[Bytes],
) -> Result<Bytes, AllocError>
    ensures { IfOk result (λ text. text ≡ explore_text bounds.most bounds.polls explored.now waits.now) }
{
    let mut out = Bytes::new(alloc);
    push_all_found(&mut out, explored.found.as_slice(), waits)?;
    push_counts(&mut out, explored)?;
    push_verdict(&mut out, bounds, explored)?;
    Ok(out)
}

/// The outcomes, numbered from 0 on.
fn push_all_found(
    out: &mut Bytes,
    listed: &[FoundOutcome],
    waits: &[Bytes],
) -> Result<(), AllocError>
    ensures { OnOk result (out.new ≡ out.old ++ all_found_text 0 listed.now waits.now) }
{
    let mut number = 0;
    let mut rest = listed;
    let mut left = waits;
    while let [found, after @ ..] = rest {
        let [text, more @ ..] = left else {
            return Ok(());
        };
        push_found(out, number, &found.outcome, text)?;
        number += 1;
        rest = after;
        left = more;
    }
    Ok(())
}

/// One of them.
fn push_found(
    out: &mut Bytes,
    number: u64,
    outcome: &Outcome,
    waits: &Bytes,
) -> Result<(), AllocError>
    ensures { OnOk result (out.new ≡ out.old ++ found_outcome_text number outcome.now waits.now) }
{
    push_text(out, b"outcome ")?;
    push_decimal(out, number)?;
    push_text(out, b"\n")?;
    push_outcome(out, outcome)?;
    push_text(out, waits.as_slice())
}

/// What ranks printed, and how the run ended.
fn push_outcome(out: &mut Bytes, outcome: &Outcome) -> Result<(), AllocError>
    ensures { OnOk result (out.new ≡ out.old ++ outcome_text outcome.now) }
{
    push_all_printed(out, outcome.printed())?;
    push_told_ending(out, &outcome.ending())
}

fn push_all_printed(out: &mut Bytes, printed: &[(u8, Bytes)]) -> Result<(), AllocError>
    ensures { OnOk result (out.new ≡ out.old ++ flat_map printed_text printed.now) }
{
    let mut rest = printed;
    while let [one, after @ ..] = rest {
        push_printed(out, one)?;
        rest = after;
    }
    Ok(())
}

/// What one rank printed.
fn push_printed(out: &mut Bytes, printed: &(u8, Bytes)) -> Result<(), AllocError>
    ensures { OnOk result (out.new ≡ out.old ++ printed_text printed.now) }
{
    push_text(out, b"rank ")?;
    push_decimal(out, printed.0 as u64)?;
    push_text(out, b" ")?;
    push_output(out, &printed.1)
}

/// How the run ended; of a mismatch without its rank.
fn push_told_ending(out: &mut Bytes, ending: &Ending) -> Result<(), AllocError>
    ensures { OnOk result (out.new ≡ out.old ++ reported_ending_text ending.now) }
{
    match ending {
        Ending::Halted(Halt::Mismatched { .. }) => push_text(out, b"halted mismatched\n"),
        _ => push_ending(out, ending),
    }
}

/// How many outcomes there are, and how many states were met.
fn push_counts(out: &mut Bytes, explored: &Explored) -> Result<(), AllocError>
    ensures { OnOk result (out.new ≡ out.old ++ explored_counts_text explored.now) }
{
    push_text(out, b"outcomes ")?;
    push_decimal(out, explored.found.as_slice().len() as u64)?;
    push_text(out, b" states ")?;
    push_decimal(out, explored.states as u64)?;
    push_text(out, b"\n")
}

/// Whether that is all.
fn push_verdict(
    out: &mut Bytes,
    bounds: SearchLimits,
    explored: &Explored,
) -> Result<(), AllocError>
    ensures { OnOk result (out.new ≡ out.old ++ verdict_text bounds.most bounds.polls explored.now.left explored.now.polled) }
{
    match explored.left.as_slice() {
        [] => push_all_looked_at(out, bounds.polls, explored.polled),
        [_, ..] => push_number(out, b"incomplete most ", bounds.most),
    }
}

/// That every state was looked at, and how patiently, where a rank was held back.
fn push_all_looked_at(out: &mut Bytes, polls: u32, polled: bool) -> Result<(), AllocError>
    ensures { OnOk result (out.new ≡ out.old ++ looked_text polls polled) }
{
    if polled {
        return push_number(out, b"complete polls ", polls);
    }
    push_text(out, b"complete\n")
}

fn push_number(out: &mut Bytes, words: &[u8], number: u32) -> Result<(), AllocError>
    ensures { OnOk result (out.new ≡ out.old ++ (words.now ++ decimal_text number ++ codes "\n")) }
{
    push_text(out, words)?;
    push_decimal(out, number as u64)?;
    push_text(out, b"\n")
}

/// How far a search is, as a line.
pub fn progress_text(alloc: Global, progress: Progress) -> Result<Bytes, AllocError>
    ensures { IfOk result (λ text. text ≡ progress_text progress) }
{
    let mut out = Bytes::new(alloc);
    push_text(&mut out, b"outcomes ")?;
    push_decimal(&mut out, progress.outcomes as u64)?;
    push_text(&mut out, b" states ")?;
    push_decimal(&mut out, progress.states as u64)?;
    push_text(&mut out, b" left ")?;
    push_decimal(&mut out, progress.left as u64)?;
    push_text(&mut out, b"\n")?;
    Ok(out)
}
