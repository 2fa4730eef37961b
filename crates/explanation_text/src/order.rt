//! The order text of a run, and of another pick of it.
ghost use Rattle.std.specs.Prelude.{◌≡◌, ◌++◌, OnOk, IfOk, ℕ, take};
ghost use Rattle.std.specs.List.{AllByRecursion};
ghost use Rattle.wiz_base.specs.Decimals.{decimal_text};
ghost use Rattle.group_plan.specs.OrderText.{IsOrderText, pick_text};
ghost use Rattle.picked_runs.specs.Picked.{later_picks, next_pick};
ghost use Rattle.picked_runs.specs.Turns.{IsTurnOf, turns_of};
ghost use Rattle.run_model.specs.Chosen.{order_of};
ghost use Rattle.explanation_text.specs.OrderTexts.{order_text, other_order_text, turn_line, turns_text};

use other_picks::other::OtherPick;
use picked_runs::picks::Picks;
use picked_runs::turn::{Pick, Turn};
use run_model::event::Event;
use run_model::history::History;
use std::alloc::{AllocError, Global};
use wiz_base::{Bytes, push_decimal, push_text};

/// The order text: whose event each is, and what it picked, a turn a line. `group_plan::read_order` reads the turns back.
pub fn order_text(alloc: Global, history: &History, picks: &Picks) -> Result<Bytes, AllocError>
    ensures text { IfOk result (λ text. text ≡ order_text history.now.events picks.now.written) }
    ensures back { IfOk result (λ text. (n : ℕ) → AllByRecursion (IsTurnOf n) (turns_of (order_of history.now.events) picks.now.written)
        → IsOrderText n text (turns_of (order_of history.now.events) picks.now.written)) }
{
    let mut out = Bytes::new(alloc);
    push_order(&mut out, history.as_slice(), picks.as_slice())?;
    Ok(out)
}

/// The order text of another pick of a run: the run's turns up to the receive, and then one that picks the sender.
pub fn other_order_text(
    alloc: Global,
    history: &History,
    picks: &Picks,
    other: &OtherPick,
) -> Result<Bytes, AllocError>
    ensures { IfOk result (λ text. text ≡ other_order_text history.now.events picks.now.written other.now) }
{
    let mut out = Bytes::new(alloc);
    push_order(&mut out, first_events(history, other.at), picks.as_slice())?;
    push_turn(&mut out, other.rank, Pick::Sender(other.sender))?;
    Ok(out)
}

/// The order text of turns, a turn a line. `group_plan::read_order` reads them back.
pub fn turns_text(alloc: Global, turns: &[Turn]) -> Result<Bytes, AllocError>
    ensures { IfOk result (λ text. text ≡ turns_text turns.now) }
{
    let mut out = Bytes::new(alloc);
    let mut rest = turns;
    while let [turn, after @ ..] = rest {
        push_turn(&mut out, turn.rank, turn.pick)?;
        rest = after;
    }
    Ok(out)
}

/// So many events of a history, or all where it has fewer.
fn first_events(history: &History, count: u32) -> &[Event]
    ensures { result.now ≡ take count history.now.events }
{
    let events = history.as_slice();
    let count = (count as usize).min(events.len());
    &events[..count]
}

fn push_order(out: &mut Bytes, events: &[Event], picks: &[Pick]) -> Result<(), AllocError>
    ensures { OnOk result (out.new ≡ out.old ++ order_text events.now picks.now) }
{
    let mut rest = events;
    let mut left = picks;
    while let [event, after @ ..] = rest {
        push_turn(out, event.rank, next_pick(left))?;
        left = later_picks(left);
        rest = after;
    }
    Ok(())
}

fn next_pick(picks: &[Pick]) -> Pick
    ensures { result ≡ next_pick picks.now }
{
    match picks {
        [pick, ..] => *pick,
        [] => Pick::First,
    }
}

fn later_picks(picks: &[Pick]) -> &[Pick]
    ensures { result.now ≡ later_picks picks.now }
{
    match picks {
        [_, others @ ..] => others,
        [] => picks,
    }
}

/// A turn on a line of its own.
fn push_turn(out: &mut Bytes, rank: u8, pick: Pick) -> Result<(), AllocError>
    ensures { OnOk result (out.new ≡ out.old ++ turn_line (record { rank = rank; pick = pick })) }
{
    push_decimal(out, rank as u64)?;
    push_pick(out, pick)?;
    push_text(out, b"\n")?;
    Ok(())
}

fn push_pick(out: &mut Bytes, pick: Pick) -> Result<(), AllocError>
    ensures { OnOk result (out.new ≡ out.old ++ pick_text pick) }
{
    match pick {
        Pick::First => Ok(()),
        Pick::Sender(sender) => push_after(out, b" from ", sender as u64),
        Pick::Index(index) => push_after(out, b" index ", index as u64),
    }
}

fn push_after(out: &mut Bytes, word: &[u8], number: u64) -> Result<(), AllocError>
    ensures { OnOk result (out.new ≡ out.old ++ word.now ++ decimal_text number) }
{
    push_text(out, word)?;
    push_decimal(out, number)?;
    Ok(())
}
