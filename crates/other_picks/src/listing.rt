//! The other picks of a run.
ghost use Rattle.std.specs.Prelude.{◌≡◌, ◌<◌, ◌^◌, ◌++◌, ◌∷◌, [], IfOk, OnOk, List, if◌then◌else◌, map, filter, length, take};
ghost use Rattle.mpi_call.specs.declared.call.Call.TheVariants.{Post};
ghost use Rattle.mpi_call.specs.declared.call.Source.TheVariants.{Any};
ghost use Rattle.run_model.specs.declared.event.Event.{Event as EventSpec};
ghost use Rattle.run_model.specs.Lists.{world};
ghost use Rattle.match_core.specs.Histories.{KnowsUnpaired};
ghost use Rattle.picked_runs.specs.declared.turn.Pick.{Pick};
ghost use Rattle.picked_runs.specs.Picked.{ArePicked};
ghost use Rattle.other_picks.specs.declared.other.TheConstants.{MOST_OTHER_PICKS};
ghost use Rattle.other_picks.specs.inside.Known.{IsKnown, IsEventOf, any_in, could_take, with_sender};
ghost use Rattle.other_picks.specs.Others.{AreApart, others_at, others_of};

use crate::known::{UnpairedStarts, has_message, rank_at};
use crate::other::{OtherPick, OtherPicks};
use match_core::matcher::Matcher;
use mpi_call::call::{Call, Comm, Source, Tag};
use run_model::event::Event;
use run_model::history::History;
use std::alloc::{AllocError, Global};

/// The first `MOST_OTHER_PICKS` other picks of a run of n ranks: by receives, in the order of the history, and then by senders.
pub fn other_picks(alloc: Global, n: u8, history: &History) -> Result<OtherPicks, AllocError>
    requires { (picks : List Pick) × ArePicked n [] picks history.now.events }
    ensures others { IfOk result (λ others. others ≡ take MOST_OTHER_PICKS (others_of n history.now.events)) }
    ensures apart { IfOk result AreApart }
{
    let events = history.as_slice();
    let mut known = UnpairedStarts::new(alloc)?;
    let mut others = OtherPicks::new(alloc);
    for (at, event) in events.iter().enumerate() {
        add_others(&mut others, n, &known, &events[..at], event)?;
        known.note(&events[..at], event)?;
    }
    Ok(others)
}

/// Adds the other picks of an event.
fn add_others(
    others: &mut OtherPicks,
    n: u8,
    known: &UnpairedStarts,
    before: &[Event],
    event: &Event,
) -> Result<(), AllocError>
    requires known { IsKnown before.now known.now }
    requires event { IsEventOf n before.now event.now }
    requires short { length before.now < 2 ^ 32 }
    ensures { OnOk result (others.new ≡ take MOST_OTHER_PICKS (others.old ++ others_at n before.now event.now)) }
{
    others.few();
    match any_in(&event.call) {
        Some(wildcard) => match event.mate {
            Some(mate) => {
                let receive = PairedReceive {
                    at: before.len() as u32,
                    rank: event.rank,
                    start: known.starts.get(event.rank),
                    wildcard,
                    took: rank_at(before, mate),
                };
                add_senders(others, n, &known.matcher, &receive)?;
                Ok(())
            }
            None => Ok(()),
        },
        None => Ok(()),
    }
}

/// The communicator and the tag of a receive from any source.
#[derive(Clone, Copy)]
pub struct Wildcard {
    pub comm: Comm,
    pub tag: Tag,
}

fn any_in(call: &Call) -> Option<Wildcard>
    ensures { result ≡ any_in call.now }
{
    match call {
        Call::Post {
            comm,
            source: Source::Any,
            tag,
            ..
        } => Some(Wildcard {
            comm: *comm,
            tag: *tag,
        }),
        _ => None,
    }
}

/// A receive from any source that was paired when it was posted.
#[derive(Clone, Copy)]
pub struct PairedReceive {
    pub at: u32,
    pub rank: u8,
    pub start: u32,
    pub wildcard: Wildcard,
    /// The sender of the message that it took.
    pub took: u8,
}

/// Adds the senders below n that a receive could have taken its message from, and did not.
fn add_senders(
    others: &mut OtherPicks,
    n: u8,
    known: &Matcher,
    receive: &PairedReceive,
) -> Result<(), AllocError>
    ensures { OnOk result ((before : List EventSpec) → KnowsUnpaired before known.now
        → others.new ≡ take MOST_OTHER_PICKS (others.old ++ map (with_sender receive.now) (filter (could_take before receive.now) (world n 0)))) }
{
    others.few();
    for sender in 0..n {
        add_sender(others, known, receive, sender)?;
    }
    Ok(())
}

/// Adds a sender, if it is such.
fn add_sender(
    others: &mut OtherPicks,
    known: &Matcher,
    receive: &PairedReceive,
    sender: u8,
) -> Result<(), AllocError>
    ensures { OnOk result ((before : List EventSpec) → KnowsUnpaired before known.now
        → others.new ≡ (if could_take before receive.now sender then take MOST_OTHER_PICKS (others.old ++ with_sender receive.now sender ∷ []) else others.old)) }
{
    if sender == receive.took {
        return Ok(());
    }
    let wildcard = receive.wildcard;
    if has_message(known, receive.rank, wildcard.comm, wildcard.tag, sender) {
        others.add(OtherPick {
            at: receive.at,
            rank: receive.rank,
            start: receive.start,
            sender,
        })?;
        return Ok(());
    }
    Ok(())
}
