//! What is kept beside the events that were read.
ghost use Rattle.std.specs.Prelude.{◌≡◌, ◌<◌, ◌+◌, ◌^◌, ◌++◌, ◌∷◌, [], IfOk, List, OnOk, IsTrue, false, true, is_some, length, slice_get};
ghost use Rattle.mpi_call.specs.declared.call.Call.TheVariants.{Peek};
ghost use Rattle.mpi_call.specs.declared.call.Source.TheVariants.{From};
ghost use Rattle.mpi_call.specs.Calls.{is_send};
ghost use Rattle.run_model.specs.declared.event.Event.{Event as EventSpec};
ghost use Rattle.run_model.specs.Choice.{choice};
ghost use Rattle.run_model.specs.Views.{is_start, rank_of_event};
ghost use Rattle.match_core.specs.Histories.{KnowsUnpaired};
ghost use Rattle.match_core.specs.Starts.{is_post};
ghost use Rattle.other_picks.specs.inside.Known.{IsAnEvent, IsKnown};

use crate::counts::StartCounts;
use match_core::matcher::Matcher;
use mpi_call::call::{Call, Comm, Source, Tag};
use run_model::event::Event;
use run_model::starts::is_start;
use std::alloc::{AllocError, Global};

/// The starts without a partner, and how many starts each rank has made.
#[derive(Drop)]
pub struct UnpairedStarts {
    pub matcher: Matcher,
    pub starts: StartCounts,
}

impl UnpairedStarts {
    /// No events.
    pub fn new(alloc: Global) -> Result<Self, AllocError>
        ensures { IfOk result (IsKnown []) }
    {
        let starts = StartCounts::new(alloc)?;
        Ok(UnpairedStarts {
            matcher: Matcher::new(alloc),
            starts,
        })
    }

    /// Reads the next event.
    pub fn note(&mut self, before: &[Event], event: &Event) -> Result<(), AllocError>
        requires known { IsKnown before.now self.old }
        requires event { IsAnEvent before.now event.now }
        requires short { length before.now + 1 < 2 ^ 32 }
        ensures { OnOk result (IsKnown (before.now ++ event.now ∷ []) self.new) }
    {
        follow(&mut self.matcher, before, event)?;
        self.starts.note(before, event);
        Ok(())
    }
}

/// The rank of the event at a position.
pub fn rank_at(events: &[Event], at: u32) -> u8
    ensures { result ≡ rank_of_event (slice_get events.now at) }
{
    match events.get(at as usize) {
        Some(event) => event.rank,
        None => 0,
    }
}

/// Whether there is a message of this sender for a receive of a rank. Takes no memory.
pub fn has_message(known: &Matcher, rank: u8, comm: Comm, tag: Tag, sender: u8) -> bool
    ensures { (before : List EventSpec) → KnowsUnpaired before known.now → result ≡ is_some (choice before rank (Peek comm (From sender) tag false)) }
{
    let probe = Call::Peek {
        comm,
        source: Source::From(sender),
        tag,
        wait: false,
    };
    known.peek(rank, &probe).is_some()
}

/// Pairs the next event as the run did.
fn follow(known: &mut Matcher, before: &[Event], event: &Event) -> Result<(), AllocError>
    requires known { KnowsUnpaired before.now known.old }
    requires event { IsAnEvent before.now event.now }
    requires short { length before.now + 1 < 2 ^ 32 }
    ensures { OnOk result (KnowsUnpaired (before.now ++ event.now ∷ []) known.new) }
{
    known.knows_on();
    if !is_start(&event.call, &event.reply) {
        return Ok(());
    }
    if is_send(&event.call) {
        known.send(before.len() as u32, event.rank, &event.call)?;
        return Ok(());
    }
    if is_post(&event.call) {
        return follow_post(known, before, event);
    }
    Ok(())
}

fn is_send(call: &Call) -> bool
    ensures { result ≡ is_send call.now }
{
    matches!(call, Call::Send { .. })
}

fn is_post(call: &Call) -> bool
    ensures { result ≡ is_post call.now }
{
    matches!(call, Call::Post { .. })
}

/// Pairs a new receive as the run did.
fn follow_post(known: &mut Matcher, before: &[Event], event: &Event) -> Result<(), AllocError>
    requires known { KnowsUnpaired before.now known.old }
    requires event { IsAnEvent before.now event.now }
    requires post { IsTrue (is_post event.now.call) }
    requires start { is_start (event.now.call, event.now.reply) ≡ true }
    requires short { length before.now + 1 < 2 ^ 32 }
    ensures { OnOk result (KnowsUnpaired (before.now ++ event.now ∷ []) known.new) }
{
    known.knows_on();
    match event.mate {
        Some(mate) => {
            let sender = rank_at(before, mate);
            let _ = known.post_from(event.rank, &event.call, sender);
            Ok(())
        }
        None => {
            known.post(before.len() as u32, event.rank, &event.call)?;
            Ok(())
        }
    }
}
