//! The events of a history, handed out rank by rank.
ghost use Rattle.std.specs.Prelude.{◌≡◌, ◌++◌, ◌∷◌, [], IfOk, OnOk, map, replicate};
ghost use Rattle.run_model.specs.Views.{view_of};

use crate::event::Event;
use crate::history::History;
use std::alloc::{AllocError, Global};
use std::marker::Model;

/// How many ranks a byte can name.
const RANKS: usize = 256;

/// The events of one rank, lent from a history; contracts see what the rank has seen.
#[derive(Drop)]
struct RankEvents<'a> {
    events: Vec<&'a Event>,
}

impl<'a> Model for RankEvents<'a> {
    ghost use Rattle.std.specs.Prelude.{map};
    ghost use Rattle.run_model.specs.Views.{View};

    ghost Value = { View };

    ghost view = { λ s. map (λ event. (event.now.call, event.now.reply)) s.events.items };
}

impl<'a> RankEvents<'a> {
    /// No events.
    fn new(alloc: Global) -> Self
        ensures { result ≡ [] }
    {
        RankEvents {
            events: Vec::new(alloc),
        }
    }

    /// Adds an event at the end.
    fn push(&mut self, event: &'a Event) -> Result<(), AllocError>
        ensures { OnOk result (self.new ≡ self.old ++ (event.now.call, event.now.reply) ∷ []) }
    {
        self.events.push(event)?;
        Ok(())
    }

    /// The events in order.
    fn as_slice(&self) -> &[&'a Event]
        ensures { map (λ event. (event.now.call, event.now.reply)) result.now ≡ self.now }
    {
        &self.events
    }
}

/// The events of a history by their ranks, each rank's in order; contracts see the events. Takes a word for each event.
#[derive(Drop)]
pub struct ByRank<'a> {
    history: &'a History,
    ranks: Vec<RankEvents<'a>>,
}

impl<'a> Model for ByRank<'a> {
    ghost use Rattle.std.specs.Prelude.{List, []};
    ghost use Rattle.run_model.specs.declared.event.Event.{Event};
    ghost use Rattle.run_model.specs.ByRank.{AreViewsBefore};

    ghost Value = { List Event };

    ghost view = { λ s. s.history.now.events };

    ghost invariant = { λ s. AreViewsBefore s.history.now.events [] s.ranks.items };
}

impl<'a> ByRank<'a> {
    /// Reads the events once.
    pub fn new(alloc: Global, history: &'a History) -> Result<Self, AllocError>
        ensures { IfOk result (λ by_rank. by_rank ≡ history.now.events) }
    {
        let mut ranks = no_events(alloc)?;
        let mut rest = history.as_slice();
        while let [event, after @ ..] = rest {
            ranks[event.rank as usize].push(event)?;
            rest = after;
        }
        Ok(ByRank { history, ranks })
    }

    /// The events of a rank, in order. Takes no memory.
    pub fn get(&self, rank: u8) -> &[&'a Event]
        ensures { map (λ event. (event.now.call, event.now.reply)) result.now ≡ view_of self.now rank }
    {
        self.ranks[rank as usize].as_slice()
    }
}

/// No events of every rank.
fn no_events<'a>(alloc: Global) -> Result<Vec<RankEvents<'a>>, AllocError>
    ensures { IfOk result (λ ranks. ranks.items ≡ replicate 256 []) }
{
    let mut ranks = Vec::new(alloc);
    for _ in 0..RANKS {
        ranks.push(RankEvents::new(alloc))?;
    }
    Ok(ranks)
}
