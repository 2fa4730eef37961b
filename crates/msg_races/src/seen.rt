//! What is looked up in the events of a history.
ghost use Rattle.std.specs.Prelude.{◌≡◌, ◌<◌, ◌^◌, ◌++◌, ℕ, IfOk, OnOk, length};
ghost use Rattle.std.specs.List.Sorted.{IsNonDecreasingBy};
ghost use Rattle.causes.specs.Clocks.{AreOfRanks, comes_before};
ghost use Rattle.msg_races.specs.Listing.{arrival_at, open_names, racing_below, racing_from, unless_taken};
ghost use Rattle.msg_races.specs.inside.Seen.{IsSeenByRaces};

use crate::arrival::{self, Arrival, way_from};
use crate::completions::Completions;
use crate::names::{Name, Names};
use crate::sends::{Sends, note_send};
use causes::causes::Causes;
use causes::places::count_below;
use run_model::event::Event;
use std::alloc::{AllocError, Global};

/// The clocks, Sends and completions of a history.
#[derive(Drop)]
pub struct SeenHistory<'a> {
    pub causes: Causes<'a>,
    pub sends: Sends,
    pub completions: Completions,
}

/// What is looked up in these events.
pub fn see<'a>(alloc: Global, ranks: u8, events: &'a [Event]) -> Result<SeenHistory<'a>, AllocError>
    requires ranks { AreOfRanks ranks events.now }
    requires short { length events.now < 2 ^ 32 }
    ensures seen { IfOk result (λ seen. IsSeenByRaces seen) }
    ensures ranks { IfOk result (λ seen. seen.causes.ranks ≡ ranks) }
    ensures events { IfOk result (λ seen. seen.causes.events ≡ events.now) }
{
    let mut sends = Sends::new(alloc);
    let mut completions = Completions::new(alloc);
    for (at, event) in events.iter().enumerate() {
        note_send(&mut sends, &events[..at], event)?;
        completions.note(&events[..at], event)?;
    }
    Ok(SeenHistory {
        causes: Causes::new(alloc, ranks, events)?,
        sends,
        completions,
    })
}

/// Adds a name, unless it is the one that was taken.
fn push_unless_taken(others: &mut Names, took: Name, name: Name) -> Result<(), AllocError>
    ensures { OnOk result (others.new ≡ others.old ++ unless_taken took name) }
{
    if name == took {
        return Ok(());
    }
    others.push(name)?;
    Ok(())
}

/// Adds the names of a sender's Sends at these positions, up to the first that comes after position `at`.
fn push_sent(
    others: &mut Names,
    causes: &Causes<'_>,
    arrival: &Arrival,
    sender: u8,
    starts: &[u32],
    sent: &[u32],
) -> Result<(), AllocError>
    requires sorted { IsNonDecreasingBy (λ (place : ℕ). place) starts.now }
    requires short { length starts.now < 2 ^ 32 }
    ensures { OnOk result (others.new ≡ others.old ++ open_names (comes_before causes.now arrival.now.at) sender starts.now arrival.now.took sent.now) }
{
    let mut rest = sent;
    while let [place, after @ ..] = rest {
        if causes.is_before(arrival.at, *place) {
            return Ok(());
        }
        let start = count_below(starts, *place) as u32;
        let name = Name {
            rank: sender,
            start,
        };
        push_unless_taken(others, arrival.took, name)?;
        rest = after;
    }
    Ok(())
}

impl<'a> SeenHistory<'a> {
    /// Adds the others of a sender: the Sends that the completion is before are the last ones.
    fn push_others(
        &self,
        others: &mut Names,
        arrival: &Arrival,
        sender: u8,
    ) -> Result<(), AllocError>
        requires seen { IsSeenByRaces self.now }
        ensures { OnOk result (others.new ≡ others.old ++ racing_from self.now.causes arrival.now sender) }
    {
        let starts = self.causes.starts(sender);
        let sent = self.sends.get(&way_from(arrival, sender));
        push_sent(others, &self.causes, arrival, sender, starts, sent)
    }

    /// The others of a receive, by sender and start number.
    pub fn others_of(&self, alloc: Global, arrival: &Arrival) -> Result<Names, AllocError>
        requires seen { IsSeenByRaces self.now }
        ensures { IfOk result (λ others. others ≡ racing_below self.now.causes arrival.now self.now.causes.ranks) }
    {
        let mut others = Names::new(alloc);
        for sender in 0..self.causes.ranks() {
            self.push_others(&mut others, arrival, sender)?;
        }
        Ok(others)
    }

    /// The receive with this name, if it is a wildcard receive that was completed. Its Post stands at a position.
    pub fn arrival(&self, name: Name, place: u32) -> Option<Arrival>
        requires seen { IsSeenByRaces self.now }
        ensures { result ≡ arrival_at self.now.causes.events name place }
    {
        arrival::arrival_at(
            self.causes.events(),
            name,
            place,
            self.completions.get(&name),
        )
    }
}
