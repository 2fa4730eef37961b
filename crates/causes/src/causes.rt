//! Happens-before, by vector clocks.
ghost use Rattle.std.specs.Prelude.{◌≡◌, ◌<◌, ◌≤◌, ◌+◌, ◌^◌, ◌++◌, ◌∷◌, ◌↔◌, [], ℕ, suc, IfOk, OnOk, IsTrue, Some, length, slice_get, take};
ghost use Rattle.run_model.specs.declared.event.Event.{Event as EventSpec};
ghost use Rattle.causes.specs.Before.{IsBefore, IsUpTo};
ghost use Rattle.causes.specs.Beside.{AreTables};
ghost use Rattle.causes.specs.Clocks.{AreClocks, AreOfRanks, IsClock, TellsBefore, comes_before, number_of_event};
ghost use Rattle.causes.specs.inside.Seen.{IsSeenByCauses};
ghost use Rattle.causes.specs.Positions.{next_number, is_event_of, is_start_of, positions};

use crate::clock::{Clock, join_all};
use crate::key::{Key, events_key, starts_key};
use crate::position_table::PositionTable;
use crate::positions::Positions;
use crate::rests::push_rests;
use crate::tables::Tables;
use run_model::event::Event;
use std::alloc::{AllocError, Global};
use std::marker::Model;

/// Events, with a clock for each; contracts see the number of ranks, the events, their clocks and their numbers.
#[derive(Drop)]
pub struct Causes<'a> {
    ranks: u8,
    events: &'a [Event],
    clocks: Vec<Clock>,
    /// The number of each event among its rank's events.
    numbers: Vec<u32>,
    /// Positions of events by keys.
    places: PositionTable<Key>,
}

impl<'a> Model for Causes<'a> {
    ghost use Rattle.std.specs.Prelude.{◌<◌, ◌^◌, length};
    ghost use Rattle.causes.specs.Clocks.{AreClocks, AreNumbers, AreOfRanks, Observed};
    ghost use Rattle.causes.specs.Tables.{IsPlaceTable};

    ghost Value = { Observed };

    ghost view = { λ s. record { ranks = s.ranks; events = s.events.now; clocks = s.clocks.items; numbers = s.numbers.items } };

    ghost invariant = { λ s. AreOfRanks s.ranks s.events.now × AreClocks s.ranks s.events.now s.clocks.items × AreNumbers s.events.now s.numbers.items × IsPlaceTable s.events.now s.places × (length s.events.now < 2 ^ 32) };
}

impl<'a> Causes<'a> {
    /// The clocks of these events, in one pass over them.
    pub fn new(alloc: Global, ranks: u8, events: &'a [Event]) -> Result<Self, AllocError>
        requires ranks { AreOfRanks ranks events.now }
        requires short { length events.now < 2 ^ 32 }
        ensures ranks { IfOk result (λ causes. causes.ranks ≡ ranks) }
        ensures events { IfOk result (λ causes. causes.events ≡ events.now) }
    {
        let mut seen = CausesSoFar::new(alloc, ranks)?;
        for (at, event) in events.iter().enumerate() {
            seen.add(alloc, &events[..at], event)?;
        }
        Ok(Causes {
            ranks,
            events,
            clocks: seen.clocks,
            numbers: seen.numbers,
            places: seen.tables.places,
        })
    }

    /// Whether the event at `t` is before the one at `u`. No position past the events is before another, or after one.
    pub fn is_before(&self, t: u32, u: u32) -> bool
        ensures before { IsTrue result ↔ IsBefore self.now.ranks self.now.events t u }
        ensures test { result ≡ comes_before self.now t u }
    {
        if t >= u || u as usize >= self.events.len() {
            return false;
        }
        let numbers = self.numbers.as_slice();
        let rank = self.events[t as usize].rank;
        numbers[t as usize] < self.count(u, rank)
    }

    /// The test of the clocks tells which events are before which. The body does nothing: the clocks are kept so.
    pub fn tells(&self)
        ensures { TellsBefore (comes_before self.now) self.now.ranks self.now.events }
    {
        let _ = &self.ranks;
    }

    /// The number of ranks.
    pub fn ranks(&self) -> u8
        ensures { result ≡ self.now.ranks }
    {
        self.ranks
    }

    /// The events in order.
    pub fn events(&self) -> &[Event]
        ensures { result.now ≡ self.now.events }
    {
        self.events
    }

    /// The positions of a rank's starts, in order.
    pub fn starts(&self, rank: u8) -> &[u32]
        ensures starts { result.now ≡ positions (is_start_of rank) 0 self.now.events }
        ensures short { length result.now < 2 ^ 32 }
    {
        self.places.get(&starts_key(rank))
    }

    /// The positions of a rank's events, in order.
    pub fn own_events(&self, rank: u8) -> &[u32]
        ensures { result.now ≡ positions (is_event_of rank) 0 self.now.events }
    {
        self.places.get(&events_key(rank))
    }

    /// How many of a rank's events are at a position or before it: the events with the numbers below it, and there are so many up to the position.
    pub fn count(&self, u: u32, rank: u8) -> u32
        requires place { u < length self.now.events }
        requires rank { rank < self.now.ranks }
        ensures few { result ≤ next_number rank (take (suc u) self.now.events) }
        ensures tells { (t : ℕ) (event : EventSpec) → t ≤ u → slice_get self.now.events t ≡ Some event → event.rank ≡ rank
            → (number_of_event self.now.events rank t < result) ↔ IsUpTo self.now.ranks self.now.events t u }
    {
        self.clocks[u as usize].get(rank)
    }
}

/// The tables, clocks and numbers beside the events so far.
#[derive(Drop)]
struct CausesSoFar {
    tables: Tables,
    clocks: Vec<Clock>,
    numbers: Vec<u32>,
}

impl CausesSoFar {
    /// No events.
    fn new(alloc: Global, ranks: u8) -> Result<Self, AllocError>
        ensures { IfOk result (λ seen. IsSeenByCauses ranks [] seen) }
    {
        Ok(CausesSoFar {
            tables: Tables::new(alloc, ranks)?,
            clocks: Vec::new(alloc),
            numbers: Vec::new(alloc),
        })
    }

    /// Adds the event that comes next.
    fn add(&mut self, alloc: Global, before: &[Event], event: &Event) -> Result<(), AllocError>
        requires seen { IsSeenByCauses self.old.tables.ranks before.now self.old }
        requires short { length before.now + 1 < 2 ^ 32 }
        requires rank { event.now.rank < self.old.tables.ranks }
        ensures seen { OnOk result (IsSeenByCauses self.old.tables.ranks (before.now ++ event.now ∷ []) self.new) }
    {
        let clock = clock_of(alloc, before, &self.tables, self.clocks.as_slice(), event)?;
        let number = number_of(&self.tables, before, event.rank);
        self.clocks.push(clock)?;
        self.numbers.push(number)?;
        self.tables.note(before.len() as u32, event)
    }
}

/// How many events of a rank there are so far.
fn number_of(tables: &Tables, before: &[Event], rank: u8) -> u32
    requires tables { AreTables before.now tables.now }
    requires short { length before.now < 2 ^ 32 }
    ensures { result ≡ next_number rank before.now }
{
    tables.places.get(&events_key(rank)).len() as u32
}

/// The clock of the event that comes next.
fn clock_of(
    alloc: Global,
    before: &[Event],
    tables: &Tables,
    clocks: &[Clock],
    event: &Event,
) -> Result<Clock, AllocError>
    requires tables { AreTables before.now tables.now }
    requires short { length before.now + 1 < 2 ^ 32 }
    requires clocks { AreClocks tables.now.ranks before.now clocks.now }
    requires rank { event.now.rank < tables.now.ranks }
    ensures { IfOk result (λ clock. IsClock tables.now.ranks (before.now ++ event.now ∷ []) (length before.now) clock) }
{
    let mut places = Positions::new(alloc);
    places.push_some(tables.places.get(&events_key(event.rank)).last().copied())?;
    push_rests(&mut places, before, tables, event)?;
    let mut clock = Clock::new(alloc, tables.ranks as usize)?;
    join_all(&mut clock, clocks, places.as_slice());
    clock.set(event.rank, number_of(tables, before, event.rank) + 1);
    Ok(clock)
}
