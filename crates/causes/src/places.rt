//! Positions of events by the names of their lists.
ghost use Rattle.std.specs.List.Sorted.{IsNonDecreasingBy};
ghost use Rattle.std.specs.Prelude.{◌≡◌, ◌++◌, ◌∷◌, [], ℕ, List, OnOk, length};
ghost use Rattle.mpi_call.specs.Lists.{count_below};
ghost use Rattle.run_model.specs.declared.event.Event.{Event as EventSpec};
ghost use Rattle.run_model.specs.Views.{starts_of, view_of};
ghost use Rattle.causes.specs.Tables.{AddsPosition, IsPlaceTable, adds_enter, adds_start};

use crate::key::{Key, enters_key, events_key, starts_key};
use crate::position_table::PositionTable;
use mpi_call::call::Call;
use run_model::event::Event;
use run_model::starts::is_start;
use std::alloc::AllocError;

impl PositionTable<Key> {
    /// Adds the position of an event that is a start.
    fn push_start(&mut self, at: u32, event: &Event) -> Result<(), AllocError>
        ensures { OnOk result (AddsPosition (adds_start event.now) at self.old self.new) }
    {
        if is_start(&event.call, &event.reply) {
            return self.push(&starts_key(event.rank), at);
        }
        Ok(())
    }

    /// Adds the position of an event that is an Enter.
    fn push_enter(&mut self, at: u32, event: &Event) -> Result<(), AllocError>
        ensures { OnOk result (AddsPosition (adds_enter event.now) at self.old self.new) }
    {
        if let Call::Enter { comm, .. } = &event.call {
            if is_start(&event.call, &event.reply) {
                return self.push(&enters_key(event.rank, *comm), at);
            }
        }
        Ok(())
    }

    /// Adds the position of an event.
    pub fn note(&mut self, at: u32, event: &Event) -> Result<(), AllocError>
        ensures { OnOk result ((before : List EventSpec) → at ≡ length before → IsPlaceTable before self.old → IsPlaceTable (before ++ event.now ∷ []) self.new) }
    {
        self.push(&events_key(event.rank), at)?;
        self.push_start(at, event)?;
        self.push_enter(at, event)
    }

    /// The number that a rank's start has at the position that comes next.
    pub fn next_start(&self, rank: u8, at: u32) -> u32
        ensures { (before : List EventSpec) → at ≡ length before → IsPlaceTable before self.now → result ≡ length (starts_of (view_of before rank)) }
    {
        let starts = self.get(&starts_key(rank)).len();
        // There are no more starts than positions.
        starts.min(at as usize) as u32
    }
}

/// How many of these rising positions stand before another.
pub fn count_below(places: &[u32], at: u32) -> usize
    requires { IsNonDecreasingBy (λ (place : ℕ). place) places.now }
    ensures { result ≡ count_below at places.now }
{
    places.partition_point(|place| *place < at)
}
