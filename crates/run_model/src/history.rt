//! The events of a run, in order.
ghost use Rattle.std.specs.Prelude.{◌≡◌, ◌+◌, ◌≤◌, ◌<◌, ◌^◌, ◌++◌, ◌∷◌, [], OnOk, OnErr, length, Some, slice_get};

use crate::event::Event;
use std::alloc::{AllocError, Global};
use std::marker::Model;

/// Events in order, which contracts see as their list, beside the number that can be added without taking memory.
#[derive(Drop)]
pub struct History {
    events: Vec<Event>,
}

impl Model for History {
    ghost use Rattle.run_model.specs.Views.{Kept};
    ghost use Rattle.std.specs.Prelude.{vec_len, vec_capacity, ◌-◌, ◌<◌, ◌^◌};

    ghost Value = { Kept };

    ghost view = { λ h. record { events = h.events.items; spare = vec_capacity h.events - vec_len h.events } };

    ghost invariant = { λ h. vec_len h.events < 2 ^ 32 };
}

impl History {
    /// No events.
    pub fn new(alloc: Global) -> Self
        ensures { result.events ≡ [] }
    {
        History {
            events: Vec::new(alloc),
        }
    }

    /// Makes room for `more` events. Never gives room back.
    pub fn reserve(&mut self, more: u32) -> Result<(), AllocError>
        ensures events { self.new.events ≡ self.old.events }
        ensures room { OnOk result (more ≤ self.new.spare) }
        ensures kept { self.old.spare ≤ self.new.spare }
        ensures err { OnErr result (self.new ≡ self.old) }
    {
        self.events.reserve(more as usize)
    }

    /// Appends an event. Takes no memory.
    pub fn push(&mut self, event: Event)
        requires room { 0 < self.old.spare }
        requires short { length self.old.events + 1 < 2 ^ 32 }
        ensures events { self.new.events ≡ self.old.events ++ event ∷ [] }
        ensures spare { self.new.spare + 1 ≡ self.old.spare }
    {
        self.events.push_reserved(event);
    }

    /// The number of events.
    pub fn len(&self) -> u32
        ensures { result ≡ length self.now.events }
    {
        self.events.len() as u32
    }

    /// The event at a position.
    pub fn get(&self, at: u32) -> &Event
        requires { at < length self.now.events }
        ensures { slice_get self.now.events at ≡ Some result.now }
    {
        &self.events[at as usize]
    }

    /// The events in order.
    pub fn as_slice(&self) -> &[Event]
        ensures events { result.now ≡ self.now.events }
        ensures short { length result.now < 2 ^ 32 }
    {
        &self.events
    }
}
