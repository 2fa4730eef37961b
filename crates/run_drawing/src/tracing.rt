//! One pass over the events: how deep each lies, and what each had to wait for.
ghost use Rattle.std.specs.Prelude.{◌≡◌, ◌<◌, ◌+◌, ◌-◌, ◌^◌, ℕ, IfOk, OnOk, Option, Some, None, length, slice_index};
ghost use Rattle.causes.specs.Beside.{AreTables};
ghost use Rattle.causes.specs.Steps.{rests_on};
ghost use Rattle.run_drawing.specs.Links.{deeper, deepest, depth_after, last_position};
ghost use Rattle.run_drawing.specs.inside.Scenes.{IsTraced};

use crate::links::{Links, deeper, deepest, depth_at};
use causes::key::events_key;
use causes::positions::Positions;
use causes::rests::push_rests;
use causes::tables::Tables;
use run_model::event::Event;
use std::alloc::{AllocError, Global};

/// What is known of the events so far.
#[derive(Drop)]
pub struct Tracing {
    pub tables: Tables,
    pub depths: Vec<u32>,
    /// Of each event the last one that its reply had to wait for.
    pub causes: Vec<Option<u32>>,
    pub links: Links,
}

/// Reads the events of n ranks once.
pub fn trace(alloc: Global, n: u8, events: &[Event]) -> Result<Tracing, AllocError>
    requires short { length events.now < 2 ^ 32 }
    ensures { IfOk result (IsTraced n events.now (length events.now)) }
{
    let mut tracing = Tracing {
        tables: Tables::new(alloc, n)?,
        depths: Vec::new(alloc),
        causes: Vec::new(alloc),
        links: Links::new(alloc),
    };
    for at in 0..events.len() {
        tracing.add(alloc, events, at)?;
    }
    Ok(tracing)
}

impl Tracing {
    /// Adds the event at a position, which comes next.
    fn add(&mut self, alloc: Global, events: &[Event], at: usize) -> Result<(), AllocError>
        requires traced { IsTraced self.old.tables.ranks events.now at self.old }
        requires there { at < length events.now }
        requires short { length events.now < 2 ^ 32 }
        ensures { OnOk result (IsTraced self.old.tables.ranks events.now (at + 1) self.new) }
    {
        let event = &events[at];
        let before = &events[..at];
        let cause = cause_of(alloc, before, &self.tables, self.depths.as_slice(), event)?;
        let depth = depth_of(
            before,
            &self.tables,
            self.depths.as_slice(),
            event.rank,
            cause,
        );
        self.links
            .add_event(alloc, before, &self.tables, self.depths.as_slice(), event)?;
        self.depths.push(depth)?;
        self.causes.push(cause)?;
        self.tables.note(at as u32, event)
    }
}

/// The last event that the reply to the next event had to wait for.
fn cause_of(
    alloc: Global,
    before: &[Event],
    tables: &Tables,
    depths: &[u32],
    event: &Event,
) -> Result<Option<u32>, AllocError>
    requires { AreTables before.now tables.now }
    ensures { IfOk result (λ cause. cause ≡ deepest depths.now (rests_on tables.now.ranks before.now event.now.rank event.now.call event.now.reply)) }
{
    let mut places = Positions::new(alloc);
    push_rests(&mut places, before, tables, event)?;
    Ok(deepest(depths, places.as_slice()))
}

/// The depth of the next event: one more than that of the rank's last one, or of the one that it had to wait for.
fn depth_of(before: &[Event], tables: &Tables, depths: &[u32], rank: u8, cause: Option<u32>) -> u32
    requires tables { AreTables before.now tables.now }
    requires few { (p : ℕ) → slice_index depths.now p + 1 < 2 ^ 32 }
    ensures { result ≡ depth_after depths.now (deeper depths.now (last_position before.now rank) cause) }
{
    let last = tables.places.get(&events_key(rank)).last().copied();
    match deeper(depths, last, cause) {
        Some(place) => depth_at(depths, place) + 1,
        None => 0,
    }
}
