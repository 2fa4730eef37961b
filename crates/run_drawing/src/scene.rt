//! What is looked up in a history while it is drawn.
ghost use Rattle.std.specs.Prelude.{◌≡◌, ◌<◌, ◌≤◌, ◌+◌, ◌^◌, ℕ, None, Some, IfOk, Option, length, max, option_map, slice_get, slice_index, if◌then◌else◌};
ghost use Rattle.std.specs.List.{list_any};
ghost use Rattle.mpi_call.specs.Calls.{is_wildcard};
ghost use Rattle.causes.specs.Clocks.{AreOfRanks};
ghost use Rattle.causes.specs.Positions.{start_position};
ghost use Rattle.msg_races.specs.Ways.{AreSends};
ghost use Rattle.run_model.specs.declared.event.Event.{Event as EventSpec};
ghost use Rattle.run_model.specs.Due.{stops};
ghost use Rattle.run_model.specs.Views.{rank_of_event};
ghost use Rattle.run_drawing.specs.Choices.{is_untaken};
ghost use Rattle.run_drawing.specs.Columns.{behind_all, column, column_behind, column_by, columns_of, point};
ghost use Rattle.run_drawing.specs.Drawings.{column_in, is_wildcard_at, is_wildcard_in};
ghost use Rattle.run_drawing.specs.Links.{cause_at, completion_in, last_position, links, taker_in};
ghost use Rattle.run_drawing.specs.inside.Scenes.{IsScene, basis_of};

use crate::drawing::Point;
use crate::links::{CompletedStart, Links, depth_at};
use crate::tracing::{Tracing, trace};
use causes::causes::Causes;
use mpi_call::call::{Call, Source};
use mpi_call::reply::Reply;
use msg_races::sends::{Sends, note_send};
use run_model::event::Event;
use std::alloc::{AllocError, Global};

/// Events with their depths, links and Sends.
#[derive(Drop)]
pub struct Scene<'a> {
    pub causes: Causes<'a>,
    pub depths: Vec<u32>,
    /// Of each event the last one that its reply had to wait for.
    pub late: Vec<Option<u32>>,
    pub links: Links,
    pub sends: Sends,
    /// The column of the events that stop their ranks.
    pub behind: u32,
}

/// Whether a reply stops its rank.
pub fn stops(reply: &Reply) -> bool
    ensures { result ≡ stops reply.now }
{
    matches!(reply, Reply::Stopped(_))
}

/// The Sends of these events, by their ways.
fn sends_of(alloc: Global, events: &[Event]) -> Result<Sends, AllocError>
    requires { length events.now < 2 ^ 32 }
    ensures { IfOk result (λ sends. AreSends events.now sends) }
{
    let mut sends = Sends::new(alloc);
    for (at, event) in events.iter().enumerate() {
        note_send(&mut sends, &events[..at], event)?;
    }
    Ok(sends)
}

/// The column behind an event of this depth, where it stops no rank.
fn column_behind(event: &Event, depth: u32) -> u32
    requires { depth + 1 < 2 ^ 32 }
    ensures { result ≡ column_behind (Some event.now) depth }
{
    if stops(&event.reply) { 0 } else { depth + 1 }
}

/// The column behind all events that stop no rank.
fn behind_all(events: &[Event], depths: &[u32]) -> u32
    requires few { (p : ℕ) → slice_index depths.now p + 1 < 2 ^ 32 }
    ensures { result ≡ behind_all events.now depths.now }
{
    let mut behind = 0u32;
    for (at, event) in events.iter().enumerate() {
        let depth = depths.get(at).copied().unwrap_or(0);
        behind = behind.max(column_behind(event, depth));
    }
    behind
}

/// How many columns stand behind them: one, if there is an event that stops its rank.
fn columns_behind(events: &[Event]) -> u64
    ensures columns { result ≡ (if list_any (λ (event : EventSpec). stops event.reply) events.now then 1 else 0) }
    ensures few { result ≤ 1 }
{
    if is_any_stopped(events) { 1 } else { 0 }
}

/// Whether an event stops its rank.
fn is_any_stopped(events: &[Event]) -> bool
    ensures { result ≡ list_any (λ (event : EventSpec). stops event.reply) events.now }
{
    events.iter().any(|event| stops(&event.reply))
}

/// What is looked up in the events of n ranks.
pub fn see<'a>(alloc: Global, n: u8, events: &'a [Event]) -> Result<Scene<'a>, AllocError>
    requires ranks { AreOfRanks n events.now }
    requires short { length events.now < 2 ^ 32 }
    ensures scene { IfOk result (λ scene. IsScene scene) }
    ensures ranks { IfOk result (λ scene. scene.causes.ranks ≡ n) }
    ensures events { IfOk result (λ scene. scene.causes.events ≡ events.now) }
{
    let causes = Causes::new(alloc, n, events)?;
    let sends = sends_of(alloc, events)?;
    let Tracing {
        tables: _,
        depths,
        causes: late,
        links,
    } = trace(alloc, n, events)?;
    let behind = behind_all(events, depths.as_slice());
    Ok(Scene {
        causes,
        depths,
        late,
        links,
        sends,
        behind,
    })
}

impl<'a> Scene<'a> {
    /// The event at a position.
    pub fn event(&self, place: u32) -> Option<&Event>
        ensures { option_map (λ event. event.now) result ≡ slice_get self.now.causes.events place }
    {
        self.causes.events().get(place as usize)
    }

    /// The column of the event at a position.
    pub fn column(&self, place: u32) -> u32
        requires { IsScene self.now }
        ensures { result ≡ column (basis_of self.now) place }
    {
        match self.event(place) {
            Some(event) => self.column_of(place, event),
            None => 0,
        }
    }

    /// The same, of this event.
    fn column_of(&self, place: u32, event: &Event) -> u32
        requires { IsScene self.now }
        ensures { result ≡ column_by (behind_all self.now.causes.events self.now.depths.items) (slice_index self.now.depths.items place) (Some event.now) }
    {
        if stops(&event.reply) {
            return self.behind;
        }
        depth_at(self.depths.as_slice(), place)
    }

    /// The rank of the event at a position.
    pub fn rank_at(&self, place: u32) -> u8
        ensures { result ≡ rank_of_event (slice_get self.now.causes.events place) }
    {
        match self.event(place) {
            Some(event) => event.rank,
            None => 0,
        }
    }

    /// Where the event at a position stands.
    pub fn point(&self, place: u32) -> Point
        requires { IsScene self.now }
        ensures { result ≡ point (basis_of self.now) place }
    {
        Point {
            rank: self.rank_at(place),
            column: self.column(place),
        }
    }

    /// The completion of the start at a position.
    pub fn completion(&self, place: u32) -> Option<CompletedStart>
        requires { IsScene self.now }
        ensures { result ≡ completion_in (links (basis_of self.now)) place }
    {
        self.links.completion(place)
    }

    /// The completion that had to wait for the event at a position.
    pub fn taker(&self, place: u32) -> Option<CompletedStart>
        requires { IsScene self.now }
        ensures { result ≡ taker_in (links (basis_of self.now)) place }
    {
        self.links.taker(place)
    }

    /// Whether the message of a Send was not taken before a position.
    pub fn is_open(&self, place: u32, send: u32) -> bool
        requires { IsScene self.now }
        ensures { result ≡ is_untaken (basis_of self.now) place send }
    {
        match self.taker(send) {
            Some(link) => link.at >= place,
            None => true,
        }
    }

    /// The last event that the reply at a position had to wait for.
    pub fn cause(&self, place: u32) -> Option<u32>
        requires { IsScene self.now }
        ensures { result ≡ cause_at self.now.causes.ranks self.now.causes.events self.now.depths.items place }
    {
        self.late.get(place as usize).copied().unwrap_or(None)
    }

    /// The column of a rank's last event; 0 where it has none.
    pub fn last_column(&self, rank: u8) -> u32
        requires { IsScene self.now }
        ensures { result ≡ column_in (basis_of self.now) (last_position self.now.causes.events rank) }
    {
        match self.causes.own_events(rank).last() {
            Some(place) => self.column(*place),
            None => 0,
        }
    }

    /// Whether the start of a rank with this number is a receive from any source.
    pub fn is_wildcard(&self, rank: u8, number: u32) -> bool
        ensures { result ≡ is_wildcard_at self.now.causes.events (start_position self.now.causes.events rank number) }
    {
        match self.causes.starts(rank).get(number as usize) {
            Some(place) => self.is_wildcard_at(*place),
            None => false,
        }
    }

    fn is_wildcard_at(&self, place: u32) -> bool
        ensures { result ≡ is_wildcard_in (slice_get self.now.causes.events place) }
    {
        match self.event(place) {
            Some(event) => is_wildcard(&event.call),
            None => false,
        }
    }

    /// How many columns there are.
    pub fn columns(&self) -> u64
        requires { IsScene self.now }
        ensures columns { result ≡ columns_of self.now.causes.events self.now.depths.items }
        ensures few { result ≤ 2 ^ 32 }
    {
        self.behind as u64 + columns_behind(self.causes.events())
    }
}

/// Whether a call is a receive from any source.
fn is_wildcard(call: &Call) -> bool
    ensures { result ≡ is_wildcard call.now }
{
    matches!(
        call,
        Call::Post {
            source: Source::Any,
            ..
        }
    )
}
