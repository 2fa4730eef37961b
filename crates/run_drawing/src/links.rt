//! Starts that were completed, and the last event that each had to wait for.
ghost use Rattle.std.specs.Prelude.{◌≡◌, ◌<◌, ◌^◌, ◌==◌, ◌++◌, ◌∷◌, [], ℕ, None, OnOk, Some, if◌then◌else◌, length, nat_eq, slice_index};
ghost use Rattle.std.specs.Map.{lookup};
ghost use Rattle.causes.specs.Beside.{AreTables};
ghost use Rattle.causes.specs.Positions.{is_at_position, start_position};
ghost use Rattle.causes.specs.Steps.{completed_from};
ghost use Rattle.run_drawing.specs.Links.{completion_in, deeper, deepest, link_by, links_by, links_in, taker_in, with_depth};
ghost use Rattle.run_drawing.specs.inside.Scenes.{AreIndexed, or_link};

use causes::positions::Positions;
use causes::rests::push_completed;
use causes::tables::Tables;
use indexmap::IndexMap;
use mpi_call::call::Call;
use mpi_call::reply::{Item, Reply};
use run_model::event::Event;
use std::alloc::{AllocError, Global};

/// A start that was completed.
#[derive(Clone, Copy)]
pub struct CompletedStart {
    /// The position of the start.
    pub start: u32,
    /// The position of the event that completed it.
    pub at: u32,
    /// The position of the last event that the completion had to wait for: the Send of a message, an Enter, the Post of a synchronous send.
    pub cause: Option<u32>,
}

/// The links of a history, in its order.
#[derive(Drop)]
pub struct Links {
    pub list: Vec<CompletedStart>,
    /// The first of each start.
    pub by_start: IndexMap<u32, CompletedStart>,
    /// The first of each cause.
    pub by_cause: IndexMap<u32, CompletedStart>,
}

/// The depth at a position; past the depths 0.
pub fn depth_at(depths: &[u32], place: u32) -> u32
    ensures { result ≡ slice_index depths.now place }
{
    depths.get(place as usize).copied().unwrap_or(0)
}

/// The deeper of two positions, the first where they are equally deep.
pub fn deeper(depths: &[u32], one: Option<u32>, other: Option<u32>) -> Option<u32>
    ensures { result ≡ deeper depths.now one other }
{
    let Some(first) = one else {
        return other;
    };
    let Some(second) = other else {
        return one;
    };
    if depth_at(depths, first) < depth_at(depths, second) {
        return other;
    }
    one
}

/// A position that has a depth.
fn with_depth(depths: &[u32], place: u32) -> Option<u32>
    ensures { result ≡ with_depth depths.now place }
{
    if (place as usize) < depths.len() {
        return Some(place);
    }
    None
}

/// The deepest of these positions, the first of those that are equally deep.
pub fn deepest(depths: &[u32], places: &[u32]) -> Option<u32>
    ensures { result ≡ deepest depths.now places.now }
{
    let mut found = None;
    let mut rest = places;
    while let [place, after @ ..] = rest {
        found = deeper(depths, found, with_depth(depths, *place));
        rest = after;
    }
    found
}

/// Keeps a link for a key that has none.
fn keep(
    map: &mut IndexMap<u32, CompletedStart>,
    key: u32,
    link: CompletedStart,
) -> Result<(), AllocError>
    ensures { OnOk result ((p : ℕ) → lookup (nat_eq p) map.new.entries ≡ or_link (lookup (nat_eq p) map.old.entries) (if key == p then Some link else None)) }
{
    if map.get(&key).is_some() {
        return Ok(());
    }
    map.insert(key, link)?;
    Ok(())
}

/// Keeps a link for a key, where there is one.
fn keep_some(
    map: &mut IndexMap<u32, CompletedStart>,
    key: Option<u32>,
    link: CompletedStart,
) -> Result<(), AllocError>
    ensures { OnOk result ((p : ℕ) → lookup (nat_eq p) map.new.entries ≡ or_link (lookup (nat_eq p) map.old.entries) (if is_at_position key p then Some link else None)) }
{
    match key {
        Some(key) => keep(map, key, link),
        None => Ok(()),
    }
}

impl Links {
    /// No links.
    pub fn new(alloc: Global) -> Self
        ensures none { result.list.items ≡ [] }
        ensures indexed { AreIndexed result }
    {
        Links {
            list: Vec::new(alloc),
            by_start: IndexMap::new(alloc),
            by_cause: IndexMap::new(alloc),
        }
    }

    /// The completion of the start at a position.
    pub fn completion(&self, start: u32) -> Option<CompletedStart>
        requires { AreIndexed self.now }
        ensures { result ≡ completion_in self.now.list.items start }
    {
        self.by_start.get(&start).copied()
    }

    /// The completion that had to wait for the event at a position.
    pub fn taker(&self, cause: u32) -> Option<CompletedStart>
        requires { AreIndexed self.now }
        ensures { result ≡ taker_in self.now.list.items cause }
    {
        self.by_cause.get(&cause).copied()
    }

    /// Adds a link at the end.
    fn add(&mut self, link: CompletedStart) -> Result<(), AllocError>
        requires { AreIndexed self.old }
        ensures indexed { OnOk result (AreIndexed self.new) }
        ensures list { OnOk result (self.new.list.items ≡ self.old.list.items ++ link ∷ []) }
    {
        keep(&mut self.by_start, link.start, link)?;
        keep_some(&mut self.by_cause, link.cause, link)?;
        self.list.push(link)?;
        Ok(())
    }

    /// Adds the link of a start, where there is one.
    fn add_some(
        &mut self,
        start: Option<u32>,
        at: u32,
        cause: Option<u32>,
    ) -> Result<(), AllocError>
        requires { AreIndexed self.old }
        ensures indexed { OnOk result (AreIndexed self.new) }
        ensures list { OnOk result (self.new.list.items ≡ self.old.list.items ++ link_by start at cause) }
    {
        match start {
            Some(start) => self.add(CompletedStart { start, at, cause }),
            None => Ok(()),
        }
    }

    /// Adds the link of a rank's start with a number, which an item completes.
    fn add_item(
        &mut self,
        alloc: Global,
        before: &[Event],
        tables: &Tables,
        depths: &[u32],
        me: u8,
        number: u32,
        item: &Item,
    ) -> Result<(), AllocError>
        requires tables { AreTables before.now tables.now }
        requires short { length before.now < 2 ^ 32 }
        requires indexed { AreIndexed self.old }
        ensures indexed { OnOk result (AreIndexed self.new) }
        ensures list { OnOk result (self.new.list.items ≡ self.old.list.items ++ link_by (start_position before.now me number) (length before.now) (deepest depths.now (completed_from tables.now.ranks before.now me number item.now.got))) }
    {
        let mut places = Positions::new(alloc);
        push_completed(&mut places, before, tables, me, number, &item.got)?;
        let cause = deepest(depths, places.as_slice());
        self.add_some(tables.start(me, number), before.len() as u32, cause)
    }

    /// Adds the links of a rank's starts that these items complete. An index past the list reads 0.
    fn add_items(
        &mut self,
        alloc: Global,
        before: &[Event],
        tables: &Tables,
        depths: &[u32],
        me: u8,
        starts: &[u32],
        items: &[Item],
    ) -> Result<(), AllocError>
        requires tables { AreTables before.now tables.now }
        requires short { length before.now < 2 ^ 32 }
        requires indexed { AreIndexed self.old }
        ensures indexed { OnOk result (AreIndexed self.new) }
        ensures list { OnOk result (self.new.list.items ≡ self.old.list.items ++ links_in tables.now.ranks depths.now before.now me starts.now items.now) }
    {
        let mut rest = items;
        while let [item, after @ ..] = rest {
            let number = starts.get(item.index as usize).copied().unwrap_or(0);
            self.add_item(alloc, before, tables, depths, me, number, item)?;
            rest = after;
        }
        Ok(())
    }

    /// Adds the links of the event that comes next.
    pub fn add_event(
        &mut self,
        alloc: Global,
        before: &[Event],
        tables: &Tables,
        depths: &[u32],
        event: &Event,
    ) -> Result<(), AllocError>
        requires tables { AreTables before.now tables.now }
        requires short { length before.now < 2 ^ 32 }
        requires indexed { AreIndexed self.old }
        ensures indexed { OnOk result (AreIndexed self.new) }
        ensures list { OnOk result (self.new.list.items ≡ self.old.list.items ++ links_by tables.now.ranks depths.now before.now event.now.rank event.now.call event.now.reply) }
    {
        let Reply::Took(items) = &event.reply else {
            return Ok(());
        };
        match &event.call {
            Call::Take { starts, .. } => self.add_items(
                alloc,
                before,
                tables,
                depths,
                event.rank,
                starts.as_slice(),
                items.as_slice(),
            ),
            _ => self.add_items(
                alloc,
                before,
                tables,
                depths,
                event.rank,
                &[],
                items.as_slice(),
            ),
        }
    }
}
