//! The messages that a receive from any source could have taken instead.
ghost use Rattle.std.specs.Prelude.{◌≡◌, ◌<◌, ◌≤◌, ◌++◌, ◌^◌, [], ℕ, IfOk, OnOk, false, if◌then◌else◌, length, map, slice_index, Some, true};
ghost use Rattle.mpi_call.specs.Acceptance.{tag_named};
ghost use Rattle.causes.specs.Positions.{positions};
ghost use Rattle.msg_races.specs.declared.sends.Way.{Way as WaySpec};
ghost use Rattle.msg_races.specs.Ways.{goes_way, same_way};
ghost use Rattle.run_drawing.specs.Choices.{choice_beside, choices, first_untaken, is_untaken, unless_late};
ghost use Rattle.run_drawing.specs.Columns.{point};
ghost use Rattle.run_drawing.specs.inside.Scenes.{ArePast, IsScene, basis_of, skipped_at};

use crate::drawing::Points;
use crate::scene::Scene;
use indexmap::IndexMap;
use mpi_call::call::{Comm, Source, Tag};
use msg_races::sends::Way;
use std::alloc::{AllocError, Global};
use std::marker::Model;

/// How many Sends of a way were taken before the receives that are looked at; contracts see a list.
#[derive(Drop)]
pub struct Skipped {
    counts: IndexMap<Way, u32>,
}

impl Model for Skipped {
    ghost use Rattle.std.specs.Prelude.{List, ℕ};
    ghost use Rattle.msg_races.specs.declared.sends.Way.{Way};

    ghost Value = { List (Way × ℕ) };

    ghost view = { λ s. s.counts.entries };
}

/// A receive that was posted at a position.
#[derive(Clone, Copy)]
pub struct Posted {
    pub place: u32,
    pub rank: u8,
    pub comm: Comm,
    pub source: Source,
    pub tag: Tag,
}

/// The tag that a receive names, None for any.
fn tag_named(tag: &Tag) -> Option<u32>
    ensures { result ≡ tag_named tag.now }
{
    match tag {
        Tag::Any => None,
        Tag::Is(tag) => Some(*tag),
    }
}

/// How many of these Sends were taken before a position, from one on.
fn skip(scene: &Scene<'_>, sent: &[u32], from: u32, post: u32) -> u32
    requires scene { IsScene scene.now }
    requires short { length sent.now < 2 ^ 32 }
    ensures from { from ≤ result }
    ensures taken { (k : ℕ) → from ≤ k → k < result → k < length sent.now → is_untaken (basis_of scene.now) post (slice_index sent.now k) ≡ false }
    ensures first { result < length sent.now → is_untaken (basis_of scene.now) post (slice_index sent.now result) ≡ true }
{
    let mut count = from;
    while (count as usize) < sent.len() && !scene.is_open(post, sent[count as usize]) {
        count += 1;
    }
    count
}

impl Skipped {
    /// None of any way.
    pub fn new(alloc: Global) -> Self
        ensures { result ≡ [] }
    {
        Skipped {
            counts: IndexMap::new(alloc),
        }
    }

    fn get(&self, way: &Way) -> u32
        ensures { result ≡ skipped_at self.now way.now }
    {
        match self.counts.get(way) {
            Some(count) => *count,
            None => 0,
        }
    }

    fn set(&mut self, way: &Way, count: u32) -> Result<(), AllocError>
        ensures { OnOk result ((other : WaySpec) → skipped_at self.new other ≡ (if same_way way.now other then count else skipped_at self.old other)) }
    {
        self.counts.insert(*way, count)?;
        Ok(())
    }

    /// The first Send of a way whose message was not taken before a position.
    fn first_open(
        &mut self,
        scene: &Scene<'_>,
        way: &Way,
        post: u32,
    ) -> Result<Option<u32>, AllocError>
        requires scene { IsScene scene.now }
        requires past { ArePast (basis_of scene.now) post self.old }
        ensures first { IfOk result (λ first. first ≡ first_untaken (basis_of scene.now) post (positions (goes_way way.now) 0 scene.now.causes.events)) }
        ensures past { OnOk result (ArePast (basis_of scene.now) post self.new) }
    {
        let sent = scene.sends.get(way);
        let count = skip(scene, sent, self.get(way), post);
        self.set(way, count)?;
        Ok(sent.get(count as usize).copied())
    }

    /// Adds the choice of a sender, unless the completion comes before it.
    fn push_choice(
        &mut self,
        found: &mut Points,
        scene: &Scene<'_>,
        posted: &Posted,
        at: u32,
        took: u8,
        sender: u8,
    ) -> Result<(), AllocError>
        requires scene { IsScene scene.now }
        requires past { ArePast (basis_of scene.now) posted.now.place self.old }
        ensures choice { OnOk result (found.new ≡ found.old ++ choice_beside (basis_of scene.now) posted.now at took sender) }
        ensures past { OnOk result (ArePast (basis_of scene.now) posted.now.place self.new) }
    {
        if sender == took {
            return Ok(());
        }
        let way = Way {
            sender,
            comm: posted.comm,
            receiver: posted.rank,
            tag: tag_named(&posted.tag),
        };
        match self.first_open(scene, &way, posted.place)? {
            Some(send) => push_unless_late(found, scene, at, send),
            None => Ok(()),
        }
    }

    /// What a receive could have taken instead, of each other sender.
    pub fn choices(
        &mut self,
        alloc: Global,
        scene: &Scene<'_>,
        posted: &Posted,
        at: u32,
        took: u8,
    ) -> Result<Points, AllocError>
        requires scene { IsScene scene.now }
        requires past { ArePast (basis_of scene.now) posted.now.place self.old }
        ensures choices { IfOk result (λ found. found ≡ choices (basis_of scene.now) posted.now at took) }
        ensures past { OnOk result (ArePast (basis_of scene.now) posted.now.place self.new) }
    {
        let mut found = Points::new(alloc);
        for sender in 0..scene.causes.ranks() {
            self.push_choice(&mut found, scene, posted, at, took, sender)?;
        }
        Ok(found)
    }
}

/// Adds the place of a Send, unless the completion at a position is before it.
fn push_unless_late(
    found: &mut Points,
    scene: &Scene<'_>,
    at: u32,
    send: u32,
) -> Result<(), AllocError>
    requires { IsScene scene.now }
    ensures { OnOk result (found.new ≡ found.old ++ map (point (basis_of scene.now)) (unless_late ((basis_of scene.now).before at) (Some send))) }
{
    if scene.causes.is_before(at, send) {
        return Ok(());
    }
    found.push(scene.point(send))?;
    Ok(())
}
