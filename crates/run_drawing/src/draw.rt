//! Drawing a run.
ghost use Rattle.std.specs.Prelude.{◌≡◌, ◌<◌, ◌++◌, [], IfOk, Ok, OnOk, Option, Some, None, flat_map, slice_get, slice_index};
ghost use Rattle.std.specs.List.{list_any};
ghost use Rattle.mpi_call.specs.declared.reply.Item.{Item as ItemSpec};
ghost use Rattle.causes.specs.Clocks.{AreOfRanks};
ghost use Rattle.causes.specs.Positions.{start_position};
ghost use Rattle.group_plan.specs.Plans.{group_of, number_of_ranks};
ghost use Rattle.msg_races.specs.Listing.{lists_below};
ghost use Rattle.run_drawing.specs.Drawings.{IsDrawing, arrow_from, collective_at, collective_by, collective_of, drawn, rank_groups, is_wildcard_at, latest_of, mark_at, drawn_marks, of_events, of_starts, probe_at, probe_by, takes_wildcard, takes_wildcard_in, unreceived_at, unreceived_by};
ghost use Rattle.run_drawing.specs.inside.Scenes.{IsScene, basis_of};

use crate::drawing::{Arrow, Drawing, DrawnCollective, DrawnMark, Point, Unreceived};
use crate::links::CompletedStart;
use crate::receives::all_receives;
use crate::scene::{Scene, see};
use group_plan::plan::Plan;
use mpi_call::call::Call;
use mpi_call::lists::Ranks;
use mpi_call::reply::{Item, Reply};
use run_model::history::History;
use std::alloc::{AllocError, Global};

/// The drawing of a history of ranks in groups. Reads the events a few times.
pub fn draw(alloc: Global, plan: &Plan, history: &History) -> Result<Drawing, AllocError>
    requires { AreOfRanks (number_of_ranks plan.now) history.now.events }
    ensures { IfOk result (λ drawing. IsDrawing plan.now history.now.events drawing) }
{
    let scene = see(alloc, plan.n(), history.as_slice())?;
    scene.causes.tells();
    drawing_of(alloc, plan, &scene)
}

/// What two calls found, where both had memory.
fn both<A: Drop, B: Drop>(
    first: Result<A, AllocError>,
    second: Result<B, AllocError>,
) -> Result<(A, B), AllocError>
    ensures { IfOk result (λ found. (first ≡ Ok found.0) × (second ≡ Ok found.1)) }
{
    let first = first?;
    Ok((first, second?))
}

/// The drawing of a scene of a plan's ranks.
fn drawing_of(alloc: Global, plan: &Plan, scene: &Scene<'_>) -> Result<Drawing, AllocError>
    requires scene { IsScene scene.now }
    requires ranks { scene.now.causes.ranks ≡ number_of_ranks plan.now }
    ensures { IfOk result (λ drawing. drawing ≡ drawn plan.now (basis_of scene.now)) }
{
    let n = plan.n();
    let marks = all_marks(alloc, n, scene);
    let (marks, receives) = both(marks, all_receives(alloc, n, scene))?;
    let unreceived = all_unreceived(alloc, n, scene);
    let rest = both(all_probes(alloc, n, scene), unreceived);
    let (collectives, (probes, unreceived)) = both(all_collectives(alloc, n, scene), rest)?;
    Ok(Drawing {
        groups: groups_of(alloc, plan)?,
        columns: scene.columns(),
        marks,
        receives,
        collectives,
        probes,
        unreceived,
    })
}

/// The group of each rank.
fn groups_of(alloc: Global, plan: &Plan) -> Result<Ranks, AllocError>
    ensures { IfOk result (λ groups. groups ≡ rank_groups plan.now) }
{
    let mut groups = Ranks::new(alloc);
    for rank in 0..plan.n() {
        groups.push(plan.group_of(rank))?;
    }
    Ok(groups)
}

/// The marks of the ranks below n.
fn all_marks(alloc: Global, n: u8, scene: &Scene<'_>) -> Result<Vec<DrawnMark>, AllocError>
    requires { IsScene scene.now }
    ensures { IfOk result (λ marks. marks.items ≡ lists_below (drawn_marks (basis_of scene.now)) n) }
{
    let mut marks = Vec::new(alloc);
    for rank in 0..n {
        push_marks(&mut marks, scene, rank)?;
    }
    Ok(marks)
}

/// A mark for each event of a rank.
fn push_marks(marks: &mut Vec<DrawnMark>, scene: &Scene<'_>, rank: u8) -> Result<(), AllocError>
    requires { IsScene scene.now }
    ensures { OnOk result (marks.new.items ≡ marks.old.items ++ drawn_marks (basis_of scene.now) rank) }
{
    let mut number = 0;
    let mut rest = scene.causes.own_events(rank);
    while let [place, after @ ..] = rest {
        marks.push(mark_at(scene, rank, number, *place))?;
        number += 1;
        rest = after;
    }
    Ok(())
}

/// The mark of the event at a position.
fn mark_at(scene: &Scene<'_>, rank: u8, number: u32, place: u32) -> DrawnMark
    requires { IsScene scene.now }
    ensures { result ≡ mark_at (basis_of scene.now) rank number place }
{
    DrawnMark {
        rank,
        number,
        column: scene.column(place),
        is_wild: takes_wildcard_at(scene, place),
    }
}

/// Whether the event at a position completes a receive from any source.
fn takes_wildcard_at(scene: &Scene<'_>, place: u32) -> bool
    ensures { result ≡ takes_wildcard_in scene.now.causes.events (slice_get scene.now.causes.events place) }
{
    match scene.event(place) {
        Some(event) => takes_wildcard(scene, event.rank, &event.call, &event.reply),
        None => false,
    }
}

fn takes_wildcard(scene: &Scene<'_>, rank: u8, call: &Call, reply: &Reply) -> bool
    ensures { result ≡ takes_wildcard scene.now.causes.events rank call.now reply.now }
{
    let Reply::Took(items) = reply else {
        return false;
    };
    match call {
        Call::Take { starts, .. } => {
            has_wildcard(scene, rank, starts.as_slice(), items.as_slice())
        }
        _ => has_wildcard(scene, rank, &[], items.as_slice()),
    }
}

/// Whether these items complete a receive from any source. An index past the list reads 0.
fn has_wildcard(scene: &Scene<'_>, rank: u8, starts: &[u32], items: &[Item]) -> bool
    ensures { result ≡ list_any (λ (item : ItemSpec). is_wildcard_at scene.now.causes.events (start_position scene.now.causes.events rank (slice_index starts.now item.index))) items.now }
{
    let mut rest = items;
    while let [item, after @ ..] = rest {
        let number = starts.get(item.index as usize).copied().unwrap_or(0);
        if scene.is_wildcard(rank, number) {
            return true;
        }
        rest = after;
    }
    false
}

/// The collectives of the ranks below n that were completed.
fn all_collectives(
    alloc: Global,
    n: u8,
    scene: &Scene<'_>,
) -> Result<Vec<DrawnCollective>, AllocError>
    requires { IsScene scene.now }
    ensures { IfOk result (λ found. found.items ≡ lists_below (of_starts (collective_at (basis_of scene.now)) scene.now.causes.events) n) }
{
    let mut found = Vec::new(alloc);
    for rank in 0..n {
        push_collectives(&mut found, scene, scene.causes.starts(rank))?;
    }
    Ok(found)
}

/// The collectives at these positions.
fn push_collectives(
    found: &mut Vec<DrawnCollective>,
    scene: &Scene<'_>,
    places: &[u32],
) -> Result<(), AllocError>
    requires { IsScene scene.now }
    ensures { OnOk result (found.new.items ≡ found.old.items ++ flat_map (collective_at (basis_of scene.now)) places.now) }
{
    let mut rest = places;
    while let [place, after @ ..] = rest {
        push_collective(found, scene, *place)?;
        rest = after;
    }
    Ok(())
}

/// The collective that was entered at a position, if it was completed.
fn push_collective(
    found: &mut Vec<DrawnCollective>,
    scene: &Scene<'_>,
    place: u32,
) -> Result<(), AllocError>
    requires { IsScene scene.now }
    ensures { OnOk result (found.new.items ≡ found.old.items ++ collective_at (basis_of scene.now) place) }
{
    match scene.event(place) {
        Some(event) => push_collective_by(found, scene, place, event.rank, &event.call),
        None => Ok(()),
    }
}

fn push_collective_by(
    found: &mut Vec<DrawnCollective>,
    scene: &Scene<'_>,
    place: u32,
    rank: u8,
    call: &Call,
) -> Result<(), AllocError>
    requires { IsScene scene.now }
    ensures { OnOk result (found.new.items ≡ found.old.items ++ collective_by (basis_of scene.now) place rank call.now) }
{
    let Call::Enter { .. } = call else {
        return Ok(());
    };
    match scene.completion(place) {
        Some(link) => push_collective_of(found, scene, place, rank, link),
        None => Ok(()),
    }
}

fn push_collective_of(
    found: &mut Vec<DrawnCollective>,
    scene: &Scene<'_>,
    place: u32,
    rank: u8,
    link: CompletedStart,
) -> Result<(), AllocError>
    requires { IsScene scene.now }
    ensures { OnOk result (found.new.items ≡ found.old.items ++ collective_of (basis_of scene.now) place rank (Some link)) }
{
    found.push(DrawnCollective {
        rank,
        from: scene.column(place),
        to: scene.column(link.at),
        latest: latest_of(scene, place, link.cause),
    })?;
    Ok(())
}

/// The last Enter that a completion had to wait for, unless it is the rank's own, at a position.
fn latest_of(scene: &Scene<'_>, own: u32, cause: Option<u32>) -> Option<Point>
    requires { IsScene scene.now }
    ensures { result ≡ latest_of (basis_of scene.now) own cause }
{
    let Some(place) = cause else {
        return None;
    };
    if place == own {
        return None;
    }
    Some(scene.point(place))
}

/// The probes of the ranks below n that found a message.
fn all_probes(alloc: Global, n: u8, scene: &Scene<'_>) -> Result<Vec<Arrow>, AllocError>
    requires { IsScene scene.now }
    ensures { IfOk result (λ found. found.items ≡ lists_below (of_events (probe_at (basis_of scene.now)) scene.now.causes.events) n) }
{
    let mut found = Vec::new(alloc);
    for rank in 0..n {
        push_probes(&mut found, scene, scene.causes.own_events(rank))?;
    }
    Ok(found)
}

/// The probes at these positions.
fn push_probes(found: &mut Vec<Arrow>, scene: &Scene<'_>, places: &[u32]) -> Result<(), AllocError>
    requires { IsScene scene.now }
    ensures { OnOk result (found.new.items ≡ found.old.items ++ flat_map (probe_at (basis_of scene.now)) places.now) }
{
    let mut rest = places;
    while let [place, after @ ..] = rest {
        push_probe(found, scene, *place)?;
        rest = after;
    }
    Ok(())
}

/// The probe at a position, if it found a message.
fn push_probe(found: &mut Vec<Arrow>, scene: &Scene<'_>, place: u32) -> Result<(), AllocError>
    requires { IsScene scene.now }
    ensures { OnOk result (found.new.items ≡ found.old.items ++ probe_at (basis_of scene.now) place) }
{
    match scene.event(place) {
        Some(event) => push_probe_by(found, scene, place, &event.reply),
        None => Ok(()),
    }
}

fn push_probe_by(
    found: &mut Vec<Arrow>,
    scene: &Scene<'_>,
    place: u32,
    reply: &Reply,
) -> Result<(), AllocError>
    requires { IsScene scene.now }
    ensures { OnOk result (found.new.items ≡ found.old.items ++ probe_by (basis_of scene.now) place reply.now) }
{
    match reply {
        Reply::Peeked { .. } => push_arrow(found, scene, scene.cause(place), place),
        _ => Ok(()),
    }
}

/// An arrow from one position to another, where there is one.
fn push_arrow(
    found: &mut Vec<Arrow>,
    scene: &Scene<'_>,
    from: Option<u32>,
    to: u32,
) -> Result<(), AllocError>
    requires { IsScene scene.now }
    ensures { OnOk result (found.new.items ≡ found.old.items ++ arrow_from (basis_of scene.now) from to) }
{
    let Some(from) = from else {
        return Ok(());
    };
    found.push(Arrow {
        from: scene.point(from),
        to: scene.point(to),
    })?;
    Ok(())
}

/// The Sends of the ranks below n whose messages nobody took.
fn all_unreceived(alloc: Global, n: u8, scene: &Scene<'_>) -> Result<Vec<Unreceived>, AllocError>
    requires { IsScene scene.now }
    ensures { IfOk result (λ found. found.items ≡ lists_below (of_starts (unreceived_at (basis_of scene.now)) scene.now.causes.events) n) }
{
    let mut found = Vec::new(alloc);
    for rank in 0..n {
        push_all_unreceived(&mut found, scene, scene.causes.starts(rank))?;
    }
    Ok(found)
}

/// Those at these positions.
fn push_all_unreceived(
    found: &mut Vec<Unreceived>,
    scene: &Scene<'_>,
    places: &[u32],
) -> Result<(), AllocError>
    requires { IsScene scene.now }
    ensures { OnOk result (found.new.items ≡ found.old.items ++ flat_map (unreceived_at (basis_of scene.now)) places.now) }
{
    let mut rest = places;
    while let [place, after @ ..] = rest {
        push_unreceived(found, scene, *place)?;
        rest = after;
    }
    Ok(())
}

/// The Send at a position, if nobody took its message.
fn push_unreceived(
    found: &mut Vec<Unreceived>,
    scene: &Scene<'_>,
    place: u32,
) -> Result<(), AllocError>
    requires { IsScene scene.now }
    ensures { OnOk result (found.new.items ≡ found.old.items ++ unreceived_at (basis_of scene.now) place) }
{
    match scene.event(place) {
        Some(event) => push_unreceived_by(found, scene, place, event.rank, &event.call),
        None => Ok(()),
    }
}

fn push_unreceived_by(
    found: &mut Vec<Unreceived>,
    scene: &Scene<'_>,
    place: u32,
    rank: u8,
    call: &Call,
) -> Result<(), AllocError>
    requires { IsScene scene.now }
    ensures { OnOk result (found.new.items ≡ found.old.items ++ unreceived_by (basis_of scene.now) place rank call.now) }
{
    let Call::Send { dest, .. } = call else {
        return Ok(());
    };
    if scene.taker(place).is_some() {
        return Ok(());
    }
    found.push(Unreceived {
        rank,
        column: scene.column(place),
        receiver: *dest,
    })?;
    Ok(())
}
