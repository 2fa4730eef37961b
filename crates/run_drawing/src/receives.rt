//! Receives, the messages that they took, and those that they could have taken instead.
ghost use Rattle.std.specs.Prelude.{◌≡◌, ◌++◌, IfOk, None, OnOk, Option, Some};
ghost use Rattle.msg_races.specs.Listing.{lists_below};
ghost use Rattle.run_drawing.specs.Drawings.{wildcard_choices, bar_end, is_any, completed_message, of_starts, receive_at, receive_by, drawn_receive};
ghost use Rattle.run_drawing.specs.Links.{completion_in, links};
ghost use Rattle.run_drawing.specs.inside.Scenes.{ArePast, IsScene, basis_of};

use crate::choices::{Posted, Skipped};
use crate::drawing::{DrawnMessage, DrawnReceive, Points};
use crate::links::CompletedStart;
use crate::scene::Scene;
use mpi_call::call::{Call, Source};
use std::alloc::{AllocError, Global};

/// The receives of the ranks below n.
pub fn all_receives(
    alloc: Global,
    n: u8,
    scene: &Scene<'_>,
) -> Result<Vec<DrawnReceive>, AllocError>
    requires { IsScene scene.now }
    ensures { IfOk result (λ found. found.items ≡ lists_below (of_starts (receive_at (basis_of scene.now)) scene.now.causes.events) n) }
{
    let mut found = Vec::new(alloc);
    for rank in 0..n {
        push_receives(&mut found, alloc, scene, rank)?;
    }
    Ok(found)
}

/// The receives of a rank. Each Send that was taken before one is looked at no more for those after it.
fn push_receives(
    found: &mut Vec<DrawnReceive>,
    alloc: Global,
    scene: &Scene<'_>,
    rank: u8,
) -> Result<(), AllocError>
    requires { IsScene scene.now }
    ensures { OnOk result (found.new.items ≡ found.old.items ++ of_starts (receive_at (basis_of scene.now)) scene.now.causes.events rank) }
{
    let mut skipped = Skipped::new(alloc);
    let mut rest = scene.causes.starts(rank);
    while let [place, after @ ..] = rest {
        push_receive(found, alloc, scene, &mut skipped, *place)?;
        rest = after;
    }
    Ok(())
}

/// The receive that was posted at a position.
fn push_receive(
    found: &mut Vec<DrawnReceive>,
    alloc: Global,
    scene: &Scene<'_>,
    skipped: &mut Skipped,
    place: u32,
) -> Result<(), AllocError>
    requires scene { IsScene scene.now }
    requires past { ArePast (basis_of scene.now) place skipped.old }
    ensures found { OnOk result (found.new.items ≡ found.old.items ++ receive_at (basis_of scene.now) place) }
    ensures past { OnOk result (ArePast (basis_of scene.now) place skipped.new) }
{
    match scene.event(place) {
        Some(event) => push_receive_by(
            found,
            alloc,
            scene,
            skipped,
            place,
            event.rank,
            &event.call,
        ),
        None => Ok(()),
    }
}

fn push_receive_by(
    found: &mut Vec<DrawnReceive>,
    alloc: Global,
    scene: &Scene<'_>,
    skipped: &mut Skipped,
    place: u32,
    rank: u8,
    call: &Call,
) -> Result<(), AllocError>
    requires scene { IsScene scene.now }
    requires past { ArePast (basis_of scene.now) place skipped.old }
    ensures found { OnOk result (found.new.items ≡ found.old.items ++ receive_by (basis_of scene.now) place rank call.now) }
    ensures past { OnOk result (ArePast (basis_of scene.now) place skipped.new) }
{
    let Call::Post {
        comm,
        source,
        tag,
        ..
    } = call
    else {
        return Ok(());
    };
    if let Source::Null = source {
        return Ok(());
    }
    let posted = Posted {
        place,
        rank,
        comm: *comm,
        source: *source,
        tag: *tag,
    };
    found.push(receive_of(alloc, scene, skipped, &posted)?)?;
    Ok(())
}

/// A receive with its message and its choices.
fn receive_of(
    alloc: Global,
    scene: &Scene<'_>,
    skipped: &mut Skipped,
    posted: &Posted,
) -> Result<DrawnReceive, AllocError>
    requires scene { IsScene scene.now }
    requires past { ArePast (basis_of scene.now) posted.now.place skipped.old }
    ensures receive { IfOk result (λ receive. receive ≡ drawn_receive (basis_of scene.now) posted.now (completion_in (links (basis_of scene.now)) posted.now.place)) }
    ensures past { OnOk result (ArePast (basis_of scene.now) posted.now.place skipped.new) }
{
    let completion = scene.completion(posted.place);
    let message = message_by(alloc, scene, skipped, posted, completion)?;
    Ok(DrawnReceive {
        rank: posted.rank,
        from: scene.column(posted.place),
        to: end_of(scene, posted.rank, completion),
        is_wild: is_any(&posted.source),
        message,
    })
}

fn is_any(source: &Source) -> bool
    ensures { result ≡ is_any source.now }
{
    matches!(source, Source::Any)
}

/// The column where the bar of a rank's receive ends.
fn end_of(scene: &Scene<'_>, rank: u8, completion: Option<CompletedStart>) -> u32
    requires { IsScene scene.now }
    ensures { result ≡ bar_end (basis_of scene.now) rank completion }
{
    match completion {
        Some(link) => scene.column(link.at),
        None => scene.last_column(rank),
    }
}

/// The message that a receive took, where it was completed.
fn message_by(
    alloc: Global,
    scene: &Scene<'_>,
    skipped: &mut Skipped,
    posted: &Posted,
    completion: Option<CompletedStart>,
) -> Result<Option<DrawnMessage>, AllocError>
    requires scene { IsScene scene.now }
    requires past { ArePast (basis_of scene.now) posted.now.place skipped.old }
    ensures message { IfOk result (λ message. message ≡ completed_message (basis_of scene.now) posted.now completion) }
    ensures past { OnOk result (ArePast (basis_of scene.now) posted.now.place skipped.new) }
{
    let Some(link) = completion else {
        return Ok(None);
    };
    let Some(send) = link.cause else {
        return Ok(None);
    };
    let choices = choices_by(alloc, scene, skipped, posted, link.at, scene.rank_at(send))?;
    Ok(Some(DrawnMessage {
        sender: scene.point(send),
        choices,
    }))
}

/// What a receive could have taken instead, where it is from any source.
fn choices_by(
    alloc: Global,
    scene: &Scene<'_>,
    skipped: &mut Skipped,
    posted: &Posted,
    at: u32,
    took: u8,
) -> Result<Points, AllocError>
    requires scene { IsScene scene.now }
    requires past { ArePast (basis_of scene.now) posted.now.place skipped.old }
    ensures choices { IfOk result (λ choices. choices ≡ wildcard_choices (basis_of scene.now) posted.now at took) }
    ensures past { OnOk result (ArePast (basis_of scene.now) posted.now.place skipped.new) }
{
    match posted.source {
        Source::Any => skipped.choices(alloc, scene, posted, at, took),
        _ => Ok(Points::new(alloc)),
    }
}
