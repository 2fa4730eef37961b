//! Wildcard receives that were completed.
ghost use Rattle.std.specs.Prelude.{◌≡◌, slice_get};
ghost use Rattle.mpi_call.specs.Acceptance.{tag_named};
ghost use Rattle.msg_races.specs.Listing.{arrival_by, arrival_in, way_from};

use crate::completions::ReceiveCompletion;
use crate::names::Name;
use crate::sends::Way;
use mpi_call::call::{Call, Comm, Source, Tag};
use run_model::event::Event;

/// A wildcard receive that was completed: its name, what it asks for, the position of its completion, and the Send that it took.
#[derive(Clone, Copy)]
pub struct Arrival {
    pub rank: u8,
    pub start: u32,
    pub comm: Comm,
    pub tag: Tag,
    pub at: u32,
    pub took: Name,
}

/// The receive of a start with this call, if it is a wildcard receive that was completed.
fn arrival_by(name: Name, call: &Call, completion: Option<ReceiveCompletion>) -> Option<Arrival>
    ensures { result ≡ arrival_by name call.now completion }
{
    let Call::Post {
        comm,
        source: Source::Any,
        tag,
        ..
    } = call
    else {
        return None;
    };
    let completion = completion?;
    Some(Arrival {
        rank: name.rank,
        start: name.start,
        comm: *comm,
        tag: *tag,
        at: completion.at,
        took: completion.took,
    })
}

/// The same, of the start at a position.
pub fn arrival_at(
    events: &[Event],
    name: Name,
    place: u32,
    completion: Option<ReceiveCompletion>,
) -> Option<Arrival>
    ensures { result ≡ arrival_in name (slice_get events.now place) completion }
{
    match events.get(place as usize) {
        Some(event) => arrival_by(name, &event.call, completion),
        None => None,
    }
}

fn tag_named(tag: &Tag) -> Option<u32>
    ensures { result ≡ tag_named tag.now }
{
    match tag {
        Tag::Any => None,
        Tag::Is(tag) => Some(*tag),
    }
}

/// The way of the messages of a sender that the receive accepts.
pub fn way_from(arrival: &Arrival, sender: u8) -> Way
    ensures { result ≡ way_from arrival.now sender }
{
    Way {
        sender,
        comm: arrival.comm,
        receiver: arrival.rank,
        tag: tag_named(&arrival.tag),
    }
}
