//! The places at which a message is sent, found and taken.
ghost use Rattle.std.specs.Prelude.{◌≡◌, ◌++◌, ◌∷◌, [], ◌≤◌, IfOk, OnOk, length, map};
ghost use Rattle.replay_views.specs.Places.{message_place_view, place_with, places_in_view, places_of, role_of};
ghost use Rattle.run_model.specs.Views.{starts_of};

use crate::role::{Role, role_of};
use mpi_call::call::Call;
use mpi_call::reply::Reply;
use msg_races::names::Name;
use run_model::by_rank::ByRank;
use run_model::event::Event;
use run_model::starts::is_start;
use std::alloc::{AllocError, Global};

/// A place where a message is: a call of a rank with its reply, and what it does with the message.
#[derive(Clone, Copy)]
pub struct MessagePlace<'a> {
    pub rank: u8,
    /// The number of the call among the rank's calls.
    pub number: usize,
    pub role: Role,
    pub call: &'a Call,
    pub reply: &'a Reply,
}

/// The places of a message, of the ranks of a group, rank by rank. Reads the events of these ranks once.
pub fn places_of<'a>(
    alloc: Global,
    name: Name,
    by_rank: &ByRank<'a>,
    group: &[u8],
) -> Result<Vec<MessagePlace<'a>>, AllocError>
    ensures { IfOk result (λ places. map message_place_view places.items ≡ places_of name by_rank.now group.now) }
{
    let mut places = Vec::new(alloc);
    let mut rest = group;
    while let [rank, after @ ..] = rest {
        add_places(&mut places, name, *rank, by_rank.get(*rank))?;
        rest = after;
    }
    Ok(places)
}

/// Adds the places of a rank that has seen these events.
fn add_places<'a>(
    places: &mut Vec<MessagePlace<'a>>,
    name: Name,
    rank: u8,
    own: &[&'a Event],
) -> Result<(), AllocError>
    ensures { OnOk result (map message_place_view places.new.items ≡ map message_place_view places.old.items ++ places_in_view name rank (map (λ event. (event.now.call, event.now.reply)) own.now)) }
{
    let mut number = 0;
    let mut made = 0;
    let mut rest = own;
    while let [event, after @ ..] = rest {
        add_place(places, name, rank, number, made, *event)?;
        made += starts_in(*event);
        number += 1;
        rest = after;
    }
    Ok(())
}

/// Adds the place of a call, if it does something with the message.
fn add_place<'a>(
    places: &mut Vec<MessagePlace<'a>>,
    name: Name,
    rank: u8,
    number: usize,
    made: usize,
    event: &'a Event,
) -> Result<(), AllocError>
    ensures { OnOk result (map message_place_view places.new.items ≡ map message_place_view places.old.items ++ place_with rank number (event.now.call, event.now.reply) (role_of name rank made (event.now.call, event.now.reply))) }
{
    if let Some(role) = role_of(name, rank, made, &event.call, &event.reply) {
        places.push(MessagePlace {
            rank,
            number,
            role,
            call: &event.call,
            reply: &event.reply,
        })?;
    }
    Ok(())
}

/// How many starts an event is.
fn starts_in(event: &Event) -> usize
    ensures count { result ≡ length (starts_of ((event.now.call, event.now.reply) ∷ [])) }
    ensures few { result ≤ 1 }
{
    if is_start(&event.call, &event.reply) {
        1
    } else {
        0
    }
}
