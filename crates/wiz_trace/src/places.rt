//! The text of the places at which a message is sent, found and taken.
ghost use Rattle.std.specs.Prelude.{◌≡◌, ◌++◌, OnOk, IfOk, flat_map, map};
ghost use Rattle.std.specs.List.{list_any};
ghost use Rattle.replay_views.specs.Places.{message_place_view};
ghost use Rattle.wiz_trace.specs.WhereTexts.{answered_text, got_place_text, outside_text, places_text, sent_text, spot_text, is_taking_place, untaken_text, where_text};

use mpi_call::members::is_member;
use msg_races::names::Name;
use replay_views::places::MessagePlace;
use replay_views::role::Role;
use run_text::call_text::{push_call, push_reply};
use std::alloc::{AllocError, Global};
use wiz_base::{Bytes, push_decimal, push_text};

/// The where text of a message of a group: where it was sent, and then where it was found and taken.
pub fn where_text(
    alloc: Global,
    name: Name,
    group: &[u8],
    places: &[MessagePlace],
) -> Result<Bytes, AllocError>
    ensures { IfOk result (λ text. text ≡ where_text name group.now (map message_place_view places.now)) }
{
    let mut out = Bytes::new(alloc);
    push_where(&mut out, name, group, places)?;
    Ok(out)
}

fn push_where(
    out: &mut Bytes,
    name: Name,
    group: &[u8],
    places: &[MessagePlace],
) -> Result<(), AllocError>
    ensures { OnOk result (out.new ≡ out.old ++ where_text name group.now (map message_place_view places.now)) }
{
    match places {
        [] => push_text(out, b"unknown\n"),
        [_, ..] => push_places(out, is_member(group, name.rank), places),
    }
}

fn push_places(out: &mut Bytes, inside: bool, places: &[MessagePlace]) -> Result<(), AllocError>
    ensures { OnOk result (out.new ≡ out.old ++ places_text inside (map message_place_view places.now)) }
{
    push_all_sent(out, places)?;
    push_outside(out, inside)?;
    push_all_got(out, places)?;
    push_untaken(out, is_taken(places))
}

fn push_all_sent(out: &mut Bytes, places: &[MessagePlace]) -> Result<(), AllocError>
    ensures { OnOk result (out.new ≡ out.old ++ flat_map sent_text (map message_place_view places.now)) }
{
    let mut rest = places;
    while let [place, after @ ..] = rest {
        push_sent(out, place)?;
        rest = after;
    }
    Ok(())
}

/// Where the message is sent.
fn push_sent(out: &mut Bytes, place: &MessagePlace) -> Result<(), AllocError>
    ensures { OnOk result (out.new ≡ out.old ++ sent_text (message_place_view place.now)) }
{
    match place.role {
        Role::Sent => {
            push_text(out, b"sent ")?;
            push_spot(out, place)?;
            push_text(out, b"\n")
        }
        Role::Found | Role::Took => Ok(()),
    }
}

fn push_all_got(out: &mut Bytes, places: &[MessagePlace]) -> Result<(), AllocError>
    ensures { OnOk result (out.new ≡ out.old ++ flat_map got_place_text (map message_place_view places.now)) }
{
    let mut rest = places;
    while let [place, after @ ..] = rest {
        push_got(out, place)?;
        rest = after;
    }
    Ok(())
}

/// Where the message is found, or taken.
fn push_got(out: &mut Bytes, place: &MessagePlace) -> Result<(), AllocError>
    ensures { OnOk result (out.new ≡ out.old ++ got_place_text (message_place_view place.now)) }
{
    match place.role {
        Role::Sent => Ok(()),
        Role::Found => {
            push_text(out, b"found ")?;
            push_answered(out, place)
        }
        Role::Took => {
            push_text(out, b"took ")?;
            push_answered(out, place)
        }
    }
}

/// A call with its number and its reply.
fn push_answered(out: &mut Bytes, place: &MessagePlace) -> Result<(), AllocError>
    ensures { OnOk result (out.new ≡ out.old ++ answered_text (message_place_view place.now)) }
{
    push_spot(out, place)?;
    push_text(out, b" -> ")?;
    push_reply(out, place.reply)?;
    push_text(out, b"\n")
}

/// A call with its number.
fn push_spot(out: &mut Bytes, place: &MessagePlace) -> Result<(), AllocError>
    ensures { OnOk result (out.new ≡ out.old ++ spot_text (message_place_view place.now)) }
{
    push_decimal(out, place.rank as u64)?;
    push_text(out, b":")?;
    push_decimal(out, place.number as u64)?;
    push_text(out, b" ")?;
    push_call(out, place.call)
}

/// Whether some call takes the message.
fn is_taken(places: &[MessagePlace]) -> bool
    ensures { result ≡ list_any is_taking_place (map message_place_view places.now) }
{
    let mut rest = places;
    while let [place, after @ ..] = rest {
        if takes(place) {
            return true;
        }
        rest = after;
    }
    false
}

fn takes(place: &MessagePlace) -> bool
    ensures { result ≡ is_taking_place (message_place_view place.now) }
{
    match place.role {
        Role::Took => true,
        Role::Sent | Role::Found => false,
    }
}

fn push_outside(out: &mut Bytes, inside: bool) -> Result<(), AllocError>
    ensures { OnOk result (out.new ≡ out.old ++ outside_text inside) }
{
    if inside {
        return Ok(());
    }
    push_text(out, b"outside\n")
}

fn push_untaken(out: &mut Bytes, taken: bool) -> Result<(), AllocError>
    ensures { OnOk result (out.new ≡ out.old ++ untaken_text taken) }
{
    if taken {
        return Ok(());
    }
    push_text(out, b"never taken\n")
}
