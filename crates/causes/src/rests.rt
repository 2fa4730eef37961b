//! What the reply to an event rests on.
ghost use Rattle.std.specs.Prelude.{◌≡◌, ◌++◌, List, OnOk, slice_get};
ghost use Rattle.std.specs.Option.{option_to_list};
ghost use Rattle.mpi_call.specs.Needs.{needs};
ghost use Rattle.run_model.specs.declared.event.Event.{Event as EventSpec};
ghost use Rattle.causes.specs.Beside.{AreTables};
ghost use Rattle.causes.specs.Steps.{collected_from, completed_from, needed_enters, entered_one, given_from, received_at, rests_on, given_by_items};

use crate::positions::Positions;
use crate::tables::Tables;
use mpi_call::call::{Call, Comm};
use mpi_call::lists::Ranks;
use mpi_call::needs::needs;
use mpi_call::reply::{Got, Item, Reply};
use run_model::event::Event;
use std::alloc::AllocError;

/// Adds the Enter of a member, if it is needed.
fn push_enter(
    found: &mut Positions,
    tables: &Tables,
    comm: Comm,
    instance: usize,
    enter: &Call,
    members: &Ranks,
    me: u8,
    member: u8,
) -> Result<(), AllocError>
    ensures { OnOk result ((before : List EventSpec) → AreTables before tables.now → found.new ≡ found.old ++ entered_one before comm instance (needs enter.now members.now me) member) }
{
    if needs(enter, members, me, member) {
        return found.push_some(tables.enter(member, comm, instance));
    }
    Ok(())
}

/// Adds the Enters of the needed members of an instance.
fn push_enters(
    found: &mut Positions,
    tables: &Tables,
    comm: Comm,
    instance: usize,
    enter: &Call,
    members: &Ranks,
    me: u8,
) -> Result<(), AllocError>
    ensures { OnOk result ((before : List EventSpec) → AreTables before tables.now → found.new ≡ found.old ++ needed_enters before comm instance (needs enter.now members.now me) members.now) }
{
    let mut rest = members.as_slice();
    while let [member, after @ ..] = rest {
        push_enter(found, tables, comm, instance, enter, members, me, *member)?;
        rest = after;
    }
    Ok(())
}

/// Adds what a result of rank `me` rests on, whose Enter stands at a position.
fn push_collected(
    found: &mut Positions,
    before: &[Event],
    tables: &Tables,
    me: u8,
    at: u32,
    enter: &Call,
) -> Result<(), AllocError>
    requires { AreTables before.now tables.now }
    ensures { OnOk result (found.new ≡ found.old ++ collected_from tables.now.ranks before.now me at enter.now) }
{
    let Call::Enter { comm, .. } = enter else {
        return Ok(());
    };
    let members = tables.members(me, *comm);
    let instance = tables.instance(before, me, *comm, at);
    push_enters(found, tables, *comm, instance, enter, members, me)
}

/// Adds what the completion of the send at a position rests on.
fn push_received(
    found: &mut Positions,
    tables: &Tables,
    at: u32,
    send: &Call,
) -> Result<(), AllocError>
    ensures { OnOk result ((before : List EventSpec) → AreTables before tables.now → found.new ≡ found.old ++ received_at before at send.now) }
{
    if let Call::Send { sync: true, .. } = send {
        return found.push_some(tables.partner(at));
    }
    Ok(())
}

/// Adds what the completion of the start at a position rests on, by what it gives.
fn push_given(
    found: &mut Positions,
    before: &[Event],
    tables: &Tables,
    me: u8,
    at: u32,
    start: &Event,
    got: &Got,
) -> Result<(), AllocError>
    requires { AreTables before.now tables.now }
    ensures { OnOk result (found.new ≡ found.old ++ given_from tables.now.ranks before.now me at start.now got.now) }
{
    match got {
        Got::Message {
            source,
            start: number,
            ..
        } => found.push_some(tables.start(*source, *number)),
        Got::Joined { .. } | Got::Made { .. } => push_collected(
            found,
            before,
            tables,
            me,
            at,
            &start.call,
        ),
        Got::Sent => push_received(found, tables, at, &start.call),
        Got::Nothing => Ok(()),
    }
}

/// Adds what the completion of a rank's start with this number rests on, by what it gives.
pub fn push_completed(
    found: &mut Positions,
    before: &[Event],
    tables: &Tables,
    me: u8,
    number: u32,
    got: &Got,
) -> Result<(), AllocError>
    requires { AreTables before.now tables.now }
    ensures { OnOk result (found.new ≡ found.old ++ completed_from tables.now.ranks before.now me number got.now) }
{
    let Some(at) = tables.start(me, number) else {
        return Ok(());
    };
    match before.get(at as usize) {
        Some(start) => push_given(found, before, tables, me, at, start, got),
        None => Ok(()),
    }
}

/// Adds what completed starts rest on. An index past the list reads 0.
fn push_taken(
    found: &mut Positions,
    before: &[Event],
    tables: &Tables,
    me: u8,
    starts: &[u32],
    items: &[Item],
) -> Result<(), AllocError>
    requires { AreTables before.now tables.now }
    ensures { OnOk result (found.new ≡ found.old ++ given_by_items tables.now.ranks before.now me starts.now items.now) }
{
    let mut rest = items;
    while let [item, after @ ..] = rest {
        let number = starts.get(item.index as usize).copied().unwrap_or(0);
        push_completed(found, before, tables, me, number, &item.got)?;
        rest = after;
    }
    Ok(())
}

/// Adds what the reply to a rank's call rests on.
pub fn push_rests(
    found: &mut Positions,
    before: &[Event],
    tables: &Tables,
    event: &Event,
) -> Result<(), AllocError>
    requires { AreTables before.now tables.now }
    ensures { OnOk result (found.new ≡ found.old ++ rests_on tables.now.ranks before.now event.now.rank event.now.call event.now.reply) }
{
    match &event.reply {
        Reply::Took(items) => match &event.call {
            Call::Take { starts, .. } => push_taken(
                found,
                before,
                tables,
                event.rank,
                starts.as_slice(),
                items.as_slice(),
            ),
            _ => push_taken(found, before, tables, event.rank, &[], items.as_slice()),
        },
        Reply::Peeked { source, start, .. } => found.push_some(tables.start(*source, *start)),
        _ => Ok(()),
    }
}
