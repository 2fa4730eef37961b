//! Noting an event in the tables.
ghost use Rattle.std.specs.Prelude.{◌≡◌, ◌<◌, ◌+◌, ◌^◌, ◌++◌, ◌∷◌, [], OnErr, OnOk, length};
ghost use Rattle.run_model.specs.Views.{view_of};
ghost use Rattle.view_tables.specs.EnterTable.{IsEnterTable, entered_comm};
ghost use Rattle.view_tables.specs.MemberTable.{IsMemberTable};
ghost use Rattle.view_tables.specs.StartTable.{IsStartTable, TakesMade};

use mpi_call::call::{Call, Comm};
use mpi_call::reply::Reply;
use run_model::event::Event;
use run_model::history::History;
use std::alloc::AllocError;
use view_tables::enter_table::EnterTable;
use view_tables::member_table::MemberTable;
use view_tables::start_table::StartTable;

/// The communicator of a call that is an Enter, made.
fn entered_by(call: &Call, reply: &Reply) -> Option<Comm>
    ensures { result ≡ entered_comm call.now reply.now }
{
    match call {
        Call::Enter { comm, .. } => match reply {
            Reply::Done => Some(*comm),
            _ => None,
        },
        _ => None,
    }
}

/// Makes room for one more event, and notes it in the tables. Out of memory, they and the events are as before.
pub fn prepare(
    starts: &mut StartTable,
    enters: &mut EnterTable,
    members: &mut MemberTable,
    ranks: u8,
    events: &mut History,
    event: &Event,
) -> Result<(), AllocError>
    requires rank { event.now.rank < ranks }
    requires takes { TakesMade (view_of events.old.events event.now.rank) event.now.call event.now.reply }
    requires starts { IsStartTable ranks events.old.events starts.old }
    requires enters { IsEnterTable ranks events.old.events enters.old }
    requires members { IsMemberTable ranks events.old.events members.old }
    ensures same { events.new.events ≡ events.old.events }
    ensures room { OnOk result (0 < events.new.spare) }
    ensures short { OnOk result (length events.old.events + 1 < 2 ^ 32) }
    ensures ok { OnOk result (IsStartTable ranks (events.old.events ++ event.now ∷ []) starts.new × IsEnterTable ranks (events.old.events ++ event.now ∷ []) enters.new × IsMemberTable ranks (events.old.events ++ event.now ∷ []) members.new) }
    ensures err { OnErr result (IsStartTable ranks events.old.events starts.new × IsEnterTable ranks events.old.events enters.new × IsMemberTable ranks events.old.events members.new) }
{
    // A log's bounds keep the events far below this.
    if events.len() >= u32::MAX {
        return Err(AllocError);
    }
    events.reserve(1)?;
    note(starts, enters, members, ranks, events, event)
}

/// Notes the event after these in the tables. Out of memory, they are as before.
fn note(
    starts: &mut StartTable,
    enters: &mut EnterTable,
    members: &mut MemberTable,
    ranks: u8,
    events: &History,
    event: &Event,
) -> Result<(), AllocError>
    requires rank { event.now.rank < ranks }
    requires takes { TakesMade (view_of events.now.events event.now.rank) event.now.call event.now.reply }
    requires starts { IsStartTable ranks events.now.events starts.old }
    requires enters { IsEnterTable ranks events.now.events enters.old }
    requires members { IsMemberTable ranks events.now.events members.old }
    ensures ok { OnOk result (IsStartTable ranks (events.now.events ++ event.now ∷ []) starts.new × IsEnterTable ranks (events.now.events ++ event.now ∷ []) enters.new × IsMemberTable ranks (events.now.events ++ event.now ∷ []) members.new) }
    ensures err { OnErr result (IsStartTable ranks events.now.events starts.new × IsEnterTable ranks events.now.events enters.new × IsMemberTable ranks events.now.events members.new) }
{
    let known = members.count(event.rank);
    members.note(event)?;
    if let Err(error) = note_start(starts, enters, ranks, events, event) {
        members.forget(event.rank, known);
        return Err(error);
    }
    Ok(())
}

/// Notes it in the tables of starts and Enters. Out of memory, they are as before.
fn note_start(
    starts: &mut StartTable,
    enters: &mut EnterTable,
    ranks: u8,
    events: &History,
    event: &Event,
) -> Result<(), AllocError>
    requires rank { event.now.rank < ranks }
    requires takes { TakesMade (view_of events.now.events event.now.rank) event.now.call event.now.reply }
    requires starts { IsStartTable ranks events.now.events starts.old }
    requires enters { IsEnterTable ranks events.now.events enters.old }
    ensures ok { OnOk result (IsStartTable ranks (events.now.events ++ event.now ∷ []) starts.new × IsEnterTable ranks (events.now.events ++ event.now ∷ []) enters.new) }
    ensures err { OnErr result (IsStartTable ranks events.now.events starts.new × IsEnterTable ranks events.now.events enters.new) }
{
    let at = events.len();
    let Some(comm) = entered_by(&event.call, &event.reply) else {
        return starts.note(at, event);
    };
    let number = starts.count(event.rank);
    starts.note(at, event)?;
    if let Err(error) = enters.note(event.rank, comm, number) {
        starts.forget(event.rank);
        return Err(error);
    }
    Ok(())
}
