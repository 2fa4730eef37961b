//! The Sends of a history, by where they go.
ghost use Rattle.std.specs.Prelude.{◌<◌, ◌^◌, ◌+◌, ◌++◌, ◌∷◌, [], ◌||◌, None, OnOk, Some, length};
ghost use Rattle.causes.specs.PositionTables.{AddsPositionBy};
ghost use Rattle.msg_races.specs.Ways.{AreSends, goes_way, same_way};

use causes::position_table::PositionTable;
use mpi_call::call::Call;
use run_model::event::Event;
use run_model::starts::is_start;
use std::alloc::AllocError;

/// Where Sends go: their sender, communicator and receiver, and their tag or any.
#[derive(Clone, Copy, Hash)]
pub struct Way {
    pub sender: u8,
    pub comm: u32,
    pub receiver: u8,
    /// None: any.
    pub tag: Option<u32>,
}

impl PartialEq for Way {
    ghost use Rattle.msg_races.specs.Ways.{same_way};
    ghost use Rattle.std.proofs.Common.{rules};
    ghost use Rattle.std.specs.Cmp.Rules.{comparing};

    ghost eq = { same_way };

    ghost laws = { Prim.search (comparing, rules) depth 12 };

    fn eq(&self, other: &Way) -> bool {
        self.sender == other.sender
            && self.comm == other.comm
            && self.receiver == other.receiver
            && self.tag == other.tag
    }
}

impl Eq for Way {
    ghost use Rattle.std.proofs.Common.{rules};
    ghost use Rattle.std.specs.Cmp.Rules.{comparing};

    ghost laws = { Prim.search (comparing, rules) depth 12 };
}

/// The positions of the Sends of a history, by their ways.
pub type Sends = PositionTable<Way>;

/// Adds the position of a Send: to the way of its tag and to that of any tag.
fn push_both(sends: &mut Sends, any: &Way, tag: u32, at: u32) -> Result<(), AllocError>
    ensures { OnOk result (AddsPositionBy same_way (λ way. same_way (record any.now { tag = None }) way || same_way (record any.now { tag = Some tag }) way) at sends.old sends.new) }
{
    sends.push(&Way { tag: None, ..*any }, at)?;
    sends.push(
        &Way {
            tag: Some(tag),
            ..*any
        },
        at,
    )
}

/// Adds the position of an event that is a Send.
fn push_send(sends: &mut Sends, at: u32, event: &Event) -> Result<(), AllocError>
    ensures { OnOk result (AddsPositionBy same_way (λ way. goes_way way event.now) at sends.old sends.new) }
{
    let Call::Send {
        comm,
        dest,
        tag,
        ..
    } = &event.call
    else {
        return Ok(());
    };
    if !is_start(&event.call, &event.reply) {
        return Ok(());
    }
    let any = Way {
        sender: event.rank,
        comm: *comm,
        receiver: *dest,
        tag: None,
    };
    push_both(sends, &any, *tag, at)
}

/// Adds the event that comes next.
pub fn note_send(sends: &mut Sends, before: &[Event], event: &Event) -> Result<(), AllocError>
    requires sends { AreSends before.now sends.old }
    requires short { length before.now + 1 < 2 ^ 32 }
    ensures { OnOk result (AreSends (before.now ++ event.now ∷ []) sends.new) }
{
    push_send(sends, before.len() as u32, event)
}
