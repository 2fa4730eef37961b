//! A run up to where it was halted.
ghost use Rattle.std.specs.Prelude.{◌≡◌, ◌<◌, ◌^◌, IfOk, length, option_map};
ghost use Rattle.run_model.specs.Due.{stops};
ghost use Rattle.causes.specs.Clocks.{AreOfRanks};
ghost use Rattle.wait_graph.specs.Going.{first_call};
ghost use Rattle.wait_graph.specs.Reading.{IsRunRead};
ghost use Rattle.run_model.specs.Views.{view_of};

use crate::register::Register;
use mpi_call::call::Call;
use mpi_call::reply::Reply;
use run_model::event::Event;
use std::alloc::{AllocError, Global};

/// What is kept of the events before the first that stops a rank, and the events from there on.
#[derive(Drop)]
pub struct Run<'a> {
    pub register: Register<'a>,
    pub stopped: &'a [Event],
}

/// Reads the events of a run of n ranks once.
pub fn read<'a>(alloc: Global, n: u8, events: &'a [Event]) -> Result<Run<'a>, AllocError>
    requires ranks { AreOfRanks n events.now }
    requires short { length events.now < 2 ^ 32 }
    ensures { IfOk result (IsRunRead n events.entry.now) }
{
    let mut register = Register::new(alloc, n)?;
    let mut rest = events;
    while let [event, after @ ..] = rest {
        if stops(&event.reply) {
            return Ok(Run {
                register,
                stopped: rest,
            });
        }
        register.note(event)?;
        rest = after;
    }
    Ok(Run {
        register,
        stopped: rest,
    })
}

fn stops(reply: &Reply) -> bool
    ensures { result ≡ stops reply.now }
{
    matches!(reply, Reply::Stopped(_))
}

/// The call of a rank's first event among these.
pub(crate) fn first_call<'a>(events: &'a [Event], rank: u8) -> Option<&'a Call>
    ensures { option_map (λ call. call.now) result ≡ first_call (view_of events.entry.now rank) }
{
    let mut rest = events;
    while let [event, after @ ..] = rest {
        if event.rank == rank {
            return Some(&event.call);
        }
        rest = after;
    }
    None
}
