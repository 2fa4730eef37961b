//! What is made ready before an event is kept, so that keeping it takes no memory.
ghost use Rattle.std.specs.Prelude.{◌≡◌, ◌<◌, ◌≤◌, length, IfOk, OnOk};
ghost use Rattle.mpi_machine.specs.Made.{noted};

use crate::course::Course;
use mpi_call::reply;
use mpi_call::reply::{Items, Reply};
use picked_runs::picks::Picks;
use picked_runs::turn::Pick;
use std::alloc::AllocError;

/// Writes down what the event at a position picked, where it picked. Takes no memory.
pub fn note(picks: &mut Picks, at: u32, pick: Pick)
    requires few { length picks.old.written ≤ at }
    requires room { at < picks.old.room }
    ensures { picks.new.written ≡ noted picks.old.written at pick }
{
    match pick {
        Pick::First => {}
        _ => picks.put(at, pick),
    }
}

/// Room for an event and for what it picks. Answers the event's position.
pub fn prepare_pick(course: &mut Course, picks: &mut Picks) -> Result<u32, AllocError>
    ensures ranks { course.new.ranks ≡ course.old.ranks }
    ensures events { course.new.events ≡ course.old.events }
    ensures kept { course.new.kept ≡ course.old.kept }
    ensures room { OnOk result (0 < course.new.spare) }
    ensures picks { picks.new.written ≡ picks.old.written }
    ensures at { IfOk result (λ at. (at ≡ length course.old.events) × (at < picks.new.room)) }
{
    course.reserve()?;
    let at = course.history().len();
    picks.reserve(at)?;
    Ok(at)
}

/// Room for an event, and a copy of its reply.
pub fn prepare_reply(course: &mut Course, reply: &Reply) -> Result<Reply, AllocError>
    ensures ranks { course.new.ranks ≡ course.old.ranks }
    ensures events { course.new.events ≡ course.old.events }
    ensures kept { course.new.kept ≡ course.old.kept }
    ensures room { OnOk result (0 < course.new.spare) }
    ensures copied { IfOk result (λ copied. copied ≡ reply.now) }
{
    course.reserve()?;
    reply::copy_of(reply)
}

/// Room for an event, and a copy of its items.
pub fn prepare(course: &mut Course, items: &Items) -> Result<Items, AllocError>
    ensures ranks { course.new.ranks ≡ course.old.ranks }
    ensures events { course.new.events ≡ course.old.events }
    ensures kept { course.new.kept ≡ course.old.kept }
    ensures room { OnOk result (0 < course.new.spare) }
    ensures copied { IfOk result (λ copied. copied ≡ items.now) }
{
    course.reserve()?;
    items.clone()
}
