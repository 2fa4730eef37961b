//! Happens-before on worked examples.
ghost use Rattle.std.specs.Prelude.{◌≡◌, ◌<◌, ◌^◌, length, true};
ghost use Rattle.causes.specs.Clocks.{AreOfRanks};

use crate::causes::Causes;
use mpi_call::call::{Call, Source, Tag, TakeMode};
use mpi_call::lists::{Ints, Starts};
use mpi_call::reply::{Got, Item, Items, Reply};
use run_model::event::{Event, Meetings};
use std::alloc::{AllocError, Global};
use std::process::Abort;
use std::rt::HostRuntime;
use std::test::Fail;

/// A send of an empty message to a rank.
fn send(alloc: Global, rank: u8, dest: u8, sync: bool, mate: Option<u32>) -> Event {
    let call = Call::Send {
        comm: 0,
        dest,
        tag: 9,
        ints: Ints::new(alloc),
        sync,
    };
    Event {
        rank,
        call,
        reply: Reply::Done,
        mate,
        met: Meetings::none(),
    }
}

/// A receive from any rank.
fn post(rank: u8, mate: Option<u32>) -> Event {
    let call = Call::Post {
        comm: 0,
        source: Source::Any,
        tag: Tag::Any,
        room: 1,
    };
    Event {
        rank,
        call,
        reply: Reply::Done,
        mate,
        met: Meetings::none(),
    }
}

/// The completion of one start.
fn take(alloc: Global, rank: u8, start: u32, got: Got) -> Result<Event, AllocError> {
    let starts = Starts::from_slice(alloc, &[start])?;
    let mut items = Items::new(alloc);
    items.push(Item { index: 0, got })?;
    let call = Call::Take {
        starts,
        mode: TakeMode::All,
    };
    Ok(Event {
        rank,
        call,
        reply: Reply::Took(items),
        mate: None,
        met: Meetings::none(),
    })
}

/// An empty message, by its Send.
fn message(alloc: Global, source: u8, start: u32) -> Got {
    Got::Message {
        source,
        start,
        tag: 9,
        ints: Ints::new(alloc),
    }
}

/// Whether each rank is below a number, and the events are few.
fn are_few(ranks: u8, events: &[Event]) -> bool
    ensures ranks { result ≡ true → AreOfRanks ranks events.now }
    ensures few { result ≡ true → length events.now < 2 ^ 32 }
{
    events.len() < 100 && events.iter().all(|event| event.rank < ranks)
}

/// Whether an event comes before another, in a history of three ranks.
fn check_before(
    rt: &(impl Abort + AllocGlobal),
    events: &[Event],
    t: u32,
    u: u32,
    want: bool,
) -> Result<(), Fail> {
    assert!(rt; are_few(3, events));
    let causes = Causes::new(rt.alloc(), 3, events)?;
    assert_eq!(rt; causes.is_before(t, u), want);
    Ok(())
}

/// Ranks 1 and 0 each send to rank 2, which receives from any rank and completes that, twice.
fn two_senders(alloc: Global) -> Result<Vec<Event>, AllocError> {
    let mut events = Vec::new(alloc);
    events.push(send(alloc, 1, 2, false, None))?;
    events.push(post(2, Some(0)))?;
    events.push(take(alloc, 2, 0, message(alloc, 1, 0))?)?;
    events.push(post(2, None))?;
    events.push(send(alloc, 0, 2, false, Some(3)))?;
    events.push(take(alloc, 2, 1, message(alloc, 0, 0))?)?;
    Ok(events)
}

#[test]
fn a_later_send_need_not_come_after_a_completion(rt: HostRuntime) -> Result<(), Fail> {
    let events = two_senders(rt.alloc())?;
    check_before(&rt, events.as_slice(), 0, 2, true)?;
    check_before(&rt, events.as_slice(), 2, 4, false)?;
    check_before(&rt, events.as_slice(), 4, 5, true)?;
    check_before(&rt, events.as_slice(), 0, 5, true)?;
    check_before(&rt, events.as_slice(), 0, 4, false)
}

/// Rank 0 sends in the synchronous mode to rank 1, and completes that.
fn synchronous_send(alloc: Global) -> Result<Vec<Event>, AllocError> {
    let mut events = Vec::new(alloc);
    events.push(post(1, None))?;
    events.push(send(alloc, 0, 1, true, Some(0)))?;
    events.push(take(alloc, 0, 0, Got::Sent)?)?;
    Ok(events)
}

#[test]
fn a_synchronous_send_completes_after_its_receive(rt: HostRuntime) -> Result<(), Fail> {
    let events = synchronous_send(rt.alloc())?;
    check_before(&rt, events.as_slice(), 0, 1, false)?;
    check_before(&rt, events.as_slice(), 0, 2, true)
}
