//! Which moves a search follows: those that keep what a probe found, and those of patient ranks.
ghost use Rattle.std.specs.Prelude.{◌≡◌, ◌<◌, ◌≤◌, ◌+◌, ◌^◌, ◌∷◌, [], None, Some, MatchBool, option_map};
ghost use Rattle.run_states.specs.Futures.{mate_name};
ghost use Rattle.mpi_call.specs.declared.reply.Reply.TheVariants.{Done};
ghost use Rattle.run_model.specs.Views.{view_of};
ghost use Rattle.run_states.specs.Outcomes.{IsPatientEvent, IsProbeKept, vain_after, vain_in};
ghost use Rattle.explore.specs.inside.Probes.{AsksSame, last_or};

use mpi_call::call::{Call, Source, Tag};
use mpi_call::reply::Reply;
use run_model::event::Event;
use run_states::starts::mate_in;

/// The last event of a rank among these.
fn last_of(events: &[Event], rank: u8) -> Option<&Event>
    ensures { option_map (λ event. (event.now.call, event.now.reply)) result ≡ last_or None (view_of events.now rank) }
{
    let mut last = None;
    let mut rest = events;
    while let [event, after @ ..] = rest {
        if event.rank == rank {
            last = Some(event);
        }
        rest = after;
    }
    last
}

fn is_same_source(one: Source, other: Source) -> bool
    ensures { MatchBool result (one ≡ other) (one ≡ other → ⊥) }
{
    match one {
        Source::Any => matches!(other, Source::Any),
        Source::Null => matches!(other, Source::Null),
        Source::From(rank) => match other {
            Source::From(number) => rank == number,
            _ => false,
        },
    }
}

fn is_same_tag(one: Tag, other: Tag) -> bool
    ensures { MatchBool result (one ≡ other) (one ≡ other → ⊥) }
{
    match one {
        Tag::Any => matches!(other, Tag::Any),
        Tag::Is(tag) => match other {
            Tag::Is(number) => tag == number,
            _ => false,
        },
    }
}

/// Whether a receive asks for what a probe asked for.
fn asks_same(call: &Call, probe: &Call) -> bool
    ensures { MatchBool result (AsksSame call.now probe.now) (AsksSame call.now probe.now → ⊥) }
{
    match call {
        Call::Post {
            comm,
            source,
            tag,
            ..
        } => match probe {
            Call::Peek {
                comm: probed,
                source: from,
                tag: tagged,
                ..
            } => {
                *comm == *probed && is_same_source(*source, *from) && is_same_tag(*tag, *tagged)
            }
            _ => false,
        },
        _ => false,
    }
}

/// Whether the mate of an event is this start.
fn is_mate(before: &[Event], mate: Option<u32>, rank: u8, start: u32) -> bool
    ensures { MatchBool result (mate_name before.now mate ≡ Some (rank, start)) (mate_name before.now mate ≡ Some (rank, start) → ⊥) }
{
    match mate_in(before, mate) {
        Some(name) => name.0 == rank && name.1 == start as usize,
        None => false,
    }
}

/// Whether an event that was answered Done keeps what the rank's probe just before it found, where it posts a receive that asks for the same.
fn keeps_last(before: &[Event], event: &Event) -> bool
    requires { event.now.reply ≡ Done }
    ensures { MatchBool result (IsProbeKept before.now event.now) (IsProbeKept before.now event.now → ⊥) }
{
    let Some(last) = last_of(before, event.rank) else {
        return true;
    };
    if !asks_same(&event.call, &last.call) {
        return true;
    }
    match &last.reply {
        Reply::Peeked { source, start, .. } => is_mate(before, event.mate, *source, *start),
        _ => true,
    }
}

/// Whether an event keeps what the rank's probe just before it found, where it posts a receive that asks for the same.
pub fn keeps_probe(before: &[Event], event: &Event) -> bool
    ensures { MatchBool result (IsProbeKept before.now event.now) (IsProbeKept before.now event.now → ⊥) }
{
    match &event.reply {
        Reply::Done => keeps_last(before, event),
        _ => true,
    }
}

/// How many of a rank's last replies are NotYet, in a row, where so many stood before the next event.
fn vain_more(count: usize, event: &Event, rank: u8) -> usize
    requires { count + 1 < 2 ^ 64 }
    ensures value { result ≡ vain_after count (view_of (event.now ∷ []) rank) }
    ensures few { result ≤ count + 1 }
{
    if event.rank != rank {
        return count;
    }
    match event.reply {
        Reply::NotYet => count + 1,
        _ => 0,
    }
}

/// How many of a rank's last replies are NotYet, in a row.
fn vain_in(events: &[Event], rank: u8) -> usize
    ensures { result ≡ vain_in (view_of events.now rank) }
{
    let mut count = 0;
    let mut rest = events;
    while let [event, after @ ..] = rest {
        count = vain_more(count, event, rank);
        rest = after;
    }
    count
}

/// Whether a rank that is answered NotYet was not answered so that many times in a row before.
pub fn is_patient(before: &[Event], event: &Event, most: u32) -> bool
    ensures { MatchBool result (IsPatientEvent most before.now event.now) (IsPatientEvent most before.now event.now → ⊥) }
{
    match event.reply {
        Reply::NotYet => vain_in(before, event.rank) < most as usize,
        _ => true,
    }
}
