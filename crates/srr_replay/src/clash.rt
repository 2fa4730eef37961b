//! Replayed starts that disagree with an entry.
ghost use Rattle.std.specs.Prelude.{◌≡◌, ℕ, List, Some, true, IfSome, option_map};
ghost use Rattle.mpi_call.specs.Calls.{comm_of, is_enter};
ghost use Rattle.mpi_call.specs.Collectives.{IsEnterOf, is_member, needs};
ghost use Rattle.run_model.specs.Communicators.{enter_at};
ghost use Rattle.run_model.specs.Forms.{IsInOrder};
ghost use Rattle.run_model.specs.Views.{start_at, view_of};
ghost use Rattle.replay_model.specs.Breaks.{break_enter, break_inner, break_mark, break_marks, break_members, break_send, broken, has_members, send_fits};
ghost use Rattle.replay_model.specs.Fits.{IsEnterAt, entry_fits, mark_fits, marks_fit};
ghost use Rattle.srr_replay.specs.inside.IndexedHistory.{entered_of, found_of};

use crate::fit::comm_of;
use crate::indexed_history::{Enter, IndexedHistory};
use crate::next_call::NextCall;
use mpi_call::acceptance::accepts;
use mpi_call::call::Call;
use mpi_call::lists::Ranks;
use mpi_call::needs::{agree, needs};
use run_model::communicators::are_same;
use srr_entry::entry::{Entry, Mark, Marked};

/// A replayed start that disagrees with the entry that names or needs it.
#[derive(Clone, Copy)]
pub struct Clash<'a> {
    pub rank: u8,
    pub start: u32,
    pub call: &'a Call,
}

/// The first replayed start that disagrees, in item order and then in member order. Takes no memory.
#[tactic(auto, unfolding(replay_model::specs::Fits::entry_fits))]
pub fn find_clash<'a>(
    seen: &'a IndexedHistory,
    asked: &NextCall<'_>,
    entry: &Entry,
) -> Option<Clash<'a>>
    requires order { IsInOrder seen.now.ranks asked.now.rank (view_of seen.now.events asked.now.rank) }
    requires fits { (group : List ℕ) × (entry_fits seen.now.ranks group asked.now.rank (view_of seen.now.events asked.now.rank) asked.now.call.now entry.now ≡ true) }
    ensures { option_map found_of result ≡ broken seen.now.ranks (view_of seen.now.events) asked.now.rank (view_of seen.now.events asked.now.rank) asked.now.call.now entry.now }
{
    match entry {
        Entry::Took(marks) => match asked.call {
            Call::Take { starts, mode: _ } => {
                clash_in_marks(seen, asked.rank, starts.as_slice(), marks.as_slice())
            }
            _ => None,
        },
        Entry::PeekedInside { source, start } => {
            let sent = seen.start(*source, *start);
            clash_with(asked.rank, *source, *start, Some(asked.call), sent)
        }
        _ => None,
    }
}

fn clash_in_marks<'a>(
    seen: &'a IndexedHistory,
    rank: u8,
    starts: &[u32],
    marks: &[Marked],
) -> Option<Clash<'a>>
    requires order { IsInOrder seen.now.ranks rank (view_of seen.now.events rank) }
    requires fits { (group : List ℕ) × (marks_fit seen.now.ranks group rank (view_of seen.now.events rank) starts.now marks.now ≡ true) }
    ensures { option_map found_of result ≡ break_marks seen.now.ranks (view_of seen.now.events) rank (view_of seen.now.events rank) starts.now marks.now }
{
    let mut rest = marks;
    while let [marked, after @ ..] = rest {
        let start = starts.get(marked.index as usize).copied().unwrap_or(0);
        if let Some(clash) = clash_in_mark(seen, rank, start, &marked.mark) {
            return Some(clash);
        }
        rest = after;
    }
    None
}

/// The first start that disagrees with the mark of the rank's start.
fn clash_in_mark<'a>(
    seen: &'a IndexedHistory,
    rank: u8,
    start: u32,
    mark: &Mark,
) -> Option<Clash<'a>>
    requires order { IsInOrder seen.now.ranks rank (view_of seen.now.events rank) }
    requires fits { (group : List ℕ) × (mark_fits seen.now.ranks group rank (view_of seen.now.events rank) (start_at (view_of seen.now.events rank) start) mark.now ≡ true) }
    ensures { option_map found_of result ≡ break_mark seen.now.ranks (view_of seen.now.events) rank (view_of seen.now.events rank) start mark.now }
{
    match mark {
        Mark::Inside {
            source,
            start: named,
        } => {
            let taker = seen.start(rank, start);
            let sent = seen.start(*source, *named);
            clash_with(rank, *source, *named, taker, sent)
        }
        Mark::Inner => clash_entered(seen, rank, start),
        Mark::Made { comm } => {
            if *comm == 0 {
                None
            } else {
                clash_entered(seen, rank, start)
            }
        }
        _ => None,
    }
}

/// A named start, where it is no Send that the receive or probe takes.
fn clash_with<'a>(
    rank: u8,
    source: u8,
    start: u32,
    taker: Option<&Call>,
    sent: Option<&'a Call>,
) -> Option<Clash<'a>>
    ensures { option_map found_of result ≡ break_send rank source start (option_map (λ call. call.now) taker.entry) (option_map (λ call. call.now) sent.entry) }
{
    match sent {
        None => None,
        Some(call) => {
            if is_fitting(rank, source, taker, call) {
                None
            } else {
                Some(Clash {
                    rank: source,
                    start,
                    call,
                })
            }
        }
    }
}

/// Whether a named start is a Send that the receive or probe accepts, and for a receive within its room.
fn is_fitting(rank: u8, source: u8, taker: Option<&Call>, sent: &Call) -> bool
    ensures { result ≡ send_fits rank source (option_map (λ call. call.now) taker.entry) sent.now }
{
    match taker {
        Some(
            Call::Post {
                comm,
                source: from,
                tag,
                room,
            },
        ) => match sent {
            Call::Send { ints, .. } => {
                accepts(rank, *comm, from, tag, source, sent)
                    && ints.as_slice().len() <= *room as usize
            }
            _ => false,
        },
        Some(
            Call::Peek {
                comm,
                source: from,
                tag,
                wait: _,
            },
        ) => accepts(rank, *comm, from, tag, source, sent),
        _ => false,
    }
}

/// The first needed member's Enter that disagrees with the rank's collective.
fn clash_entered<'a>(seen: &'a IndexedHistory, rank: u8, start: u32) -> Option<Clash<'a>>
    requires order { IsInOrder seen.now.ranks rank (view_of seen.now.events rank) }
    requires enter { IsEnterAt (view_of seen.now.events rank) start }
    ensures { option_map found_of result ≡ break_inner seen.now.ranks (view_of seen.now.events) rank (view_of seen.now.events rank) start (start_at (view_of seen.now.events rank) start) }
{
    match seen.start(rank, start) {
        Some(call) => clash_for(seen, rank, start, call),
        None => None,
    }
}

/// The same, where that start is this Enter.
fn clash_for<'a>(seen: &'a IndexedHistory, rank: u8, start: u32, call: &Call) -> Option<Clash<'a>>
    requires order { IsInOrder seen.now.ranks rank (view_of seen.now.events rank) }
    requires start { start_at (view_of seen.now.events rank) start ≡ Some call.now }
    requires enter { is_enter call.now ≡ true }
    ensures { option_map found_of result ≡ break_inner seen.now.ranks (view_of seen.now.events) rank (view_of seen.now.events rank) start (Some call.now) }
{
    let comm = comm_of(call);
    let instance = seen.instance(rank, start, comm);
    first_clash(seen, call, seen.members(rank, comm), rank, instance)
}

fn first_clash<'a>(
    seen: &'a IndexedHistory,
    call: &Call,
    members: &Ranks,
    rank: u8,
    instance: u32,
) -> Option<Clash<'a>>
    requires form { IsEnterOf call.now members.now rank }
    requires member { is_member members.now rank ≡ true }
    requires enter { is_enter call.now ≡ true }
    ensures { option_map found_of result ≡ break_members call.now members.now (needs call.now members.now rank) (λ m. enter_at seen.now.ranks (view_of seen.now.events m) (comm_of call.now) instance) members.now }
{
    let all = members.as_slice();
    let mut rest = all;
    while let [member, after @ ..] = rest {
        if needs(call, members, rank, *member) {
            let entered = seen.entered(*member, comm_of(call), instance);
            if let Some(clash) = clash_of(call, all, *member, entered) {
                return Some(clash);
            }
        }
        rest = after;
    }
    None
}

/// A member's Enter, where it disagrees.
fn clash_of<'a>(
    call: &Call,
    members: &[u8],
    member: u8,
    entered: Option<Enter<'a>>,
) -> Option<Clash<'a>>
    requires first { is_enter call.now ≡ true }
    requires second { IfSome entered (λ other. is_enter other.call.now ≡ true) }
    ensures { option_map found_of result ≡ break_enter call.now members.now member (option_map entered_of entered.entry) }
{
    match entered {
        None => None,
        Some(other) => {
            if agree(call, other.call) && has_members(members, other.members) {
                None
            } else {
                Some(Clash {
                    rank: member,
                    start: other.number,
                    call: other.call,
                })
            }
        }
    }
}

/// Whether these members are known as the same.
fn has_members(members: &[u8], others: Option<&Ranks>) -> bool
    ensures { result ≡ has_members members.now (option_map (λ others. others.now) others.entry) }
{
    match others {
        Some(others) => are_same(members, others.as_slice()),
        None => false,
    }
}
