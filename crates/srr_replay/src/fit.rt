//! Whether an entry fits a call, by what the rank itself has seen.
ghost use Rattle.std.specs.Prelude.{◌≡◌, ℕ, ℤ, List, Some, true, false, length, map, nat_lt};
ghost use Rattle.std.specs.List.{list_all};
ghost use Rattle.mpi_call.specs.Calls.{comm_of, is_enter, makes};
ghost use Rattle.mpi_call.specs.Collectives.{is_uncoloured};
ghost use Rattle.run_model.specs.Communicators.{members_for_rank};
ghost use Rattle.run_model.specs.Forms.{IsInOrder};
ghost use Rattle.run_model.specs.Shape.{are_members, can_take, is_dup, is_sized, rise_within};
ghost use Rattle.run_model.specs.Views.{View, start_at, view_of};
ghost use Rattle.srr_entry.specs.declared.entry.Mark.TheVariants.{Nothing, Inside, Outside};
ghost use Rattle.srr_entry.specs.declared.entry.Marked.{Marked};
ghost use Rattle.srr_entry.specs.Entries.{is_inner};
ghost use Rattle.replay_model.specs.Fits.{entry_fits, mark_fits, marks_fit};

use crate::indexed_history::IndexedHistory;
use crate::next_call::NextCall;
use mpi_call::acceptance::{is_source_of, is_tag_of};
use mpi_call::call::{Call, Comm, Kind, Source};
use mpi_call::needs::{UNDEFINED, colour_in};
use run_model::communicators::are_same;
use run_model::shape;
use srr_entry::entry::{Entry, Mark, Marked, do_indices_rise};
use srr_entry::members::all_within;

/// Whether an entry and the rank's call agree, as far as the rank's own earlier calls and replies tell.
#[tactic(auto, unfolding(replay_model::specs::Fits::entry_fits))]
pub fn fits(group: &[u8], seen: &IndexedHistory, asked: &NextCall<'_>, entry: &Entry) -> bool
    requires { IsInOrder seen.now.ranks asked.now.rank (view_of seen.now.events asked.now.rank) }
    ensures { result ≡ entry_fits seen.now.ranks group.now asked.now.rank (view_of seen.now.events asked.now.rank) asked.now.call.now entry.now }
{
    let call = asked.call;
    match entry {
        Entry::Stopped(halt) => shape::halt_fits(asked.rank, call, halt),
        Entry::Sent => matches!(call, Call::Send { .. }),
        Entry::Posted => matches!(call, Call::Post { .. }),
        Entry::Entered => matches!(call, Call::Enter { .. }),
        Entry::Ended => matches!(call, Call::End),
        Entry::NotYet => match call {
            Call::Take { starts: _, mode } => shape::is_test(*mode),
            Call::Peek { wait, .. } => !*wait,
            _ => false,
        },
        Entry::PeekedInside { source, .. } => match call {
            Call::Peek { source: from, .. } => is_source_of(from, *source),
            _ => false,
        },
        Entry::PeekedOutside { source, tag, .. } => match call {
            Call::Peek {
                source: from,
                tag: wanted,
                ..
            } => is_source_of(from, *source) && is_tag_of(wanted, *tag),
            _ => false,
        },
        Entry::Took(marks) => match call {
            Call::Take { starts, mode } => {
                let starts = starts.as_slice();
                let marks = marks.as_slice();
                shape::has_count(*mode, starts.len(), marks.len())
                    && do_rise(starts.len(), marks)
                    && are_open(seen, asked.rank, starts)
                    && marks_fit(group, seen, asked.rank, starts, marks)
            }
            _ => false,
        },
    }
}

/// Whether the indices rise and stay below a length.
fn do_rise(len: usize, marks: &[Marked]) -> bool
    ensures { result ≡ rise_within 0 len (map (λ (marked : Marked). marked.index) marks.now) }
{
    do_indices_rise(marks) && are_below(len, marks)
}

/// Whether all indices are below a length.
fn are_below(len: usize, marks: &[Marked]) -> bool
    ensures { result ≡ list_all (λ (marked : Marked). nat_lt marked.index len) marks.now }
{
    marks.iter().all(|marked| (marked.index as usize) < len)
}

/// Whether each of these starts was made and not taken.
fn are_open(seen: &IndexedHistory, rank: u8, starts: &[u32]) -> bool
    ensures { result ≡ list_all (λ k. can_take (view_of seen.now.events rank) k) starts.now }
{
    let mut rest = starts;
    while let [start, after @ ..] = rest {
        if !is_open(seen, rank, *start) {
            return false;
        }
        rest = after;
    }
    true
}

fn is_open(seen: &IndexedHistory, rank: u8, start: u32) -> bool
    ensures { result ≡ can_take (view_of seen.now.events rank) start }
{
    seen.start(rank, start).is_some() && !seen.is_taken(rank, start)
}

/// Whether each mark fits its start. An index past the list reads start 0.
fn marks_fit(
    group: &[u8],
    seen: &IndexedHistory,
    rank: u8,
    starts: &[u32],
    marks: &[Marked],
) -> bool
    requires { IsInOrder seen.now.ranks rank (view_of seen.now.events rank) }
    ensures { result ≡ marks_fit seen.now.ranks group.now rank (view_of seen.now.events rank) starts.now marks.now }
{
    let mut rest = marks;
    while let [marked, after @ ..] = rest {
        let start = starts.get(marked.index as usize).copied().unwrap_or(0);
        if !mark_fits(group, seen, rank, start, &marked.mark) {
            return false;
        }
        rest = after;
    }
    true
}

/// Whether a mark fits a start of the rank.
fn mark_fits(group: &[u8], seen: &IndexedHistory, rank: u8, start: u32, mark: &Mark) -> bool
    requires { IsInOrder seen.now.ranks rank (view_of seen.now.events rank) }
    ensures { result ≡ mark_fits seen.now.ranks group.now rank (view_of seen.now.events rank) (start_at (view_of seen.now.events rank) start) mark.now }
{
    let Some(call) = seen.start(rank, start) else {
        return false;
    };
    match mark {
        Mark::Sent => matches!(call, Call::Send { .. }),
        Mark::Nothing => is_from_null(call),
        Mark::Inside { source, .. } => takes_from(call, *source),
        Mark::Outside {
            source,
            tag,
            ints,
            ..
        } => takes_message(call, *source, *tag, ints.as_slice().len()),
        Mark::Inner => is_enter(call) && !makes(call) && is_inner(group, seen, rank, start, call),
        Mark::Outer { ints } => {
            is_enter(call)
                && !makes(call)
                && !is_inner(group, seen, rank, start, call)
                && is_sized(seen, rank, call, ints.as_slice().len())
        }
        Mark::Made { comm } => {
            makes(call)
                && is_inner(group, seen, rank, start, call)
                && (*comm == 0) == is_uncoloured(call)
        }
        Mark::MadeOutside { comm, members } => {
            makes(call)
                && !is_inner(group, seen, rank, start, call)
                && *comm != 0
                && are_members(seen, rank, call, members.as_slice())
        }
    }
}

fn is_from_null(call: &Call) -> bool
    ensures { (n : ℕ) (group : List ℕ) (me : ℕ) (own : View) → result ≡ mark_fits n group me own (Some call.now) Nothing }
{
    match call {
        Call::Post { source, .. } => matches!(source, Source::Null),
        _ => false,
    }
}

/// Whether a call is a receive that takes messages of a rank.
fn takes_from(call: &Call, source: u8) -> bool
    ensures { (n : ℕ) (group : List ℕ) (me start : ℕ) (own : View) → result ≡ mark_fits n group me own (Some call.now) (Inside source start) }
{
    match call {
        Call::Post { source: from, .. } => is_source_of(from, source),
        _ => false,
    }
}

/// Whether a call is a receive that takes such a message.
fn takes_message(call: &Call, source: u8, tag: u32, len: usize) -> bool
    ensures { (n : ℕ) (group : List ℕ) (me start : ℕ) (own : View) (ints : List ℤ) → len ≡ length ints
        → result ≡ mark_fits n group me own (Some call.now) (Outside source start tag ints) }
{
    match call {
        Call::Post {
            source: from,
            tag: wanted,
            room,
            ..
        } => is_source_of(from, source) && is_tag_of(wanted, tag) && len <= *room as usize,
        _ => false,
    }
}

pub fn is_enter(call: &Call) -> bool
    ensures { result ≡ is_enter call.now }
{
    matches!(call, Call::Enter { .. })
}

/// Whether a call is a collective that makes a communicator.
pub fn makes(call: &Call) -> bool
    ensures { result ≡ makes call.now }
{
    match call {
        Call::Enter { kind, .. } => matches!(kind, Kind::Split | Kind::Dup),
        _ => false,
    }
}

fn is_uncoloured(call: &Call) -> bool
    ensures { result ≡ is_uncoloured call.now }
{
    match call {
        Call::Enter { kind, ints, .. } => match kind {
            Kind::Split => colour_in(ints) == UNDEFINED,
            _ => false,
        },
        _ => false,
    }
}

/// The communicator of a collective, and 0 of another call.
pub fn comm_of(call: &Call) -> Comm
    ensures { result ≡ comm_of call.now }
{
    match call {
        Call::Enter { comm, .. } => *comm,
        _ => 0,
    }
}

/// Whether a collective's result needs members of the group alone.
fn is_inner(group: &[u8], seen: &IndexedHistory, rank: u8, start: u32, call: &Call) -> bool
    requires order { IsInOrder seen.now.ranks rank (view_of seen.now.events rank) }
    requires start { start_at (view_of seen.now.events rank) start ≡ Some call.now }
    requires enter { is_enter call.now ≡ true }
    ensures { result ≡ is_inner seen.now.ranks group.now rank (view_of seen.now.events rank) (Some call.now) }
{
    let members = seen.members(rank, comm_of(call));
    all_within(group, call, members, rank)
}

/// Whether a collective gives the rank this many ints.
fn is_sized(seen: &IndexedHistory, rank: u8, call: &Call, len: usize) -> bool
    requires enter { is_enter call.now ≡ true }
    requires makes { makes call.now ≡ false }
    ensures { (ints : List ℤ) → len ≡ length ints → result ≡ is_sized seen.now.ranks rank (view_of seen.now.events rank) call.now ints }
{
    let members = seen.members(rank, comm_of(call));
    shape::is_result_length(call, members.as_slice().len(), rank, len)
}

/// Whether these may be the members of a communicator that a collective makes for the rank.
fn are_members(seen: &IndexedHistory, rank: u8, call: &Call, members: &[u8]) -> bool
    ensures { result ≡ are_members seen.now.ranks rank call.now (members_for_rank seen.now.ranks (view_of seen.now.events rank) (comm_of call.now)) members.now }
{
    shape::are_members(seen.ranks(), rank, members)
        && (!is_dup(call) || are_same(seen.members(rank, comm_of(call)).as_slice(), members))
}

fn is_dup(call: &Call) -> bool
    ensures { result ≡ is_dup call.now }
{
    match call {
        Call::Enter { kind, .. } => matches!(kind, Kind::Dup),
        _ => false,
    }
}
