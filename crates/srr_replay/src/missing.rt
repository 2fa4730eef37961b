//! What an entry rests on and that has not been replayed.
ghost use Rattle.std.specs.Prelude.{◌≡◌, ◌<◌, ◌≤◌, ℕ, List, IfSome, None, Some, true, length, option_map, take};
ghost use Rattle.mpi_call.specs.Calls.{comm_of, is_enter};
ghost use Rattle.mpi_call.specs.Collectives.{IsEnterOf, is_member, needs};
ghost use Rattle.run_model.specs.Communicators.{enter_at};
ghost use Rattle.run_model.specs.Forms.{IsInOrder};
ghost use Rattle.run_model.specs.Inputs.{gather, inputs_of};
ghost use Rattle.run_model.specs.Views.{start_at, view_of};
ghost use Rattle.replay_model.specs.Filling.{absent_of, asker_of, fill_inner, fill_made, fill_mark, fill_marks, filled_message, filled_reply, joined_result, made_new, missing_of, peeked_from};
ghost use Rattle.replay_model.specs.Fits.{IsEnterAt, entry_fits, mark_fits, marks_fit};
ghost use Rattle.srr_replay.specs.Places.{AreThere};

use crate::fit::comm_of;
use crate::indexed_history::IndexedHistory;
use crate::next_call::NextCall;
use mpi_call::call::Call;
use mpi_call::lists::Ranks;
use mpi_call::needs::needs;
use replay_model::step::Missing;
use srr_entry::entry::{Entry, Mark, Marked};

/// The first thing that an entry rests on and that is not there, in item order and then in member order, and how many marks come
/// before the one that it is missing for. The first `from` marks are not looked at. Takes no memory.
#[tactic(auto, unfolding(replay_model::specs::Fits::entry_fits))]
pub fn find_missing(
    seen: &IndexedHistory,
    asked: &NextCall<'_>,
    entry: &Entry,
    from: usize,
) -> Option<(usize, Missing)>
    requires order { IsInOrder seen.now.ranks asked.now.rank (view_of seen.now.events asked.now.rank) }
    requires fits { (group : List ℕ) × (entry_fits seen.now.ranks group asked.now.rank (view_of seen.now.events asked.now.rank) asked.now.call.now entry.now ≡ true) }
    requires there { AreThere seen.now.ranks seen.now.events asked.now.rank asked.now.call.now entry.now from }
    ensures missing { option_map (λ found. found.1) result ≡ missing_of (filled_reply seen.now.ranks (view_of seen.now.events) asked.now.rank (view_of seen.now.events asked.now.rank) asked.now.call.now entry.now) }
    ensures there { IfSome result (λ found. AreThere seen.now.ranks seen.now.events asked.now.rank asked.now.call.now entry.now found.0) }
{
    match entry {
        Entry::Took(marks) => match asked.call {
            Call::Take { starts, mode: _ } => {
                let starts = starts.as_slice();
                missing_in_marks(seen, asked.rank, starts, marks.as_slice(), from)
            }
            _ => None,
        },
        Entry::PeekedInside { source, start } => match missing_probed(seen, *source, *start) {
            Some(missing) => Some((0, missing)),
            None => None,
        },
        _ => None,
    }
}

/// The named start of a probe, where it is not there.
fn missing_probed(seen: &IndexedHistory, source: u8, start: u32) -> Option<Missing>
    ensures { result ≡ missing_of (peeked_from source start (start_at (view_of seen.now.events source) start)) }
{
    match seen.start(source, start) {
        Some(_) => None,
        None => Some(Missing::Start { source, start }),
    }
}

/// The first that is missing for the marks after the first `from`, and how many marks come before its own.
fn missing_in_marks(
    seen: &IndexedHistory,
    rank: u8,
    starts: &[u32],
    marks: &[Marked],
    from: usize,
) -> Option<(usize, Missing)>
    requires order { IsInOrder seen.now.ranks rank (view_of seen.now.events rank) }
    requires fits { (group : List ℕ) × (marks_fit seen.now.ranks group rank (view_of seen.now.events rank) starts.now marks.now ≡ true) }
    requires within { from ≤ length marks.now }
    requires there { missing_of (fill_marks seen.now.ranks (view_of seen.now.events) rank (view_of seen.now.events rank) starts.now (take from marks.now)) ≡ None }
    ensures missing { option_map (λ found. found.1) result ≡ missing_of (fill_marks seen.now.ranks (view_of seen.now.events) rank (view_of seen.now.events rank) starts.now marks.now) }
    ensures within { IfSome result (λ found. found.0 ≤ length marks.now) }
    ensures there { IfSome result (λ found. missing_of (fill_marks seen.now.ranks (view_of seen.now.events) rank (view_of seen.now.events rank) starts.now (take found.0 marks.now)) ≡ None) }
{
    for k in from..marks.len() {
        let marked = &marks[k];
        let start = starts.get(marked.index as usize).copied().unwrap_or(0);
        if let Some(missing) = missing_in_mark(seen, rank, start, &marked.mark) {
            return Some((k, missing));
        }
    }
    None
}

/// What the mark of the rank's start rests on and that is not there.
fn missing_in_mark(seen: &IndexedHistory, rank: u8, start: u32, mark: &Mark) -> Option<Missing>
    requires order { IsInOrder seen.now.ranks rank (view_of seen.now.events rank) }
    requires fits { (group : List ℕ) × (mark_fits seen.now.ranks group rank (view_of seen.now.events rank) (start_at (view_of seen.now.events rank) start) mark.now ≡ true) }
    ensures { result ≡ missing_of (fill_mark seen.now.ranks (view_of seen.now.events) rank (view_of seen.now.events rank) start mark.now) }
{
    match mark {
        Mark::Inside { source, start } => missing_sent(seen, *source, *start),
        Mark::Inner => missing_entered(seen, rank, start),
        Mark::Made { comm } => {
            if *comm == 0 {
                None
            } else {
                missing_entered(seen, rank, start)
            }
        }
        _ => None,
    }
}

/// The named start of a message, where it is not there.
fn missing_sent(seen: &IndexedHistory, source: u8, start: u32) -> Option<Missing>
    ensures { result ≡ missing_of (filled_message source start (start_at (view_of seen.now.events source) start)) }
{
    match seen.start(source, start) {
        Some(_) => None,
        None => Some(Missing::Start { source, start }),
    }
}

/// The first member that the result of the rank's collective needs and that has not entered yet.
fn missing_entered(seen: &IndexedHistory, rank: u8, start: u32) -> Option<Missing>
    requires order { IsInOrder seen.now.ranks rank (view_of seen.now.events rank) }
    requires enter { IsEnterAt (view_of seen.now.events rank) start }
    ensures inner { result ≡ missing_of (fill_inner seen.now.ranks (view_of seen.now.events) rank (view_of seen.now.events rank) start (start_at (view_of seen.now.events rank) start)) }
    ensures made { (comm : ℕ) → result ≡ missing_of (fill_made comm (view_of seen.now.events) (asker_of seen.now.ranks rank (view_of seen.now.events rank)) start (start_at (view_of seen.now.events rank) start)) }
{
    match seen.start(rank, start) {
        Some(call) => missing_for(seen, rank, start, call),
        None => None,
    }
}

/// The same, where that start is this Enter.
fn missing_for(seen: &IndexedHistory, rank: u8, start: u32, call: &Call) -> Option<Missing>
    requires order { IsInOrder seen.now.ranks rank (view_of seen.now.events rank) }
    requires start { start_at (view_of seen.now.events rank) start ≡ Some call.now }
    requires enter { is_enter call.now ≡ true }
    ensures inner { result ≡ missing_of (joined_result seen.now.ranks rank (view_of seen.now.events rank) start call.now (inputs_of seen.now.ranks (view_of seen.now.events) rank (view_of seen.now.events rank) start call.now)) }
    ensures made { (comm : ℕ) → result ≡ missing_of (made_new comm (asker_of seen.now.ranks rank (view_of seen.now.events rank)) start call.now (inputs_of seen.now.ranks (view_of seen.now.events) rank (view_of seen.now.events rank) start call.now)) }
{
    let comm = comm_of(call);
    let instance = seen.instance(rank, start, comm);
    let members = seen.members(rank, comm);
    match first_absent(seen, call, members, rank, instance) {
        Some(member) => Some(Missing::Member {
            rank: member,
            comm,
            instance,
        }),
        None => None,
    }
}

/// The first member that a collective's result needs and that has not entered the instance.
fn first_absent(
    seen: &IndexedHistory,
    call: &Call,
    members: &Ranks,
    rank: u8,
    instance: u32,
) -> Option<u8>
    requires form { IsEnterOf call.now members.now rank }
    requires member { is_member members.now rank ≡ true }
    ensures { result ≡ absent_of (gather (needs call.now members.now rank) (λ m. enter_at seen.now.ranks (view_of seen.now.events m) (comm_of call.now) instance) members.now) }
{
    let mut rest = members.as_slice();
    while let [member, after @ ..] = rest {
        if needs(call, members, rank, *member)
            && seen.entered(*member, comm_of(call), instance).is_none()
        {
            return Some(*member);
        }
        rest = after;
    }
    None
}
