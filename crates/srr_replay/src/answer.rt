//! The answer to a rank's call, by its next entry.
ghost use Rattle.std.specs.Prelude.{◌≡◌, ◌<◌, IfOk, IfSome, IsOk, Some, is_some, length, true};
ghost use Rattle.run_model.specs.Forms.{AreInOrder, IsInOrder};
ghost use Rattle.run_model.specs.Views.{View, moment_at, view_of};
ghost use Rattle.replay_model.specs.Fits.{entry_fits};
ghost use Rattle.replay_model.specs.Replays.{replay_answer, diverged, entry_answer, is_break, copies_nothing};
ghost use Rattle.srr_replay.specs.Places.{AreThere, IsEntryPlace, IsPlaceIn};
ghost use Rattle.replay_model.specs.Filling.{asker_of};

use crate::clash::find_clash;
use crate::fill::reply;
use crate::find::find_entries;
use crate::fit::fits;
use crate::indexed_history::IndexedHistory;
use crate::missing::find_missing;
use crate::next_call::NextCall;
use mpi_call::call;
use replay_model::step::{Divergence, Found, Step};
use srr_entry::entry;
use srr_entry::entry::Entry;
use srr_entry::log::Log;
use std::alloc::{AllocError, Global};

/// The answer to a rank's call after what has been seen. Where it waits, its place tells where the next attempt's walk begins.
pub fn answer(
    alloc: Global,
    log: &Log,
    stop: &Option<(u8, u32)>,
    seen: &IndexedHistory,
    place: &mut Option<usize>,
    asked: &NextCall<'_>,
) -> Result<Step, AllocError>
    requires ranks { seen.now.ranks ≡ log.now.ranks }
    requires rank { asked.now.rank < seen.now.ranks }
    requires number { asked.now.number ≡ length (view_of seen.now.events asked.now.rank) }
    requires order { AreInOrder seen.now.ranks seen.now.events }
    requires place { IfSome place.old (λ place. IsPlaceIn log.now seen.now.events asked.now.rank asked.now.call.now place) }
    ensures place { IfSome place.new (λ place. IsPlaceIn log.now seen.now.events asked.now.rank asked.now.call.now place) }
    ensures answer { IfOk result (λ step. step ≡ replay_answer log.now stop.now (view_of seen.now.events) asked.now.rank (view_of seen.now.events asked.now.rank) asked.now.call.now) }
    ensures sure { copies_nothing (replay_answer log.now stop.now (view_of seen.now.events) asked.now.rank (view_of seen.now.events asked.now.rank) asked.now.call.now) ≡ true → IsOk result }
{
    if is_at(stop, asked.rank, asked.number) {
        return Ok(Step::AtBreak);
    }
    let entries = find_entries(log.group.as_slice(), log.lists.as_slice(), asked.rank);
    match entries.get(asked.number as usize) {
        None => Ok(Step::LogEnded),
        Some(entry) => answer_by(alloc, log.group.as_slice(), seen, place, asked, entry),
    }
}

/// Whether this is the breakpoint.
fn is_at(stop: &Option<(u8, u32)>, rank: u8, number: u32) -> bool
    ensures { result ≡ is_break stop.now rank number }
{
    match stop {
        Some((at, call)) => *at == rank && *call == number,
        None => false,
    }
}

/// The answer by an entry.
fn answer_by(
    alloc: Global,
    group: &[u8],
    seen: &IndexedHistory,
    place: &mut Option<usize>,
    asked: &NextCall<'_>,
    entry: &Entry,
) -> Result<Step, AllocError>
    requires rank { asked.now.rank < seen.now.ranks }
    requires number { asked.now.number ≡ length (view_of seen.now.events asked.now.rank) }
    requires order { AreInOrder seen.now.ranks seen.now.events }
    requires place { IfSome place.old (λ place. IsEntryPlace (moment_at seen.now.ranks seen.now.events asked.now.rank) group.now asked.now.call.now entry.now place) }
    ensures place { IfSome place.new (λ place. IsEntryPlace (moment_at seen.now.ranks seen.now.events asked.now.rank) group.now asked.now.call.now entry.now place) }
    ensures answer { IfOk result (λ step. step ≡ entry_answer group.now (view_of seen.now.events) (asker_of seen.now.ranks asked.now.rank (view_of seen.now.events asked.now.rank)) asked.now.call.now (Some entry.now)) }
    ensures sure { copies_nothing (entry_answer group.now (view_of seen.now.events) (asker_of seen.now.ranks asked.now.rank (view_of seen.now.events asked.now.rank)) asked.now.call.now (Some entry.now)) ≡ true → IsOk result }
{
    let Some(from) = first_mark(group, seen, *place, asked, entry) else {
        return diverge(asked, entry, None);
    };
    if let Some((walked, missing)) = find_missing(seen, asked, entry, from) {
        *place = Some(walked);
        return Ok(Step::Wait(missing));
    }
    if let Some(clash) = find_clash(seen, asked, entry) {
        let call = call::copy_of(clash.call)?;
        let found = Found {
            rank: clash.rank,
            start: clash.start,
            call,
        };
        return diverge(asked, entry, Some(found));
    }
    let reply = reply(alloc, seen, asked, entry)?;
    Ok(Step::Replied(reply))
}

/// The mark that the walk for what is missing begins at, where the call fits the entry. A rank with a place is not asked that again.
fn first_mark(
    group: &[u8],
    seen: &IndexedHistory,
    place: Option<usize>,
    asked: &NextCall<'_>,
    entry: &Entry,
) -> Option<usize>
    requires order { IsInOrder seen.now.ranks asked.now.rank (view_of seen.now.events asked.now.rank) }
    requires place { IfSome place (λ place. IsEntryPlace (moment_at seen.now.ranks seen.now.events asked.now.rank) group.now asked.now.call.now entry.now place) }
    ensures fits { is_some result ≡ entry_fits seen.now.ranks group.now asked.now.rank (view_of seen.now.events asked.now.rank) asked.now.call.now entry.now }
    ensures there { IfSome result (λ from. AreThere seen.now.ranks seen.now.events asked.now.rank asked.now.call.now entry.now from) }
{
    if place.is_some() {
        return place;
    }
    if fits(group, seen, asked, entry) {
        Some(0)
    } else {
        None
    }
}

/// The answer that the call does not fit its entry.
fn diverge(asked: &NextCall<'_>, entry: &Entry, found: Option<Found>) -> Result<Step, AllocError>
    ensures { IfOk result (λ step. (own : View) → asked.now.number ≡ length own → step ≡ diverged asked.now.rank own asked.now.call.now entry.now found) }
{
    let entry = entry::copy_of(entry)?;
    let call = call::copy_of(asked.call)?;
    Ok(Step::Diverged(Divergence {
        rank: asked.rank,
        call_number: asked.number,
        entry,
        call,
        found,
    }))
}
