//! What the completions of a rank gave it, as far as costs go.
ghost use Rattle.std.specs.Prelude.{◌≡◌, ◌≤◌, ◌<◌, ◌+◌, IfOk, OnOk, slice_index};
ghost use Rattle.run_model.specs.Forms.{IsInOrder};
ghost use Rattle.run_model.specs.Views.{View, view_of};
ghost use Rattle.srr_entry.specs.Known.{IsKnownOf};
ghost use Rattle.srr_entry.specs.Seen.{IsRanksView};
ghost use Rattle.plan_advice.specs.inside.Pieces.{AreGrown, ArePieces, IsGrown, IsPiece, ints_given, ints_in_pieces, ints_of_got, ints_of_items, ints_of_reply};

use crate::span::{RunRank, span_of};
use listed::Listed;
use mpi_call::call::Call;
use mpi_call::reply::{Got, Item, Reply};
use run_model::event::Event;
use srr_entry::known::Known;
use std::alloc::{AllocError, Global};
use view_tables::start_table::listed_by;

/// How many ints a completed start gave, and the least and the greatest rank of those that it came from: the sender of a message, the
/// rank itself and the members that a collective needs, or the rank itself.
#[derive(Clone, Copy)]
pub struct Piece {
    pub least: u8,
    pub greatest: u8,
    pub ints: u64,
}

/// Pieces in order; contracts see a list.
pub type Pieces = Listed<Piece>;

/// The piece of what a start of the rank gave.
fn piece_of(owner: &RunRank, known: &Known<'_>, start: u32, got: &Got) -> Piece
    requires { (own : View) × IsKnownOf owner.now.ranks own known.now × IsInOrder owner.now.ranks owner.now.rank own }
    ensures piece { (own : View) → IsKnownOf owner.now.ranks own known.now → IsPiece owner.now.ranks owner.now.rank own start got.now result }
    ensures ints { result.ints ≡ ints_of_got got.now }
{
    match got {
        Got::Message { source, ints, .. } => Piece {
            least: *source,
            greatest: *source,
            ints: ints.as_slice().len() as u64,
        },
        Got::Joined { ints } => {
            let span = span_of(owner, known, start);
            Piece {
                least: span.least,
                greatest: span.greatest,
                ints: ints.as_slice().len() as u64,
            }
        }
        Got::Sent | Got::Nothing | Got::Made { .. } => Piece {
            least: owner.rank,
            greatest: owner.rank,
            ints: 0,
        },
    }
}

/// The start at a place of a list, 0 past its end.
fn listed_start(starts: &[u32], index: u32) -> u32
    ensures { result ≡ slice_index starts.now index }
{
    starts.get(index as usize).copied().unwrap_or(0)
}

/// Adds the pieces of completed starts.
fn add_items(
    pieces: &mut Pieces,
    owner: &RunRank,
    known: &Known<'_>,
    starts: &[u32],
    items: &[Item],
) -> Result<(), AllocError>
    requires { (own : View) × IsKnownOf owner.now.ranks own known.now × IsInOrder owner.now.ranks owner.now.rank own }
    ensures grown { OnOk result ((own : View) → IsKnownOf owner.now.ranks own known.now → AreGrown owner.now own starts.now items.now pieces.old pieces.new) }
    ensures ints { OnOk result (ints_in_pieces pieces.new ≡ ints_in_pieces pieces.old + ints_of_items items.now) }
{
    let mut rest = items;
    while let [item, after @ ..] = rest {
        let start = listed_start(starts, item.index);
        let piece = piece_of(owner, known, start, &item.got);
        pieces.push(piece)?;
        rest = after;
    }
    Ok(())
}

/// Adds the pieces of a reply to the rank's call, after what it has seen.
fn add_reply(
    pieces: &mut Pieces,
    owner: &RunRank,
    known: &Known<'_>,
    call: &Call,
    reply: &Reply,
) -> Result<(), AllocError>
    requires { (own : View) × IsKnownOf owner.now.ranks own known.now × IsInOrder owner.now.ranks owner.now.rank own }
    ensures grown { OnOk result ((own : View) → IsKnownOf owner.now.ranks own known.now → IsGrown owner.now own call.now reply.now pieces.old pieces.new) }
    ensures ints { OnOk result (ints_in_pieces pieces.new ≡ ints_in_pieces pieces.old + ints_of_reply reply.now) }
{
    match reply {
        Reply::Took(items) => add_items(pieces, owner, known, listed_by(call), items.as_slice()),
        _ => Ok(()),
    }
}

/// The pieces of all that a rank has seen.
pub fn pieces_of(alloc: Global, owner: &RunRank, events: &[Event]) -> Result<Pieces, AllocError>
    requires { IsRanksView owner.now.ranks owner.now.rank (view_of events.now owner.now.rank) }
    ensures pieces { IfOk result (λ pieces. ArePieces owner.now.ranks owner.now.rank (view_of events.now owner.now.rank) pieces) }
    ensures few { IfOk result (λ pieces. ints_in_pieces pieces ≤ ints_given events.now) }
{
    let mut known = Known::new(alloc, owner.ranks)?;
    let mut pieces = Pieces::new(alloc);
    let mut rest = events;
    while let [event, after @ ..] = rest {
        if event.rank == owner.rank {
            add_reply(&mut pieces, owner, &known, &event.call, &event.reply)?;
            known.note(&event.call, &event.reply)?;
        }
        rest = after;
    }
    Ok(pieces)
}
