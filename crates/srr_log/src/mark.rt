//! Reading marks: what a completed start gave.
ghost use Rattle.std.specs.Prelude.{◌≡◌};
ghost use Rattle.srr_log.specs.inside.EntryReading.{inside_in, long_mark_in, made_in, mark_in, message_in, outside_in};
ghost use Rattle.srr_log.specs.inside.Pieces.{GivesPiece};

use crate::limits::GREATEST_NUMBER;
use crate::lists::few_ints;
use crate::pieces::{behind, number, rank, split_once};
use crate::read_error::Unread;
use mpi_call::limits::{GREATEST_TAG, MOST_INTS, MOST_RANKS, MOST_RESULT_INTS};
use srr_entry::entry::Mark;
use std::alloc::Global;

/// The name of a message from inside the group.
#[tactic(auto, unfolding(crate::specs::inside::EntryReading::inside_in))]
pub fn inside(text: &[u8], ranks: u8, group: &[u8]) -> Option<(u8, u32)>
    ensures { result ≡ inside_in ranks group.now text.now }
{
    let (source, start) = split_once(text, b'.')?;
    let source = rank(source, ranks)?;
    let start = number(start, GREATEST_NUMBER)?;
    if group.contains(&source) {
        Some((source, start))
    } else {
        None
    }
}

/// The name of a message from outside, and its tag.
#[tactic(auto, unfolding(crate::specs::inside::EntryReading::outside_in))]
pub fn outside(text: &[u8], ranks: u8, group: &[u8]) -> Option<(u8, u32, u32)>
    ensures { result ≡ outside_in ranks group.now text.now }
{
    let (source, others) = split_once(text, b'.')?;
    let (start, tag) = split_once(others, b'.')?;
    let source = rank(source, ranks)?;
    let start = number(start, GREATEST_NUMBER)?;
    let tag = number(tag, GREATEST_TAG)?;
    if group.contains(&source) {
        None
    } else {
        Some((source, start, tag))
    }
}

#[tactic(auto, unfolding(crate::specs::inside::EntryReading::mark_in))]
pub fn mark(alloc: Global, text: &[u8], ranks: u8, group: &[u8]) -> Result<Mark, Unread>
    ensures { GivesPiece result (mark_in ranks group.now text.now) }
{
    match text {
        [b's'] => Ok(Mark::Sent),
        [b'n'] => Ok(Mark::Nothing),
        [b'c'] => Ok(Mark::Inner),
        _ => long_mark(alloc, text, ranks, group),
    }
}

/// A mark of more than one letter.
#[tactic(auto, unfolding(crate::specs::inside::EntryReading::long_mark_in))]
fn long_mark(alloc: Global, text: &[u8], ranks: u8, group: &[u8]) -> Result<Mark, Unread>
    ensures { GivesPiece result (long_mark_in ranks group.now text.now) }
{
    if let Some(outer) = behind(text, b"c:") {
        let ints = few_ints(alloc, outer, MOST_RESULT_INTS as usize)?;
        return Ok(Mark::Outer { ints });
    }
    if let Some(new) = behind(text, b"m.") {
        return made(alloc, new, ranks);
    }
    message(alloc, text, ranks, group)
}

/// A new communicator: its number, and after a colon its members.
#[tactic(auto, unfolding(crate::specs::inside::EntryReading::made_in))]
fn made(alloc: Global, text: &[u8], ranks: u8) -> Result<Mark, Unread>
    ensures { GivesPiece result (made_in ranks text.now) }
{
    let Some((comm, listed)) = split_once(text, b':') else {
        let Some(comm) = number(text, GREATEST_NUMBER) else {
            return Err(Unread::NotAllowed);
        };
        return Ok(Mark::Made { comm });
    };
    let Some(comm) = number(comm, GREATEST_NUMBER) else {
        return Err(Unread::NotAllowed);
    };
    let members = crate::lists::ranks(alloc, listed, b',', ranks)?;
    if comm > 0 && members.as_slice().len() <= MOST_RANKS as usize {
        Ok(Mark::MadeOutside { comm, members })
    } else {
        Err(Unread::NotAllowed)
    }
}

/// A message: its name, and after a colon its ints.
#[tactic(auto, unfolding(crate::specs::inside::EntryReading::message_in))]
fn message(alloc: Global, text: &[u8], ranks: u8, group: &[u8]) -> Result<Mark, Unread>
    ensures { GivesPiece result (message_in ranks group.now text.now) }
{
    let Some((name, ints)) = split_once(text, b':') else {
        let Some((source, start)) = inside(text, ranks, group) else {
            return Err(Unread::NotAllowed);
        };
        return Ok(Mark::Inside { source, start });
    };
    let Some((source, start, tag)) = outside(name, ranks, group) else {
        return Err(Unread::NotAllowed);
    };
    let ints = few_ints(alloc, ints, MOST_INTS as usize)?;
    Ok(Mark::Outside {
        source,
        start,
        tag,
        ints,
    })
}
