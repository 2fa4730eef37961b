//! Reading an entry's line.
ghost use Rattle.std.specs.Prelude.{◌≡◌};
ghost use Rattle.srr_log.specs.inside.EntryReading.{all_items_in, detail_in, detailed_in, entry_in, halt_in, item_in, items_in, long_entry_in, named_in, peek_in};
ghost use Rattle.srr_log.specs.inside.Pieces.{Adds, GivesPiece};

use crate::fault_numbers::fault_numbered;
use crate::limits::GREATEST_NUMBER;
use crate::mark::{inside, mark, outside};
use crate::pieces::{behind, int, number, rank, split_once};
use crate::read_error::Unread;
use mpi_call::call::Halt;
use mpi_call::limits::MOST_INTS;
use srr_entry::entry::{Entry, Marked, MarkedItems, do_indices_rise};
use std::alloc::Global;

/// The entry whose line it is, within the bounds of a log of so many ranks and of this group.
#[tactic(auto, unfolding(crate::specs::inside::EntryReading::entry_in))]
pub fn entry(alloc: Global, line: &[u8], ranks: u8, group: &[u8]) -> Result<Entry, Unread>
    ensures { GivesPiece result (entry_in ranks group.now line.now) }
{
    match line {
        [b's'] => Ok(Entry::Sent),
        [b'p'] => Ok(Entry::Posted),
        [b'e'] => Ok(Entry::Entered),
        [b'z'] => Ok(Entry::Ended),
        [b'n'] => Ok(Entry::NotYet),
        _ => long_entry(alloc, line, ranks, group),
    }
}

/// An entry whose line has more than one letter.
#[tactic(auto, unfolding(crate::specs::inside::EntryReading::long_entry_in))]
fn long_entry(alloc: Global, line: &[u8], ranks: u8, group: &[u8]) -> Result<Entry, Unread>
    ensures { GivesPiece result (long_entry_in ranks group.now line.now) }
{
    if let Some(listed) = behind(line, b"t ") {
        let items = items(alloc, listed, ranks, group)?;
        return Ok(Entry::Took(items));
    }
    if let Some(found) = behind(line, b"k ") {
        return peek(found, ranks, group).ok_or(Unread::NotAllowed);
    }
    if let Some(named) = behind(line, b"x ") {
        let Some(halt) = halt(named, ranks) else {
            return Err(Unread::NotAllowed);
        };
        return Ok(Entry::Stopped(halt));
    }
    Err(Unread::NotAllowed)
}

/// Completed starts, with blanks between; the indices rise.
#[tactic(auto, unfolding(crate::specs::inside::EntryReading::items_in))]
fn items(alloc: Global, text: &[u8], ranks: u8, group: &[u8]) -> Result<MarkedItems, Unread>
    ensures { GivesPiece result (items_in ranks group.now text.now) }
{
    let items = all_items(alloc, text, ranks, group)?;
    if do_indices_rise(items.as_slice()) {
        Ok(items)
    } else {
        Err(Unread::NotAllowed)
    }
}

fn all_items(alloc: Global, text: &[u8], ranks: u8, group: &[u8]) -> Result<MarkedItems, Unread>
    ensures { GivesPiece result (all_items_in ranks group.now text.now) }
{
    let mut found = MarkedItems::new(alloc);
    let mut rest = text;
    while let Some((piece, after)) = split_once(rest, b' ') {
        add_item(alloc, &mut found, piece, ranks, group)?;
        rest = after;
    }
    add_item(alloc, &mut found, rest, ranks, group)?;
    Ok(found)
}

fn add_item(
    alloc: Global,
    found: &mut MarkedItems,
    piece: &[u8],
    ranks: u8,
    group: &[u8],
) -> Result<(), Unread>
    ensures { Adds found.old found.new result (item_in ranks group.now piece.now) }
{
    let item = match item(alloc, piece, ranks, group) {
        Ok(item) => item,
        Err(unread) => return Err(unread),
    };
    match found.push(item) {
        Ok(()) => Ok(()),
        Err(_) => Err(Unread::NoMemory),
    }
}

/// A completed start: its index in the call's list, and its mark.
#[tactic(auto, unfolding(crate::specs::inside::EntryReading::item_in))]
fn item(alloc: Global, text: &[u8], ranks: u8, group: &[u8]) -> Result<Marked, Unread>
    ensures { GivesPiece result (item_in ranks group.now text.now) }
{
    let Some((index, kept)) = split_once(text, b'=') else {
        return Err(Unread::NotAllowed);
    };
    let Some(index) = number(index, GREATEST_NUMBER) else {
        return Err(Unread::NotAllowed);
    };
    let mark = mark(alloc, kept, ranks, group)?;
    Ok(Marked { index, mark })
}

/// A message that a probe found.
#[tactic(auto, unfolding(crate::specs::inside::EntryReading::peek_in))]
fn peek(text: &[u8], ranks: u8, group: &[u8]) -> Option<Entry>
    ensures { result ≡ peek_in ranks group.now text.now }
{
    let Some((name, count)) = split_once(text, b':') else {
        let (source, start) = inside(text, ranks, group)?;
        return Some(Entry::PeekedInside { source, start });
    };
    let (source, start, tag) = outside(name, ranks, group)?;
    let count = number(count, MOST_INTS)?;
    Some(Entry::PeekedOutside {
        source,
        start,
        tag,
        count,
    })
}

#[tactic(auto, unfolding(crate::specs::inside::EntryReading::halt_in))]
fn halt(text: &[u8], ranks: u8) -> Option<Halt>
    ensures { result ≡ halt_in ranks text.now }
{
    match text {
        [b'6'] => Some(Halt::Limit),
        [b'7'] => Some(Halt::Stuck),
        _ => named(text, ranks),
    }
}

/// A halt that names a rank.
#[tactic(auto, unfolding(crate::specs::inside::EntryReading::named_in))]
fn named(text: &[u8], ranks: u8) -> Option<Halt>
    ensures { result ≡ named_in ranks text.now }
{
    let (kind, others) = split_once(text, b' ')?;
    if let [b'4'] = kind {
        let rank = rank(others, ranks)?;
        return Some(Halt::Mismatched { rank });
    }
    detailed(kind, others, ranks)
}

/// A halt that names a rank and one thing more.
#[tactic(auto, unfolding(crate::specs::inside::EntryReading::detailed_in))]
fn detailed(kind: &[u8], text: &[u8], ranks: u8) -> Option<Halt>
    ensures { result ≡ detailed_in ranks kind.now text.now }
{
    let (named, other) = split_once(text, b' ')?;
    let rank = rank(named, ranks)?;
    detail(kind, rank, other)
}

#[tactic(auto, unfolding(crate::specs::inside::EntryReading::detail_in))]
fn detail(kind: &[u8], rank: u8, text: &[u8]) -> Option<Halt>
    ensures { result ≡ detail_in kind.now rank text.now }
{
    match kind {
        [b'1'] => {
            let code = int(text)?;
            Some(Halt::Aborted { rank, code })
        }
        [b'2'] => {
            let fault = fault_numbered(number(text, 10)?)?;
            Some(Halt::Trapped { rank, fault })
        }
        [b'3'] => {
            let start = number(text, GREATEST_NUMBER)?;
            Some(Halt::Truncated { rank, start })
        }
        [b'5'] => {
            let start = number(text, GREATEST_NUMBER)?;
            Some(Halt::BadRequest { rank, start })
        }
        _ => None,
    }
}
