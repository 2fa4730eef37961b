//! Records: the entries of a rank, by their bytes.
ghost use Rattle.std.specs.Prelude.{◌≡◌, ◌≤◌, IfOk, ◌++◌, ◌∷◌, ◌+◌, ◌<◌, ◌^◌, [], OnOk, true, false};
ghost use Rattle.srr_entry.specs.declared.entry.Entry.TheVariants.{Took};
ghost use Rattle.srr_log2.specs.declared.kind.RecordKind.TheVariants.{PeekedOutside};
ghost use Rattle.srr_log2.specs.EntryBytes.{is_not_yet};
ghost use Rattle.srr_log2.specs.Fields.{GivesFields};
ghost use Rattle.srr_log2.specs.EntryReading.{coded_entries, coded_halt, halt_of, coded_item, coded_items, coded_rank_list, may_stand, coded_record, coded_record_kind, record_of, coded_some_items};

use crate::field::{byte, count, fault, int, number, rank, sender, small, tag, word};
use crate::kind::{HaltKind, RecordKind, halt_kind, is_not_yet, record_kind};
use crate::mark::mark;
use crate::read_error::bad_entry;
use mpi_call::call::Halt;
use mpi_call::limits::MOST_INTS;
use srr_entry::entry::{Entry, Marked, MarkedItems};
use srr_entry::log::Entries;
use srr_log::adding::add_entry;
use srr_log::fault::LogWhy;
use srr_log::limits::{GREATEST_NUMBER, MOST_ENTRIES};
use srr_log::read_error::ReadError;
use std::alloc::{AllocError, Global};
use wiz_base::Cursor;

/// A completed start: its index, at least so much, and its mark.
#[tactic(auto, unfolding(crate::specs::EntryReading::coded_item))]
fn item(
    alloc: Global,
    cursor: &mut Cursor<'_>,
    ranks: u8,
    group: &[u8],
    least: u32,
) -> Result<Marked, ReadError>
    ensures read { GivesFields (coded_item ranks group.now least cursor.old) result cursor.new }
    ensures small { IfOk result (λ item. item.index ≤ GREATEST_NUMBER) }
{
    let index = number(cursor, LogWhy::BadEntry, least, GREATEST_NUMBER)?;
    let mark = mark(alloc, cursor, ranks, group)?;
    Ok(Marked { index, mark })
}

/// So many of them, each index above the one before. Memory is taken as they are read.
fn items(
    alloc: Global,
    cursor: &mut Cursor<'_>,
    ranks: u8,
    group: &[u8],
    count: u32,
) -> Result<MarkedItems, ReadError>
    ensures { GivesFields (coded_items ranks group.now 0 count cursor.old) result cursor.new }
{
    let mut found = MarkedItems::new(alloc);
    let mut least = 0;
    let mut left = count;
    while left > 0 {
        left -= 1;
        let item = item(alloc, cursor, ranks, group, least)?;
        least = item.index + 1;
        add_item(&mut found, item)?;
    }
    Ok(found)
}

fn add_item(found: &mut MarkedItems, item: Marked) -> Result<(), AllocError>
    ensures { OnOk result (found.new ≡ found.old ++ item ∷ []) }
{
    found.push(item)?;
    Ok(())
}

/// A halt: its kind, and what follows.
#[tactic(auto, unfolding(crate::specs::EntryReading::coded_halt))]
fn halt(cursor: &mut Cursor<'_>, ranks: u8) -> Result<Halt, ReadError>
    ensures { GivesFields (coded_halt ranks cursor.old) result cursor.new }
{
    let (number, left) = byte(cursor)?;
    match halt_kind(number) {
        Some(kind) => halt_of(cursor, ranks, kind),
        None => Err(bad_entry(left)),
    }
}

/// What follows the kind of a halt.
fn halt_of(cursor: &mut Cursor<'_>, ranks: u8, kind: HaltKind) -> Result<Halt, ReadError>
    ensures { GivesFields (halt_of ranks kind cursor.old) result cursor.new }
{
    match kind {
        HaltKind::Aborted => {
            let rank = rank(cursor, ranks)?;
            let code = int(cursor)?;
            Ok(Halt::Aborted { rank, code })
        }
        HaltKind::Trapped => {
            let rank = rank(cursor, ranks)?;
            let fault = fault(cursor)?;
            Ok(Halt::Trapped { rank, fault })
        }
        HaltKind::Truncated => {
            let rank = rank(cursor, ranks)?;
            let start = small(cursor)?;
            Ok(Halt::Truncated { rank, start })
        }
        HaltKind::Mismatched => {
            let rank = rank(cursor, ranks)?;
            Ok(Halt::Mismatched { rank })
        }
        HaltKind::BadRequest => {
            let rank = rank(cursor, ranks)?;
            let start = small(cursor)?;
            Ok(Halt::BadRequest { rank, start })
        }
        HaltKind::Limit => Ok(Halt::Limit),
        HaltKind::Stuck => Ok(Halt::Stuck),
    }
}

/// Which record may stand where `others` more entries follow its first, after one that found nothing (`counted`) or not.
fn may_stand(counted: bool, others: u32, kind: RecordKind) -> bool
    ensures { result ≡ may_stand counted others kind }
{
    match kind {
        RecordKind::Ended | RecordKind::Stopped => others == 0,
        RecordKind::NotYet => !counted,
        _ => true,
    }
}

/// The first byte of a record.
#[tactic(auto, unfolding(crate::specs::EntryReading::coded_record_kind))]
fn kind(cursor: &mut Cursor<'_>, counted: bool, others: u32) -> Result<RecordKind, ReadError>
    ensures { GivesFields (coded_record_kind counted others cursor.old) result cursor.new }
{
    let (number, left) = byte(cursor)?;
    if let Some(kind) = record_kind(number) {
        if may_stand(counted, others, kind) {
            return Ok(kind);
        }
    }
    Err(bad_entry(left))
}

/// The entry that a record stands for, and for how many more of them it stands.
#[tactic(auto, unfolding(crate::specs::EntryReading::coded_record))]
fn record(
    alloc: Global,
    cursor: &mut Cursor<'_>,
    ranks: u8,
    group: &[u8],
    counted: bool,
    others: u32,
) -> Result<(Entry, u32), ReadError>
    requires { others + 1 < 2 ^ 32 }
    ensures { GivesFields (coded_record ranks group.now counted others cursor.old) result cursor.new }
{
    let kind = kind(cursor, counted, others)?;
    record_of(alloc, cursor, ranks, group, others, kind)
}

/// A probe that found a message from outside the group, after the first byte of its record.
fn peeked_outside(
    cursor: &mut Cursor<'_>,
    ranks: u8,
    group: &[u8],
) -> Result<(Entry, u32), ReadError>
    ensures { GivesFields (record_of ranks group.now 0 PeekedOutside cursor.old) result cursor.new }
{
    let source = sender(cursor, ranks, group, false)?;
    let start = small(cursor)?;
    let tag = tag(cursor)?;
    let count = count(cursor, MOST_INTS)?;
    let entry = Entry::PeekedOutside {
        source,
        start,
        tag,
        count,
    };
    Ok((entry, 0))
}

/// What follows the first byte of a record.
fn record_of(
    alloc: Global,
    cursor: &mut Cursor<'_>,
    ranks: u8,
    group: &[u8],
    others: u32,
    kind: RecordKind,
) -> Result<(Entry, u32), ReadError>
    requires { others + 1 < 2 ^ 32 }
    ensures { GivesFields (record_of ranks group.now others kind cursor.old) result cursor.new }
{
    match kind {
        RecordKind::Sent => Ok((Entry::Sent, 0)),
        RecordKind::Posted => Ok((Entry::Posted, 0)),
        RecordKind::Entered => Ok((Entry::Entered, 0)),
        RecordKind::Ended => Ok((Entry::Ended, 0)),
        RecordKind::Took => {
            let items = some_items(alloc, cursor, ranks, group)?;
            Ok((Entry::Took(items), 0))
        }
        RecordKind::NotYet => {
            let count = number(cursor, LogWhy::BadEntry, 1, others + 1)?;
            Ok((Entry::NotYet, count - 1))
        }
        RecordKind::PeekedInside => {
            let source = sender(cursor, ranks, group, true)?;
            let start = small(cursor)?;
            Ok((Entry::PeekedInside { source, start }, 0))
        }
        RecordKind::PeekedOutside => peeked_outside(cursor, ranks, group),
        RecordKind::Stopped => {
            let halt = halt(cursor, ranks)?;
            Ok((Entry::Stopped(halt), 0))
        }
    }
}

/// How many completed starts, at least one, and then these.
#[tactic(auto, unfolding(crate::specs::EntryReading::coded_some_items))]
fn some_items(
    alloc: Global,
    cursor: &mut Cursor<'_>,
    ranks: u8,
    group: &[u8],
) -> Result<MarkedItems, ReadError>
    ensures { GivesFields (coded_some_items ranks group.now cursor.old) result cursor.new }
{
    let (count, left) = word(cursor)?;
    if count == 0 {
        return Err(bad_entry(left));
    }
    items(alloc, cursor, ranks, group, count)
}

/// So many entries. Memory is taken as they are read.
fn entries(
    alloc: Global,
    cursor: &mut Cursor<'_>,
    ranks: u8,
    group: &[u8],
    count: u32,
) -> Result<Entries, ReadError>
    ensures { GivesFields (coded_entries ranks group.now false 0 count cursor.old) result cursor.new }
{
    let mut found = Entries::new(alloc);
    let mut left = count;
    let mut counted = false;
    let mut more = 0;
    while left > 0 {
        left -= 1;
        if more > 0 {
            add_entry(&mut found, Entry::NotYet)?;
            counted = true;
            more -= 1;
        } else {
            let (entry, many) = record(alloc, cursor, ranks, group, counted, left)?;
            counted = is_not_yet(&entry);
            more = many;
            add_entry(&mut found, entry)?;
        }
    }
    Ok(found)
}

/// The list of a rank: how many entries it has, and then their records.
#[tactic(auto, unfolding(crate::specs::EntryReading::coded_rank_list))]
pub fn list(
    alloc: Global,
    cursor: &mut Cursor<'_>,
    ranks: u8,
    group: &[u8],
) -> Result<Entries, ReadError>
    ensures { GivesFields (coded_rank_list ranks group.now cursor.old) result cursor.new }
{
    let count = number(cursor, LogWhy::BadNumber, 0, MOST_ENTRIES)?;
    entries(alloc, cursor, ranks, group, count)
}
