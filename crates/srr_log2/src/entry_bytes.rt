//! Writing the entries of a log.
ghost use Rattle.std.specs.Prelude.{◌≡◌, ◌<◌, ◌≤◌, ◌+◌, ◌^◌, ◌++◌, ◌∷◌, [], OnOk, length, false};
ghost use Rattle.srr_entry.specs.declared.entry.Entry.TheVariants.{PeekedOutside};
ghost use Rattle.srr_entry.specs.declared.entry.Mark.TheVariants.{Outside};
ghost use Rattle.srr_log2.specs.EntryBytes.{counted_bytes, halt_bytes, int_bytes, ints_bytes, is_not_yet, items_bytes, list_bytes, mark_bytes, name_bytes, not_yets, record_bytes, records_bytes, tagged_bytes, word_bytes};
ghost use Rattle.srr_log2.specs.inside.Lengths.{AreShortItems, IsShortEntry, IsShortList, IsShortMark};

use crate::kind::is_not_yet;
use byteorder::{BigEndian, ByteOrder};
use mpi_call::call::Halt;
use srr_entry::entry::{Entry, Mark, Marked};
use srr_log::fault_numbers::fault_number;
use std::alloc::AllocError;
use wiz_base::{Bytes, push_text};

/// A number of one byte.
pub fn push_byte(out: &mut Bytes, byte: u8) -> Result<(), AllocError>
    ensures { OnOk result (out.new ≡ out.old ++ byte ∷ []) }
{
    push_text(out, &[byte])
}

/// A number of four bytes, the highest first.
#[tactic(auto, unfolding(crate::specs::EntryBytes::word_bytes))]
pub fn push_word(out: &mut Bytes, number: u32) -> Result<(), AllocError>
    ensures { OnOk result (out.new ≡ out.old ++ word_bytes number) }
{
    let mut bytes = [0u8; 4];
    BigEndian::write_u32(&mut bytes, number);
    push_text(out, &bytes)
}

/// An int in two's complement.
fn push_int(out: &mut Bytes, int: i32) -> Result<(), AllocError>
    ensures { OnOk result (out.new ≡ out.old ++ int_bytes int) }
{
    push_word(out, int.cast_unsigned())
}

fn push_ints(out: &mut Bytes, ints: &[i32]) -> Result<(), AllocError>
    ensures { OnOk result (out.new ≡ out.old ++ ints_bytes ints.now) }
{
    let mut rest = ints;
    while let [int, after @ ..] = rest {
        push_int(out, *int)?;
        rest = after;
    }
    Ok(())
}

/// How many ints, and then these.
fn push_counted(out: &mut Bytes, ints: &[i32]) -> Result<(), AllocError>
    requires { length ints.now < 2 ^ 32 }
    ensures { OnOk result (out.new ≡ out.old ++ counted_bytes ints.now) }
{
    push_word(out, ints.len() as u32)?;
    push_ints(out, ints)
}

/// A kind, and the name of a message: its sender and its start.
fn push_name(out: &mut Bytes, kind: u8, source: u8, start: u32) -> Result<(), AllocError>
    ensures { OnOk result (out.new ≡ out.old ++ name_bytes kind source start) }
{
    push_text(out, &[kind, source])?;
    push_word(out, start)
}

/// These, and the message's tag.
fn push_tagged(
    out: &mut Bytes,
    kind: u8,
    source: u8,
    start: u32,
    tag: u32,
) -> Result<(), AllocError>
    ensures { OnOk result (out.new ≡ out.old ++ tagged_bytes kind source start tag) }
{
    push_name(out, kind, source, start)?;
    push_word(out, tag)
}

/// The mark of a message from outside.
fn push_outside(
    out: &mut Bytes,
    source: u8,
    start: u32,
    tag: u32,
    ints: &[i32],
) -> Result<(), AllocError>
    requires { length ints.now < 2 ^ 32 }
    ensures { OnOk result (out.new ≡ out.old ++ mark_bytes (Outside source start tag ints.now)) }
{
    push_tagged(out, 4, source, start, tag)?;
    push_counted(out, ints)
}

/// The record of a probe that found a message from outside.
fn push_peeked(
    out: &mut Bytes,
    source: u8,
    start: u32,
    tag: u32,
    count: u32,
) -> Result<(), AllocError>
    ensures { OnOk result (out.new ≡ out.old ++ record_bytes (PeekedOutside source start tag count) 0) }
{
    push_tagged(out, 8, source, start, tag)?;
    push_word(out, count)
}

/// What is kept of a completed start.
fn push_mark(out: &mut Bytes, mark: &Mark) -> Result<(), AllocError>
    requires { IsShortMark mark.now }
    ensures { OnOk result (out.new ≡ out.old ++ mark_bytes mark.now) }
{
    match mark {
        Mark::Sent => push_byte(out, 1),
        Mark::Nothing => push_byte(out, 2),
        Mark::Inside { source, start } => push_name(out, 3, *source, *start),
        Mark::Outside {
            source,
            start,
            tag,
            ints,
        } => { push_outside(out, *source, *start, *tag, ints.as_slice()) }
        Mark::Inner => push_byte(out, 5),
        Mark::Outer { ints } => {
            push_byte(out, 6)?;
            push_counted(out, ints.as_slice())
        }
        Mark::Made { comm } => {
            push_byte(out, 7)?;
            push_word(out, *comm)
        }
        Mark::MadeOutside { comm, members } => {
            push_byte(out, 8)?;
            push_word(out, *comm)?;
            push_byte(out, members.as_slice().len() as u8)?;
            push_text(out, members.as_slice())
        }
    }
}

/// Completed starts.
fn push_items(out: &mut Bytes, items: &[Marked]) -> Result<(), AllocError>
    requires { AreShortItems items.now }
    ensures { OnOk result (out.new ≡ out.old ++ items_bytes items.now) }
{
    let mut rest = items;
    while let [item, after @ ..] = rest {
        push_item(out, item)?;
        rest = after;
    }
    Ok(())
}

/// A completed start: its index in the list of the call, and its mark.
fn push_item(out: &mut Bytes, item: &Marked) -> Result<(), AllocError>
    requires { IsShortMark item.now.mark }
    ensures { OnOk result (out.new ≡ out.old ++ (word_bytes item.now.index ++ mark_bytes item.now.mark)) }
{
    push_word(out, item.index)?;
    push_mark(out, &item.mark)
}

/// Why the run was stopped.
fn push_halt(out: &mut Bytes, halt: &Halt) -> Result<(), AllocError>
    ensures { OnOk result (out.new ≡ out.old ++ halt_bytes halt.now) }
{
    match halt {
        Halt::Aborted { rank, code } => {
            push_text(out, &[1, *rank])?;
            push_int(out, *code)
        }
        Halt::Trapped { rank, fault } => push_text(out, &[2, *rank, fault_number(*fault)]),
        Halt::Truncated { rank, start } => push_name(out, 3, *rank, *start),
        Halt::Mismatched { rank } => push_text(out, &[4, *rank]),
        Halt::BadRequest { rank, start } => push_name(out, 5, *rank, *start),
        Halt::Limit => push_byte(out, 6),
        Halt::Stuck => push_byte(out, 7),
    }
}

/// The record of an entry; that of one that found nothing stands for `more` entries right after it as well.
fn push_record(out: &mut Bytes, entry: &Entry, more: usize) -> Result<(), AllocError>
    requires short { IsShortEntry entry.now }
    requires few { more + 1 < 2 ^ 32 }
    ensures { OnOk result (out.new ≡ out.old ++ record_bytes entry.now more) }
{
    match entry {
        Entry::Sent => push_byte(out, 1),
        Entry::Posted => push_byte(out, 2),
        Entry::Entered => push_byte(out, 3),
        Entry::Ended => push_byte(out, 4),
        Entry::Took(items) => {
            push_byte(out, 5)?;
            push_word(out, items.as_slice().len() as u32)?;
            push_items(out, items.as_slice())
        }
        Entry::NotYet => {
            push_byte(out, 6)?;
            push_word(out, (more + 1) as u32)
        }
        Entry::PeekedInside { source, start } => push_name(out, 7, *source, *start),
        Entry::PeekedOutside {
            source,
            start,
            tag,
            count,
        } => { push_peeked(out, *source, *start, *tag, *count) }
        Entry::Stopped(halt) => {
            push_byte(out, 9)?;
            push_halt(out, halt)
        }
    }
}

/// How many entries that found nothing stand first.
fn not_yets(entries: &[Entry]) -> usize
    ensures number { result ≡ not_yets entries.now }
    ensures few { result ≤ length entries.now }
{
    let mut rest = entries;
    let mut count = 0;
    while let [entry, after @ ..] = rest {
        if !is_not_yet(entry) {
            return count;
        }
        count += 1;
        rest = after;
    }
    count
}

/// A record for each entry, but for those that the record before counts.
fn push_records(out: &mut Bytes, entries: &[Entry]) -> Result<(), AllocError>
    requires { IsShortList entries.now }
    ensures { OnOk result (out.new ≡ out.old ++ records_bytes false entries.now) }
{
    let mut rest = entries;
    let mut counted = false;
    while let [entry, after @ ..] = rest {
        let found_nothing = is_not_yet(entry);
        if !(counted && found_nothing) {
            push_record(out, entry, not_yets(after))?;
        }
        counted = found_nothing;
        rest = after;
    }
    Ok(())
}

/// How many entries a rank has, and then their records.
pub fn push_list(out: &mut Bytes, entries: &[Entry]) -> Result<(), AllocError>
    requires { IsShortList entries.now }
    ensures { OnOk result (out.new ≡ out.old ++ list_bytes entries.now) }
{
    push_word(out, entries.len() as u32)?;
    push_records(out, entries)
}
