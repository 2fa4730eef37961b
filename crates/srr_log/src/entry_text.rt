//! The text of an entry.
ghost use Rattle.std.specs.Prelude.{◌≡◌, ◌∷◌, ◌++◌, OnOk, OnErr, map};
ghost use Rattle.srr_log.specs.EntryText.{each_after, by_commas, name_text, mark_text, item_text, halt_number, halt_details, entry_line};
ghost use Rattle.wiz_base.specs.Decimals.{decimal_text, number_text};

use crate::fault_numbers::fault_number;
use crate::spelled::{Spelled, push_by_commas};
use mpi_call::call::Halt;
use srr_entry::entry::{Entry, Mark, Marked};
use std::alloc::{AllocError, Global};
use wiz_base::{Bytes, push_decimal, push_number, push_text};

/// Appends an entry's line without its newline, all or nothing. The line is built apart, so this takes its length twice.
pub fn entry_text(alloc: Global, out: &mut Bytes, entry: &Entry) -> Result<(), AllocError>
    ensures ok { OnOk result (out.new ≡ out.old ++ entry_line entry.now) }
    ensures err { OnErr result (out.new ≡ out.old) }
{
    let mut line = Bytes::new(alloc);
    push_entry(&mut line, entry)?;
    out.extend(line.as_slice())
}

pub(crate) fn push_entry(out: &mut Bytes, entry: &Entry) -> Result<(), AllocError>
    ensures { OnOk result (out.new ≡ out.old ++ entry_line entry.now) }
{
    match entry {
        Entry::Sent => push_text(out, b"s"),
        Entry::Posted => push_text(out, b"p"),
        Entry::Entered => push_text(out, b"e"),
        Entry::Ended => push_text(out, b"z"),
        Entry::Took(items) => {
            push_text(out, b"t")?;
            push_items(out, items.as_slice())
        }
        Entry::NotYet => push_text(out, b"n"),
        Entry::PeekedInside { source, start } => {
            push_text(out, b"k ")?;
            push_name(out, *source, *start)
        }
        Entry::PeekedOutside {
            source,
            start,
            tag,
            count,
        } => {
            push_text(out, b"k ")?;
            push_tagged(out, *source, *start, *tag)?;
            push_after(out, b":", *count as u64)
        }
        Entry::Stopped(halt) => {
            push_after(out, b"x ", halt_number(halt) as u64)?;
            push_details(out, halt)
        }
    }
}

/// A word and a number.
pub(crate) fn push_after(out: &mut Bytes, word: &[u8], number: u64) -> Result<(), AllocError>
    ensures { OnOk result (out.new ≡ out.old ++ word.now ++ decimal_text number) }
{
    push_text(out, word)?;
    push_decimal(out, number)
}

/// A word and an int.
fn push_int_after(out: &mut Bytes, word: &[u8], int: i32) -> Result<(), AllocError>
    ensures { OnOk result (out.new ≡ out.old ++ word.now ++ number_text int) }
{
    push_text(out, word)?;
    push_number(out, int as i64)
}

/// A message's name: its sender, and the number of its start among that rank's.
pub fn push_name(out: &mut Bytes, source: u8, start: u32) -> Result<(), AllocError>
    ensures { OnOk result (out.new ≡ out.old ++ name_text source start) }
{
    push_decimal(out, source as u64)?;
    push_after(out, b".", start as u64)
}

/// The name and the tag of a message from outside.
fn push_tagged(out: &mut Bytes, source: u8, start: u32, tag: u32) -> Result<(), AllocError>
    ensures { OnOk result (out.new ≡ out.old ++ name_text source start ++ (46 ∷ decimal_text tag)) }
{
    push_name(out, source, start)?;
    push_after(out, b".", tag as u64)
}

/// A blank and an item, for each.
fn push_items(out: &mut Bytes, items: &[Marked]) -> Result<(), AllocError>
    ensures { OnOk result (out.new ≡ out.old ++ each_after 32 (map item_text items.now)) }
{
    let mut rest = items;
    while let [item, after @ ..] = rest {
        push_after(out, b" ", item.index as u64)?;
        push_text(out, b"=")?;
        push_mark(out, &item.mark)?;
        rest = after;
    }
    Ok(())
}

fn push_mark(out: &mut Bytes, mark: &Mark) -> Result<(), AllocError>
    ensures { OnOk result (out.new ≡ out.old ++ mark_text mark.now) }
{
    match mark {
        Mark::Sent => push_text(out, b"s"),
        Mark::Nothing => push_text(out, b"n"),
        Mark::Inside { source, start } => push_name(out, *source, *start),
        Mark::Outside {
            source,
            start,
            tag,
            ints,
        } => {
            push_tagged(out, *source, *start, *tag)?;
            push_listed(out, ints.as_slice())
        }
        Mark::Inner => push_text(out, b"c"),
        Mark::Outer { ints } => {
            push_text(out, b"c")?;
            push_listed(out, ints.as_slice())
        }
        Mark::Made { comm } => push_after(out, b"m.", *comm as u64),
        Mark::MadeOutside { comm, members } => {
            push_after(out, b"m.", *comm as u64)?;
            push_listed(out, members.as_slice())
        }
    }
}

/// A colon, and numbers with commas between.
fn push_listed<T: Spelled>(out: &mut Bytes, numbers: &[T]) -> Result<(), AllocError>
    ensures { OnOk result (out.new ≡ out.old ++ 58 ∷ by_commas (map T.text numbers.now)) }
{
    push_text(out, b":")?;
    push_by_commas(out, numbers)
}

fn halt_number(halt: &Halt) -> u8
    ensures { result ≡ halt_number halt.now }
{
    match halt {
        Halt::Aborted { .. } => 1,
        Halt::Trapped { .. } => 2,
        Halt::Truncated { .. } => 3,
        Halt::Mismatched { .. } => 4,
        Halt::BadRequest { .. } => 5,
        Halt::Limit => 6,
        Halt::Stuck => 7,
    }
}

/// What a halt names, a blank before each.
fn push_details(out: &mut Bytes, halt: &Halt) -> Result<(), AllocError>
    ensures { OnOk result (out.new ≡ out.old ++ halt_details halt.now) }
{
    match halt {
        Halt::Aborted { rank, code } => {
            push_after(out, b" ", *rank as u64)?;
            push_int_after(out, b" ", *code)
        }
        Halt::Trapped { rank, fault } => {
            push_after(out, b" ", *rank as u64)?;
            push_after(out, b" ", fault_number(*fault) as u64)
        }
        Halt::Truncated { rank, start } | Halt::BadRequest { rank, start } => {
            push_after(out, b" ", *rank as u64)?;
            push_after(out, b" ", *start as u64)
        }
        Halt::Mismatched { rank } => push_after(out, b" ", *rank as u64),
        Halt::Limit | Halt::Stuck => Ok(()),
    }
}
