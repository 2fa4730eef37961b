//! Marks: what a completed start gave.
ghost use Rattle.srr_log2.specs.declared.kind.MarkKind.TheVariants.{Outside};
ghost use Rattle.srr_log2.specs.Fields.{GivesFields};
ghost use Rattle.srr_log2.specs.EntryReading.{coded_mark, coded_mark_kind, mark_of};

use crate::field::{byte, number, sender, small, tag};
use crate::kind::{MarkKind, mark_kind};
use crate::list::{ints, members};
use crate::read_error::bad_entry;
use mpi_call::limits::{MOST_INTS, MOST_RESULT_INTS};
use srr_entry::entry::Mark;
use srr_log::fault::LogWhy;
use srr_log::limits::GREATEST_NUMBER;
use srr_log::read_error::ReadError;
use std::alloc::Global;
use wiz_base::Cursor;

/// The kind of a mark.
#[tactic(auto, unfolding(crate::specs::EntryReading::coded_mark_kind))]
fn kind(cursor: &mut Cursor<'_>) -> Result<MarkKind, ReadError>
    ensures { GivesFields (coded_mark_kind cursor.old) result cursor.new }
{
    let (number, left) = byte(cursor)?;
    match mark_kind(number) {
        Some(kind) => Ok(kind),
        None => Err(bad_entry(left)),
    }
}

/// A mark: its kind, and what follows.
#[tactic(auto, unfolding(crate::specs::EntryReading::coded_mark))]
pub fn mark(
    alloc: Global,
    cursor: &mut Cursor<'_>,
    ranks: u8,
    group: &[u8],
) -> Result<Mark, ReadError>
    ensures { GivesFields (coded_mark ranks group.now cursor.old) result cursor.new }
{
    let kind = kind(cursor)?;
    mark_of(alloc, cursor, ranks, group, kind)
}

/// A message from outside the group, after its kind.
fn outside(
    alloc: Global,
    cursor: &mut Cursor<'_>,
    ranks: u8,
    group: &[u8],
) -> Result<Mark, ReadError>
    ensures { GivesFields (mark_of ranks group.now Outside cursor.old) result cursor.new }
{
    let source = sender(cursor, ranks, group, false)?;
    let start = small(cursor)?;
    let tag = tag(cursor)?;
    let ints = ints(alloc, cursor, MOST_INTS)?;
    Ok(Mark::Outside {
        source,
        start,
        tag,
        ints,
    })
}

/// What follows the kind of a mark.
fn mark_of(
    alloc: Global,
    cursor: &mut Cursor<'_>,
    ranks: u8,
    group: &[u8],
    kind: MarkKind,
) -> Result<Mark, ReadError>
    ensures { GivesFields (mark_of ranks group.now kind cursor.old) result cursor.new }
{
    match kind {
        MarkKind::Sent => Ok(Mark::Sent),
        MarkKind::Nothing => Ok(Mark::Nothing),
        MarkKind::Inside => {
            let source = sender(cursor, ranks, group, true)?;
            let start = small(cursor)?;
            Ok(Mark::Inside { source, start })
        }
        MarkKind::Outside => outside(alloc, cursor, ranks, group),
        MarkKind::Inner => Ok(Mark::Inner),
        MarkKind::Outer => {
            let ints = ints(alloc, cursor, MOST_RESULT_INTS)?;
            Ok(Mark::Outer { ints })
        }
        MarkKind::Made => {
            let comm = small(cursor)?;
            Ok(Mark::Made { comm })
        }
        MarkKind::MadeOutside => {
            let comm = number(cursor, LogWhy::BadEntry, 1, GREATEST_NUMBER)?;
            let members = members(alloc, cursor, ranks)?;
            Ok(Mark::MadeOutside { comm, members })
        }
    }
}
