//! Fields: numbers of one byte and of four, ranks and faults.
ghost use mir.Syntax.{w32};
ghost use Rattle.std.specs.Prelude.{◌≡◌, ◌≤◌, IfOk, FitsSigned, ◌<◌, length};
ghost use Rattle.srr_log.specs.declared.fault.LogWhy.TheVariants.{BadEntry};
ghost use Rattle.srr_log2.specs.EntryBytes.{word_bytes};
ghost use Rattle.srr_log2.specs.Fields.{GivesFields, IsByte, IsField, IsWord, coded_word};
ghost use Rattle.srr_log2.specs.EntryReading.{between, coded_count, coded_fault, coded_int, coded_rank, coded_sender, coded_small_number, coded_tag};

use crate::read_error::{bad_entry, cut_off};
use byteorder::{BigEndian, ByteOrder};
use mpi_call::call::Fault;
use mpi_call::limits::GREATEST_TAG;
use srr_log::fault::LogWhy;
use srr_log::fault_numbers::fault_numbered;
use srr_log::limits::GREATEST_NUMBER;
use srr_log::read_error::ReadError;
use wiz_base::Cursor;

/// The next byte, and how many bytes there are from it on.
pub fn byte(cursor: &mut Cursor<'_>) -> Result<(u8, usize), ReadError>
    ensures { IsByte cursor.old result cursor.new }
{
    let left = cursor.rest().len();
    match cursor.take(1) {
        Some(bytes) => Ok((bytes[0], left)),
        None => Err(cut_off()),
    }
}

/// The next `width` bytes, and how many there are from them on.
pub fn field<'a>(cursor: &mut Cursor<'a>, width: usize) -> Result<(&'a [u8], usize), ReadError>
    ensures { IsField width cursor.old result cursor.new }
{
    let left = cursor.rest().len();
    match cursor.take(width) {
        Some(bytes) => Ok((bytes, left)),
        None => Err(cut_off()),
    }
}

/// The next number of four bytes, and how many bytes there are from it on.
pub fn word(cursor: &mut Cursor<'_>) -> Result<(u32, usize), ReadError>
    ensures { IsWord cursor.old result cursor.new }
{
    let left = cursor.rest().len();
    match cursor.take(4) {
        Some(bytes) => Ok((word_of(bytes), left)),
        None => Err(cut_off()),
    }
}

/// The number that four bytes are, the highest first.
fn word_of(bytes: &[u8]) -> u32
    requires { length bytes.now ≡ 4 }
    ensures { bytes.now ≡ word_bytes result }
{
    BigEndian::read_u32(bytes)
}

/// A number of four bytes, from `least` to `most`.
pub fn number(cursor: &mut Cursor<'_>, why: LogWhy, least: u32, most: u32) -> Result<u32, ReadError>
    ensures read { GivesFields (coded_word why (between least most) cursor.old) result cursor.new }
    ensures within { IfOk result (λ number. (least ≤ number) × (number ≤ most)) }
{
    let (number, left) = word(cursor)?;
    if least <= number && number <= most {
        Ok(number)
    } else {
        Err(ReadError::Fault { why, left })
    }
}

/// A start's number, or a communicator's.
#[tactic(auto, unfolding(crate::specs::EntryReading::coded_small_number))]
pub fn small(cursor: &mut Cursor<'_>) -> Result<u32, ReadError>
    ensures { GivesFields (coded_small_number cursor.old) result cursor.new }
{
    number(cursor, LogWhy::BadEntry, 0, GREATEST_NUMBER)
}

/// A message's tag.
#[tactic(auto, unfolding(crate::specs::EntryReading::coded_tag))]
pub fn tag(cursor: &mut Cursor<'_>) -> Result<u32, ReadError>
    ensures { GivesFields (coded_tag cursor.old) result cursor.new }
{
    number(cursor, LogWhy::BadEntry, 0, GREATEST_TAG)
}

/// A count of ints, at most `most`.
#[tactic(auto, unfolding(crate::specs::EntryReading::coded_count))]
pub fn count(cursor: &mut Cursor<'_>, most: u32) -> Result<u32, ReadError>
    ensures { GivesFields (coded_count most cursor.old) result cursor.new }
{
    number(cursor, LogWhy::BadEntry, 0, most)
}

/// An int in two's complement.
#[tactic(auto, unfolding(crate::specs::EntryReading::coded_int))]
pub fn int(cursor: &mut Cursor<'_>) -> Result<i32, ReadError>
    ensures read { GivesFields (coded_int cursor.old) result cursor.new }
    ensures fits { IfOk result (λ int. FitsSigned w32 int) }
{
    let (number, _) = word(cursor)?;
    Ok(number.cast_signed())
}

/// A rank of the run.
#[tactic(auto, unfolding(crate::specs::EntryReading::coded_rank))]
pub fn rank(cursor: &mut Cursor<'_>, ranks: u8) -> Result<u8, ReadError>
    ensures { GivesFields (coded_rank ranks cursor.old) result cursor.new }
{
    let (rank, left) = byte(cursor)?;
    if rank < ranks {
        Ok(rank)
    } else {
        Err(bad_entry(left))
    }
}

/// The sender of a message, in the group or outside it.
#[tactic(auto, unfolding(crate::specs::EntryReading::coded_sender))]
pub fn sender(
    cursor: &mut Cursor<'_>,
    ranks: u8,
    group: &[u8],
    inside: bool,
) -> Result<u8, ReadError>
    ensures { GivesFields (coded_sender ranks group.now inside cursor.old) result cursor.new }
{
    let (rank, left) = byte(cursor)?;
    if rank < ranks && group.contains(&rank) == inside {
        Ok(rank)
    } else {
        Err(bad_entry(left))
    }
}

/// Why a program trapped.
#[tactic(auto, unfolding(crate::specs::EntryReading::coded_fault))]
pub fn fault(cursor: &mut Cursor<'_>) -> Result<Fault, ReadError>
    ensures { GivesFields (coded_fault cursor.old) result cursor.new }
{
    let (number, left) = byte(cursor)?;
    match fault_numbered(number as u32) {
        Some(fault) => Ok(fault),
        None => Err(bad_entry(left)),
    }
}
