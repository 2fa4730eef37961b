//! Reading a log field by field.
ghost use Rattle.std.specs.Prelude.{◌≡◌, ◌<◌, ◌≤◌, ◌^◌, ◌↔◌, ◌⊎◌, ◌++◌, [], ℕ, List, OnOk, IfOk, IfErr, MatchResult, IsTrue, length};
ghost use Rattle.byteorder.specs.Endian.{big_bytes};
ghost use Rattle.sha2.specs.Sha256.{sha256};
ghost use Rattle.group_plan.specs.OneReading.{HaveOneReading};
ghost use Rattle.srr_entry.specs.declared.log.Log.{Log};
ghost use Rattle.srr_log.specs.declared.fault.LogFault.{LogFault};
ghost use Rattle.srr_log.specs.Faults.{no_memory};
ghost use Rattle.srr_log.specs.Bounds.{IsInBounds};
ghost use Rattle.srr_log.specs.LogText.{log_text};
ghost use Rattle.srr_log2.specs.EntryReading.{coded_rank_list};
ghost use Rattle.srr_log2.specs.Fields.{GivesFields, coded_many};
ghost use Rattle.srr_log2.specs.LogBytes.{AreLogBytes, log_bytes};
ghost use Rattle.srr_log2.specs.Reading.{IsFirstFieldFault, bits_set, coded_body, coded_close, coded_digest, coded_end, coded_group, coded_head, head_why, coded_log, coded_program, coded_rank_count};

use crate::field::{byte, field, number};
use crate::record::list;
use byteorder::{BigEndian, ByteOrder};
use mpi_call::limits::MOST_RANKS;
use mpi_call::lists::Ranks;
use sha2::{Digest, Sha256};
use srr_entry::log::{Lists, Log};
use srr_log::adding::add_list;
use srr_log::fault::{LogFault, LogWhy};
use srr_log::limits::MOST_PROGRAM_BYTES;
use srr_log::read_error::{ReadError, fault_of};
use std::alloc::{AllocError, Global};
use wiz_base::{Bytes, Cursor};

/// The format's name.
fn head(cursor: &mut Cursor<'_>) -> Result<(), ReadError>
    ensures { GivesFields (coded_head cursor.old) result cursor.new }
{
    let (bytes, left) = field(cursor, 6)?;
    if bytes == b"srr 2\n".as_slice() {
        return Ok(());
    }
    let why = head_why(bytes);
    Err(ReadError::Fault { why, left })
}

/// Why six bytes are no name of the format.
fn head_why(bytes: &[u8]) -> LogWhy
    ensures { result ≡ head_why bytes.now }
{
    let format = &bytes[..bytes.len().min(4)];
    let version = &bytes[..bytes.len().min(5)];
    if format == b"srr ".as_slice() && version != b"srr 2".as_slice() {
        LogWhy::BadVersion
    } else {
        LogWhy::BadHead
    }
}

/// The number of ranks of the run.
#[tactic(auto, unfolding(crate::specs::Reading::coded_rank_count))]
fn ranks(cursor: &mut Cursor<'_>) -> Result<u8, ReadError>
    ensures read { GivesFields (coded_rank_count cursor.old) result cursor.new }
    ensures few { IfOk result (λ ranks. (1 ≤ ranks) × (ranks ≤ MOST_RANKS)) }
{
    let (ranks, left) = byte(cursor)?;
    if 1 <= ranks && ranks <= MOST_RANKS {
        Ok(ranks)
    } else {
        Err(ReadError::Fault {
            why: LogWhy::BadNumber,
            left,
        })
    }
}

/// The number that eight bytes are, the highest first.
fn bits_of(bytes: &[u8]) -> u64
    requires { length bytes.now ≡ 8 }
    ensures { bytes.now ≡ big_bytes 8 result }
{
    BigEndian::read_u64(bytes)
}

/// Some bits are set, and none at `ranks` or above.
fn are_bits(bits: u64, ranks: u8) -> bool
    requires { ranks ≤ MOST_RANKS }
    ensures { IsTrue result ↔ (0 < bits) × (bits < 2 ^ ranks) }
{
    bits > 0 && (ranks == MOST_RANKS || bits < 1u64 << ranks)
}

/// The ranks whose bits are set.
fn bits_set(alloc: Global, bits: u64, ranks: u8) -> Result<Ranks, AllocError>
    ensures { IfOk result (λ group. group ≡ bits_set ranks 0 bits) }
{
    let mut group = Ranks::new(alloc);
    let mut left = bits;
    for rank in 0..ranks {
        add_if_set(&mut group, rank, left)?;
        left /= 2;
    }
    Ok(group)
}

/// The rank, if the lowest bit is set.
fn add_if_set(found: &mut Ranks, rank: u8, bits: u64) -> Result<(), AllocError>
    ensures { OnOk result (found.new ≡ found.old ++ bits_set 1 rank bits) }
{
    if bits % 2 == 0 {
        return Ok(());
    }
    found.push(rank)?;
    Ok(())
}

/// The ranks of the group.
fn group(alloc: Global, cursor: &mut Cursor<'_>, ranks: u8) -> Result<Ranks, ReadError>
    requires { ranks ≤ MOST_RANKS }
    ensures { GivesFields (coded_group ranks cursor.old) result cursor.new }
{
    let (bytes, left) = field(cursor, 8)?;
    let bits = bits_of(bytes);
    if !are_bits(bits, ranks) {
        return Err(ReadError::Fault {
            why: LogWhy::BadGroup,
            left,
        });
    }
    let group = bits_set(alloc, bits, ranks)?;
    Ok(group)
}

/// The program: how many bytes, and then these.
fn program(alloc: Global, cursor: &mut Cursor<'_>) -> Result<Bytes, ReadError>
    ensures { GivesFields (coded_program cursor.old) result cursor.new }
{
    let size = number(cursor, LogWhy::BadNumber, 0, MOST_PROGRAM_BYTES)?;
    let (bytes, _) = field(cursor, size as usize)?;
    let program = Bytes::from_slice(alloc, bytes)?;
    Ok(program)
}

/// A list for each rank of the group.
fn lists(
    alloc: Global,
    cursor: &mut Cursor<'_>,
    ranks: u8,
    group: &[u8],
) -> Result<Lists, ReadError>
    ensures { GivesFields (coded_many (coded_rank_list ranks group.now) (length group.now) cursor.old) result cursor.new }
{
    let mut found = Lists::new(alloc);
    let mut left = group.len();
    while left > 0 {
        left -= 1;
        let entries = list(alloc, cursor, ranks, group)?;
        add_list(&mut found, entries)?;
    }
    Ok(found)
}

/// All but the digest.
#[tactic(auto, unfolding(crate::specs::Reading::coded_body))]
fn body(alloc: Global, cursor: &mut Cursor<'_>) -> Result<Log, ReadError>
    ensures { GivesFields (coded_body cursor.old) result cursor.new }
{
    head(cursor)?;
    let ranks = ranks(cursor)?;
    let group = group(alloc, cursor, ranks)?;
    let program = program(alloc, cursor)?;
    let lists = lists(alloc, cursor, ranks, group.as_slice())?;
    Ok(Log {
        ranks,
        group,
        program,
        lists,
    })
}

/// The digest of the bytes before.
fn digest(cursor: &mut Cursor<'_>, before: &[u8]) -> Result<(), ReadError>
    ensures { GivesFields (coded_digest before.now cursor.old) result cursor.new }
{
    let (bytes, left) = field(cursor, 32)?;
    if is_digest(bytes, before) {
        Ok(())
    } else {
        Err(ReadError::Fault {
            why: LogWhy::Digest,
            left,
        })
    }
}

/// These bytes are the digest of those before.
fn is_digest(bytes: &[u8], before: &[u8]) -> bool
    ensures { IsTrue result ↔ (bytes.now ≡ sha256 before.now) }
{
    let digest = Sha256::digest(before);
    bytes == digest.as_slice()
}

/// Nothing more.
fn end(cursor: &mut Cursor<'_>) -> Result<(), ReadError>
    ensures { GivesFields (coded_end cursor.old) result cursor.new }
{
    let left = cursor.rest().len();
    if left == 0 {
        Ok(())
    } else {
        Err(ReadError::Fault {
            why: LogWhy::Extra,
            left,
        })
    }
}

/// The digest of the bytes before, and nothing more.
#[tactic(auto, unfolding(crate::specs::Reading::coded_close))]
fn close(cursor: &mut Cursor<'_>, before: &[u8]) -> Result<(), ReadError>
    ensures { GivesFields (coded_close before.now cursor.old) result cursor.new }
{
    digest(cursor, before)?;
    end(cursor)
}

/// All fields, and nothing after them.
fn read(alloc: Global, text: &[u8]) -> Result<Log, ReadError>
    ensures { GivesFields (coded_log text.now) result [] }
{
    let mut cursor = Cursor::new(text);
    let log = body(alloc, &mut cursor)?;
    let count = text.len().saturating_sub(cursor.rest().len());
    close(&mut cursor, &text[..count])?;
    Ok(log)
}

/// Reads a log, or tells what is wrong with the first field of the text that is cut off or not allowed. Takes time linear in
/// the text and the log, and memory linear in the log: a few bytes may stand for many entries that found nothing.
pub fn read_log2(alloc: Global, text: &[u8]) -> Result<Log, LogFault>
    requires { length text.now < 2 ^ 32 }
    ensures log { IfOk result (λ log. AreLogBytes text.now log) }
    ensures fault { IfErr result (λ fault. (fault ≡ no_memory) ⊎ IsFirstFieldFault text.now fault) }
    ensures only_log { (log : Log) → AreLogBytes text.now log
        → MatchResult result (λ found. found ≡ log) (λ fault. fault ≡ no_memory) }
    ensures only_fault { (first : LogFault) → IsFirstFieldFault text.now first
        → MatchResult result (λ _. ⊥) (λ fault. (fault ≡ no_memory) ⊎ (fault ≡ first)) }
{
    match read(alloc, text) {
        Ok(log) => Ok(log),
        Err(error) => Err(fault_of(text, error)),
    }
}

/// Different logs have different bytes, and none begins another; none is a text of format 1. Each text has one log or one
/// first fault, never both.
pub fn one_reading()
    ensures bytes { (log other : Log) (more : List ℕ) → IsInBounds log → IsInBounds other
        → log_bytes log ++ more ≡ log_bytes other → (log ≡ other) × (more ≡ []) }
    ensures apart { (log other : Log) → log_text log ≡ log_bytes other → ⊥ }
    ensures logs { HaveOneReading AreLogBytes IsFirstFieldFault }
{}
