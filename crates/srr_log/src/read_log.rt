//! Reading a log part by part.
ghost use Rattle.std.specs.Prelude.{◌≡◌, ◌↔◌, ◌<◌, ◌^◌, ◌⊎◌, ◌++◌, ◌∷◌, [], ℕ, List, IfOk, IfErr, MatchResult, IsTrue, length, map};
ghost use Rattle.group_plan.specs.OneReading.{HaveOneReading};
ghost use Rattle.srr_entry.specs.declared.log.Log.{Log};
ghost use Rattle.srr_log.specs.declared.fault.LogFault.{LogFault};
ghost use Rattle.srr_log.specs.Bounds.{IsInBounds};
ghost use Rattle.srr_log.specs.Faults.{IsFirstPartFault, no_memory};
ghost use Rattle.srr_log.specs.LogText.{IsLogText, log_text};
ghost use Rattle.srr_log.specs.Parts.{head_line, ranks_line, group_line, size_line, program_bytes, rank_line, entry_part, end_line, lists_parts, log_parts};
ghost use Rattle.srr_log.specs.inside.Reading.{IsNextLine, Reads, at_entry, at_group, at_head, at_list, at_program, at_ranks, at_size, entries_left};

use crate::adding::{add_entry, add_list};
use crate::fault::{LogFault, LogWhy};
use crate::line;
use crate::read_error::{ReadError, fault_of, refused};
use mpi_call::lists::Ranks;
use srr_entry::entry::Entry;
use srr_entry::log::{Entries, Lists, Log};
use std::alloc::Global;
use wiz_base::{Bytes, Cursor};

/// The next line, without its newline.
fn next_line<'a>(cursor: &mut Cursor<'a>) -> Result<&'a [u8], ReadError>
    ensures { IsNextLine cursor.old result cursor.new }
{
    match cursor.ended_line() {
        Some(line) => Ok(line),
        None => Err(ReadError::Fault {
            why: LogWhy::Short,
            left: 0,
        }),
    }
}

/// The format's line.
fn head(cursor: &mut Cursor<'_>) -> Result<(), ReadError>
    ensures { Reads at_head (λ _. head_line ∷ []) cursor.old result cursor.new }
{
    let left = cursor.rest().len();
    let line = next_line(cursor)?;
    if line == b"srr 1".as_slice() {
        return Ok(());
    }
    let why = line::head_fault(line);
    Err(ReadError::Fault { why, left })
}

/// The number of ranks.
fn ranks(cursor: &mut Cursor<'_>) -> Result<u8, ReadError>
    ensures { Reads at_ranks (λ ranks. ranks_line ranks ∷ []) cursor.old result cursor.new }
{
    let left = cursor.rest().len();
    let line = next_line(cursor)?;
    match line::ranks_line(line) {
        Some(ranks) => Ok(ranks),
        None => Err(ReadError::Fault {
            why: LogWhy::BadNumber,
            left,
        }),
    }
}

/// The ranks of the group.
fn group(alloc: Global, cursor: &mut Cursor<'_>, ranks: u8) -> Result<Ranks, ReadError>
    ensures { Reads (at_group ranks) (λ group. group_line group ∷ []) cursor.old result cursor.new }
{
    let left = cursor.rest().len();
    let line = next_line(cursor)?;
    match line::group_line(alloc, line, ranks) {
        Ok(group) => Ok(group),
        Err(unread) => Err(refused(unread, LogWhy::BadGroup, left)),
    }
}

/// The program's size.
fn size(cursor: &mut Cursor<'_>) -> Result<u32, ReadError>
    ensures { (n : ℕ) (group : List ℕ) → Reads (at_size n group) (λ size. size_line size ∷ []) cursor.old result cursor.new }
{
    let left = cursor.rest().len();
    let line = next_line(cursor)?;
    match line::size_line(line) {
        Some(size) => Ok(size),
        None => Err(ReadError::Fault {
            why: LogWhy::BadNumber,
            left,
        }),
    }
}

/// The program's bytes, and the newline after them.
fn bytes(alloc: Global, cursor: &mut Cursor<'_>, size: u32) -> Result<Bytes, ReadError>
    ensures { (n : ℕ) (group : List ℕ) → Reads (at_program n group size) (λ program. program_bytes program ∷ []) cursor.old result cursor.new }
{
    let left = cursor.rest().len();
    let Some(part) = cursor.take(size as usize + 1) else {
        return Err(ReadError::Fault {
            why: LogWhy::Short,
            left: 0,
        });
    };
    let (program, end) = part.split_at(size as usize);
    if !is_newline(end) {
        return Err(ReadError::Fault {
            why: LogWhy::BadNumber,
            left,
        });
    }
    let program = Bytes::from_slice(alloc, program)?;
    Ok(program)
}

fn is_newline(end: &[u8]) -> bool
    ensures { IsTrue result ↔ (end.now ≡ 10 ∷ []) }
{
    end == b"\n".as_slice()
}

/// The program's size, and its bytes.
fn program(alloc: Global, cursor: &mut Cursor<'_>) -> Result<Bytes, ReadError>
    ensures { (n : ℕ) (group : List ℕ) → Reads (at_size n group) (λ program. size_line (length program) ∷ program_bytes program ∷ []) cursor.old result cursor.new }
{
    let size = size(cursor)?;
    bytes(alloc, cursor, size)
}

/// A rank's line: how many entries it has.
fn rank(cursor: &mut Cursor<'_>, rank: u8) -> Result<u32, ReadError>
    ensures { (n : ℕ) (group ranks : List ℕ) → Reads (at_list n group (rank ∷ ranks)) (λ count. rank_line rank count ∷ []) cursor.old result cursor.new }
{
    let left = cursor.rest().len();
    let line = next_line(cursor)?;
    match line::rank_line(line, rank) {
        Some(count) => Ok(count),
        None => Err(ReadError::Fault {
            why: LogWhy::BadNumber,
            left,
        }),
    }
}

/// An entry before so many others.
fn entry(
    alloc: Global,
    cursor: &mut Cursor<'_>,
    ranks: u8,
    group: &[u8],
    others: u32,
) -> Result<Entry, ReadError>
    ensures { (behind : List ℕ) → Reads (at_entry ranks group.now others behind) (λ entry. entry_part entry ∷ []) cursor.old result cursor.new }
{
    let left = cursor.rest().len();
    let line = next_line(cursor)?;
    match line::entry_line(alloc, line, ranks, group, others) {
        Ok(entry) => Ok(entry),
        Err(unread) => Err(refused(unread, LogWhy::BadEntry, left)),
    }
}

/// This many entries of a rank.
fn entries(
    alloc: Global,
    cursor: &mut Cursor<'_>,
    ranks: u8,
    group: &[u8],
    count: u32,
) -> Result<Entries, ReadError>
    ensures read { (behind : List ℕ) → Reads (entries_left ranks group.now count behind) (λ entries. map entry_part entries) cursor.old result cursor.new }
    ensures many { IfOk result (λ entries. length entries ≡ count) }
{
    let mut entries = Entries::new(alloc);
    let mut left = count;
    while left > 0 {
        left -= 1;
        let entry = entry(alloc, cursor, ranks, group, left)?;
        add_entry(&mut entries, entry)?;
    }
    Ok(entries)
}

/// The list of one rank.
fn list(
    alloc: Global,
    cursor: &mut Cursor<'_>,
    ranks: u8,
    group: &[u8],
    named: u8,
) -> Result<Entries, ReadError>
    ensures { (behind : List ℕ) → Reads (at_list ranks group.now (named ∷ behind)) (λ entries. rank_line named (length entries) ∷ map entry_part entries) cursor.old result cursor.new }
{
    let count = rank(cursor, named)?;
    entries(alloc, cursor, ranks, group, count)
}

/// The list of each rank of the group.
fn lists(
    alloc: Global,
    cursor: &mut Cursor<'_>,
    ranks: u8,
    group: &[u8],
) -> Result<Lists, ReadError>
    ensures read { Reads (at_list ranks group.now group.now) (λ lists. lists_parts group.now lists []) cursor.old result cursor.new }
    ensures many { IfOk result (λ lists. length lists ≡ length group.now) }
{
    let mut lists = Lists::new(alloc);
    for named in group {
        let entries = list(alloc, cursor, ranks, group, *named)?;
        add_list(&mut lists, entries)?;
    }
    Ok(lists)
}

/// The last line.
fn end(cursor: &mut Cursor<'_>) -> Result<(), ReadError>
    ensures { (n : ℕ) (group : List ℕ) → Reads (at_list n group []) (λ _. end_line ∷ []) cursor.old result cursor.new }
{
    let left = cursor.rest().len();
    let line = next_line(cursor)?;
    if line == b"end".as_slice() {
        return Ok(());
    }
    Err(ReadError::Fault {
        why: LogWhy::BadEntry,
        left,
    })
}

/// The list of each rank, the last line, and nothing after it.
fn lists_and_end(
    alloc: Global,
    cursor: &mut Cursor<'_>,
    ranks: u8,
    group: &[u8],
) -> Result<Lists, ReadError>
    ensures read { Reads (at_list ranks group.now group.now) (λ lists. lists_parts group.now lists (end_line ∷ [])) cursor.old result [] }
    ensures many { IfOk result (λ lists. length lists ≡ length group.now) }
{
    let lists = lists(alloc, cursor, ranks, group)?;
    end(cursor)?;
    let left = cursor.rest().len();
    if left > 0 {
        return Err(ReadError::Fault {
            why: LogWhy::Extra,
            left,
        });
    }
    Ok(lists)
}

/// All parts, and nothing after them.
fn read(alloc: Global, text: &[u8]) -> Result<Log, ReadError>
    ensures parts { Reads at_head log_parts text.now result [] }
    ensures many { IfOk result (λ log. length log.lists ≡ length log.group) }
{
    let mut cursor = Cursor::new(text);
    head(&mut cursor)?;
    let ranks = ranks(&mut cursor)?;
    let group = group(alloc, &mut cursor, ranks)?;
    let program = program(alloc, &mut cursor)?;
    let lists = lists_and_end(alloc, &mut cursor, ranks, group.as_slice())?;
    Ok(Log {
        ranks,
        group,
        program,
        lists,
    })
}

/// Reads a log, or tells what is wrong with the first part of the text that no log has there. Takes time and memory linear
/// in the text.
pub fn read_log(alloc: Global, text: &[u8]) -> Result<Log, LogFault>
    requires { length text.now < 2 ^ 32 }
    ensures log { IfOk result (λ log. IsLogText text.now log) }
    ensures fault { IfErr result (λ fault. (fault ≡ no_memory) ⊎ IsFirstPartFault text.now fault) }
    ensures only_log { (log : Log) → IsLogText text.now log
        → MatchResult result (λ found. found ≡ log) (λ fault. fault ≡ no_memory) }
    ensures only_fault { (first : LogFault) → IsFirstPartFault text.now first
        → MatchResult result (λ _. ⊥) (λ fault. (fault ≡ no_memory) ⊎ (fault ≡ first)) }
{
    match read(alloc, text) {
        Ok(log) => Ok(log),
        Err(error) => Err(fault_of(text, error)),
    }
}

/// Different logs have different texts, and none begins another. Each text has one log or one first fault, never both.
pub fn one_reading()
    ensures texts { (log other : Log) (more : List ℕ) → IsInBounds log → IsInBounds other
        → log_text log ++ more ≡ log_text other → (log ≡ other) × (more ≡ []) }
    ensures logs { HaveOneReading IsLogText IsFirstPartFault }
{}
