//! Reading the lines that are no entries.
ghost use Rattle.std.specs.Prelude.{◌≡◌, ◌≢◌, ◌++◌, ◌∷◌, [], codes};
ghost use Rattle.srr_log.specs.Bounds.{is_last};
ghost use Rattle.srr_log.specs.Faults.{IsReason};
ghost use Rattle.srr_log.specs.inside.LineReading.{entry_line_in, group_line_in, rank_line_in, ranks_line_in, size_line_in};
ghost use Rattle.srr_log.specs.Parts.{head_line};
ghost use Rattle.srr_log.specs.inside.Pieces.{GivesPiece};

use crate::entry_line::entry;
use crate::fault::LogWhy;
use crate::limits::{MOST_ENTRIES, MOST_PROGRAM_BYTES};
use crate::lists::rise;
use crate::pieces::{behind, number, split_once};
use crate::read_error::Unread;
use mpi_call::limits::MOST_RANKS;
use mpi_call::lists::Ranks;
use srr_entry::entry::Entry;
use std::alloc::Global;
use wiz_base::is_decimal;

/// Why a first line is refused.
pub fn head_fault(line: &[u8]) -> LogWhy
    requires { line.now ≢ codes "srr 1" }
    ensures { IsReason head_line (line.now ++ 10 ∷ []) result }
{
    match behind(line, b"srr ") {
        Some(version) => {
            if is_decimal(version) {
                LogWhy::BadVersion
            } else {
                LogWhy::BadHead
            }
        }
        None => LogWhy::BadHead,
    }
}

/// How many ranks the run had.
#[tactic(auto, unfolding(crate::specs::inside::LineReading::ranks_line_in))]
pub fn ranks_line(line: &[u8]) -> Option<u8>
    ensures { result ≡ ranks_line_in line.now }
{
    let ranks = number(behind(line, b"ranks ")?, MOST_RANKS as u32)?;
    if ranks > 0 { Some(ranks as u8) } else { None }
}

/// The ranks of the group.
#[tactic(auto, unfolding(crate::specs::inside::LineReading::group_line_in))]
pub fn group_line(alloc: Global, line: &[u8], ranks: u8) -> Result<Ranks, Unread>
    ensures { GivesPiece result (group_line_in ranks line.now) }
{
    let Some(listed) = behind(line, b"group ") else {
        return Err(Unread::NotAllowed);
    };
    let group = crate::lists::ranks(alloc, listed, b' ', ranks)?;
    if rise(group.as_slice()) {
        Ok(group)
    } else {
        Err(Unread::NotAllowed)
    }
}

/// How many bytes the program has.
#[tactic(auto, unfolding(crate::specs::inside::LineReading::size_line_in))]
pub fn size_line(line: &[u8]) -> Option<u32>
    ensures { result ≡ size_line_in line.now }
{
    number(behind(line, b"program ")?, MOST_PROGRAM_BYTES)
}

/// How many entries this rank has.
#[tactic(auto, unfolding(crate::specs::inside::LineReading::rank_line_in))]
pub fn rank_line(line: &[u8], rank: u8) -> Option<u32>
    ensures { result ≡ rank_line_in rank line.now }
{
    let (named, count) = split_once(behind(line, b"rank ")?, b' ')?;
    if number(named, 255)? == rank as u32 {
        number(count, MOST_ENTRIES)
    } else {
        None
    }
}

/// An entry before so many others: the end and a halt stand only as the last.
#[tactic(auto, unfolding(crate::specs::inside::LineReading::entry_line_in))]
pub fn entry_line(
    alloc: Global,
    line: &[u8],
    ranks: u8,
    group: &[u8],
    others: u32,
) -> Result<Entry, Unread>
    ensures { GivesPiece result (entry_line_in ranks group.now others line.now) }
{
    let entry = entry(alloc, line, ranks, group)?;
    if is_last(&entry) && others > 0 {
        Err(Unread::NotAllowed)
    } else {
        Ok(entry)
    }
}

/// Whether a rank has no entry after this one.
fn is_last(entry: &Entry) -> bool
    ensures { result ≡ is_last entry.now }
{
    matches!(entry, Entry::Ended | Entry::Stopped(_))
}
