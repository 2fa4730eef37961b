//! Writing a log.
ghost use Rattle.std.specs.Prelude.{◌≡◌, ◌<◌, ◌≤◌, ◌+◌, ◌^◌, ◌++◌, OnOk, IfOk, length};
ghost use Rattle.srr_log.specs.Bounds.{IsInBounds};
ghost use Rattle.srr_log2.specs.inside.Lengths.{AreShortLists};
ghost use Rattle.srr_log2.specs.LogBytes.{bits_from, body_bytes, group_bytes, head_bytes, lists_bytes, log_bytes, program_bytes};

use crate::entry_bytes::{push_byte, push_list, push_word};
use byteorder::{BigEndian, ByteOrder};
use mpi_call::limits::MOST_RANKS;
use sha2::{Digest, Sha256};
use srr_entry::log::{Entries, Log};
use std::alloc::{AllocError, Global};
use wiz_base::{Bytes, push_text};

/// The list of each rank of the group.
fn push_lists(out: &mut Bytes, lists: &[Entries]) -> Result<(), AllocError>
    requires { AreShortLists lists.now }
    ensures { OnOk result (out.new ≡ out.old ++ lists_bytes lists.now) }
{
    let mut rest = lists;
    while let [entries, after @ ..] = rest {
        push_list(out, entries.as_slice())?;
        rest = after;
    }
    Ok(())
}

/// A number with a bit for each of `count` ranks from the `first` on, set where the rank is in the group.
fn bits_from(group: &[u8], first: u8, count: u8) -> u64
    requires { (count ≤ MOST_RANKS) × (first + count < 2 ^ 8) }
    ensures number { result ≡ bits_from count first group.now }
    ensures fits { result < 2 ^ count }
{
    if count == 0 {
        return 0;
    }
    let higher = bits_from(group, first + 1, count - 1);
    let lowest = if group.contains(&first) { 1 } else { 0 };
    lowest + 2 * higher
}

/// The ranks of the group, as the bits of eight bytes.
#[tactic(auto, unfolding(crate::specs::LogBytes::group_bytes))]
fn push_group(out: &mut Bytes, group: &[u8]) -> Result<(), AllocError>
    ensures { OnOk result (out.new ≡ out.old ++ group_bytes group.now) }
{
    let mut bytes = [0u8; 8];
    BigEndian::write_u64(&mut bytes, bits_from(group, 0, MOST_RANKS));
    push_text(out, &bytes)
}

/// The format's name, the number of ranks and the group.
fn push_head(out: &mut Bytes, ranks: u8, group: &[u8]) -> Result<(), AllocError>
    ensures { OnOk result (out.new ≡ out.old ++ head_bytes ranks group.now) }
{
    push_text(out, b"srr 2\n")?;
    push_byte(out, ranks)?;
    push_group(out, group)
}

/// How many bytes the program has, and then these.
fn push_program(out: &mut Bytes, program: &[u8]) -> Result<(), AllocError>
    requires { length program.now < 2 ^ 32 }
    ensures { OnOk result (out.new ≡ out.old ++ program_bytes program.now) }
{
    push_word(out, program.len() as u32)?;
    push_text(out, program)
}

/// All that stands before the lists.
fn push_front(out: &mut Bytes, ranks: u8, group: &[u8], program: &[u8]) -> Result<(), AllocError>
    requires { length program.now < 2 ^ 32 }
    ensures { OnOk result (out.new ≡ out.old ++ (head_bytes ranks group.now ++ program_bytes program.now)) }
{
    push_head(out, ranks, group)?;
    push_program(out, program)
}

/// All but the digest.
#[tactic(auto, unfolding(crate::specs::LogBytes::body_bytes))]
fn push_body(out: &mut Bytes, log: &Log) -> Result<(), AllocError>
    requires { (length log.now.program < 2 ^ 32) × AreShortLists log.now.lists }
    ensures { OnOk result (out.new ≡ out.old ++ body_bytes log.now) }
{
    push_front(out, log.ranks, log.group.as_slice(), log.program.as_slice())?;
    push_lists(out, log.lists.as_slice())
}

/// The bytes of a log, the digest of all others last. Takes time linear in the log and memory linear in the bytes.
pub fn write_log2(alloc: Global, log: &Log) -> Result<Bytes, AllocError>
    requires { IsInBounds log.now }
    ensures { IfOk result (λ text. text ≡ log_bytes log.now) }
{
    let mut out = Bytes::new(alloc);
    push_body(&mut out, log)?;
    let digest = Sha256::digest(out.as_slice());
    push_text(&mut out, digest.as_slice())?;
    Ok(out)
}
