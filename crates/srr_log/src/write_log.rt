//! Writing a log.
ghost use Rattle.std.specs.Prelude.{◌≡◌, ◌++◌, [], OnOk, IfOk, length};
ghost use Rattle.srr_log.specs.inside.Written.{entries_text, group_text, head_text, list_text, lists_text, program_text};
ghost use Rattle.srr_log.specs.LogText.{log_text};
ghost use Rattle.srr_log.specs.Parts.{line};
ghost use Rattle.wiz_base.specs.Decimals.{decimal_text};

use crate::entry_text::{push_after, push_entry};
use crate::spelled::push_each_after;
use srr_entry::entry::Entry;
use srr_entry::log::{Entries, Log};
use std::alloc::{AllocError, Global};
use wiz_base::{Bytes, push_text};

/// The text of a log, which can be read where the log is within its bounds. Takes time linear in it.
pub fn write_log(alloc: Global, log: &Log) -> Result<Bytes, AllocError>
    requires { length log.now.lists ≡ length log.now.group }
    ensures { IfOk result (λ text. text ≡ log_text log.now) }
{
    let mut out = Bytes::new(alloc);
    push_log(&mut out, log)?;
    Ok(out)
}

fn push_log(out: &mut Bytes, log: &Log) -> Result<(), AllocError>
    requires { length log.now.lists ≡ length log.now.group }
    ensures { OnOk result (out.new ≡ out.old ++ log_text log.now) }
{
    push_head(out, log.ranks)?;
    push_group(out, log.group.as_slice())?;
    push_program(out, log.program.as_slice())?;
    push_lists(out, log.group.as_slice(), log.lists.as_slice())?;
    push_text(out, b"end\n")
}

/// A line that ends with a number.
fn push_number_line(out: &mut Bytes, word: &[u8], number: u64) -> Result<(), AllocError>
    ensures { OnOk result (out.new ≡ out.old ++ line (word.now ++ decimal_text number) []) }
{
    push_after(out, word, number)?;
    push_text(out, b"\n")
}

fn push_head(out: &mut Bytes, ranks: u8) -> Result<(), AllocError>
    ensures { OnOk result (out.new ≡ out.old ++ head_text ranks []) }
{
    push_number_line(out, b"srr 1\nranks ", ranks as u64)
}

fn push_group(out: &mut Bytes, group: &[u8]) -> Result<(), AllocError>
    ensures { OnOk result (out.new ≡ out.old ++ group_text group.now []) }
{
    push_text(out, b"group")?;
    push_each_after(out, b' ', group)?;
    push_text(out, b"\n")
}

fn push_program(out: &mut Bytes, program: &[u8]) -> Result<(), AllocError>
    ensures { OnOk result (out.new ≡ out.old ++ program_text program.now []) }
{
    push_number_line(out, b"program ", program.len() as u64)?;
    push_text(out, program)?;
    push_text(out, b"\n")
}

/// The list of each rank.
fn push_lists(out: &mut Bytes, group: &[u8], lists: &[Entries]) -> Result<(), AllocError>
    requires { length lists.now ≡ length group.now }
    ensures { OnOk result (out.new ≡ out.old ++ lists_text group.now lists.now []) }
{
    for (place, rank) in group.iter().enumerate() {
        push_list(out, *rank, lists[place].as_slice())?;
    }
    Ok(())
}

fn push_list(out: &mut Bytes, rank: u8, entries: &[Entry]) -> Result<(), AllocError>
    ensures { OnOk result (out.new ≡ out.old ++ list_text rank entries.now []) }
{
    push_after(out, b"rank ", rank as u64)?;
    push_number_line(out, b" ", entries.len() as u64)?;
    push_entries(out, entries)
}

/// A line each.
fn push_entries(out: &mut Bytes, entries: &[Entry]) -> Result<(), AllocError>
    ensures { OnOk result (out.new ≡ out.old ++ entries_text entries.now []) }
{
    let mut rest = entries;
    while let [entry, after @ ..] = rest {
        push_entry(out, entry)?;
        push_text(out, b"\n")?;
        rest = after;
    }
    Ok(())
}
