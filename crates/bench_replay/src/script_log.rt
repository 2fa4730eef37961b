//! The log of the script.
ghost use Rattle.std.specs.Prelude.{◌≡◌, ◌++◌, ◌∷◌, [], IfOk, replicate};
ghost use Rattle.srr_entry.specs.declared.entry.Entry.TheVariants.{Ended, Sent};
ghost use Rattle.bench_replay.specs.Logs.{log_of, receives, took};

use mpi_call::lists::Ranks;
use srr_entry::entry::{Entry, Mark, Marked, MarkedItems};
use srr_entry::log::{Entries, Lists, Log};
use std::alloc::{AllocError, Global};
use wiz_base::bytes::Bytes;

/// The log of the script's run on two ranks, for the group of both. It names no program's text.
pub fn log_of(alloc: Global, messages: u32) -> Result<Log, AllocError>
    ensures { IfOk result (λ log. log ≡ log_of messages) }
{
    let group = Ranks::from_slice(alloc, &[0, 1])?;
    let mut lists = Lists::new(alloc);
    lists.push(sender(alloc, messages)?)?;
    lists.push(receiver(alloc, messages)?)?;
    Ok(Log {
        ranks: 2,
        group,
        program: Bytes::new(alloc),
        lists,
    })
}

fn sender(alloc: Global, messages: u32) -> Result<Entries, AllocError>
    ensures { IfOk result (λ entries. entries ≡ replicate messages Sent ++ Ended ∷ []) }
{
    let mut entries = Entries::new(alloc);
    for _ in 0..messages {
        entries.push(Entry::Sent)?;
    }
    entries.push(Entry::Ended)?;
    Ok(entries)
}

fn receiver(alloc: Global, messages: u32) -> Result<Entries, AllocError>
    ensures { IfOk result (λ entries. entries ≡ receives messages ++ Ended ∷ []) }
{
    let mut entries = Entries::new(alloc);
    for start in 0..messages {
        entries.push(Entry::Posted)?;
        entries.push(took(alloc, start)?)?;
    }
    entries.push(Entry::Ended)?;
    Ok(entries)
}

/// The entry of the receive of the message with this number.
fn took(alloc: Global, start: u32) -> Result<Entry, AllocError>
    ensures { IfOk result (λ entry. entry ≡ took start) }
{
    let mut items = MarkedItems::new(alloc);
    let marked = Marked {
        index: 0,
        mark: Mark::Inside { source: 0, start },
    };
    items.push(marked)?;
    Ok(Entry::Took(items))
}
