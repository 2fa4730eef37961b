//! The text of the changes of a variable.
ghost use Rattle.std.specs.Prelude.{◌≡◌, ◌++◌, OnOk, IfOk, flat_map};
ghost use Rattle.wiz_trace.specs.WatchTexts.{changed_values_text, change_text, count_text, values_text, watch_text};

use mpi_call::lists::Ints;
use replay_views::changes::{Change, Changes};
use srr_log::spelled::push_by_commas;
use std::alloc::{AllocError, Global};
use wiz_base::{Bytes, push_decimal, push_text};

/// The watch text: a line for each change of a variable of a rank, by the call before which it is seen, and how many there are.
pub fn watch_text(
    alloc: Global,
    rank: u8,
    name: &[u8],
    changes: &Changes,
) -> Result<Bytes, AllocError>
    ensures { IfOk result (λ text. text ≡ watch_text rank name.now changes.now) }
{
    let mut out = Bytes::new(alloc);
    push_changes(&mut out, rank, name, changes.as_slice())?;
    push_count(&mut out, changes.as_slice().len())?;
    Ok(out)
}

fn push_changes(
    out: &mut Bytes,
    rank: u8,
    name: &[u8],
    changes: &[Change],
) -> Result<(), AllocError>
    ensures { OnOk result (out.new ≡ out.old ++ flat_map (change_text rank name.now) changes.now) }
{
    let mut rest = changes;
    while let [change, after @ ..] = rest {
        push_change(out, rank, name, change)?;
        rest = after;
    }
    Ok(())
}

fn push_change(out: &mut Bytes, rank: u8, name: &[u8], change: &Change) -> Result<(), AllocError>
    ensures { OnOk result (out.new ≡ out.old ++ change_text rank name.now change.now) }
{
    push_decimal(out, rank as u64)?;
    push_text(out, b":")?;
    push_decimal(out, change.number as u64)?;
    push_text(out, b" ")?;
    push_text(out, name)?;
    push_text(out, b" ")?;
    push_between(out, &change.old, &change.new)
}

fn push_between(out: &mut Bytes, old: &Option<Ints>, new: &Option<Ints>) -> Result<(), AllocError>
    ensures { OnOk result (out.new ≡ out.old ++ changed_values_text old.now new.now) }
{
    push_values(out, old)?;
    push_text(out, b" -> ")?;
    push_values(out, new)?;
    push_text(out, b"\n")
}

fn push_values(out: &mut Bytes, values: &Option<Ints>) -> Result<(), AllocError>
    ensures { OnOk result (out.new ≡ out.old ++ values_text values.now) }
{
    match values {
        None => push_text(out, b"-"),
        Some(values) => push_by_commas(out, values.as_slice()),
    }
}

fn push_count(out: &mut Bytes, count: usize) -> Result<(), AllocError>
    ensures { OnOk result (out.new ≡ out.old ++ count_text count) }
{
    push_text(out, b"changes ")?;
    push_decimal(out, count as u64)?;
    push_text(out, b"\n")
}
