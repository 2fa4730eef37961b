//! The text of where the ranks of a replay stand.
ghost use Rattle.std.specs.Prelude.{◌≡◌, ◌++◌, OnOk, IfOk};
ghost use Rattle.wiz_trace.specs.AtTexts.{ahead_text, snapshots_text, last_text, snapshot_text};

use crate::trace::push_variables;
use mpi_call::reply::Reply;
use replay_views::snapshot::{Ahead, Snapshot, Snapshots};
use run_text::call_text::{push_call, push_reply};
use std::alloc::{AllocError, Global};
use wiz_base::{Bytes, push_decimal, push_text};

/// The at text: of each rank what it is about to do, its last reply, and its variables.
pub fn at_text(alloc: Global, snapshots: &Snapshots) -> Result<Bytes, AllocError>
    ensures { IfOk result (λ text. text ≡ snapshots_text snapshots.now) }
{
    let mut out = Bytes::new(alloc);
    push_snapshots(&mut out, snapshots.as_slice())?;
    Ok(out)
}

fn push_snapshots(out: &mut Bytes, snapshots: &[Snapshot]) -> Result<(), AllocError>
    ensures { OnOk result (out.new ≡ out.old ++ snapshots_text snapshots.now) }
{
    let mut rest = snapshots;
    while let [snapshot, after @ ..] = rest {
        push_snapshot(out, snapshot)?;
        rest = after;
    }
    Ok(())
}

/// The part of one rank.
fn push_snapshot(out: &mut Bytes, snapshot: &Snapshot) -> Result<(), AllocError>
    ensures { OnOk result (out.new ≡ out.old ++ snapshot_text snapshot.now) }
{
    push_text(out, b"rank ")?;
    push_decimal(out, snapshot.rank as u64)?;
    push_ahead(out, snapshot.number, &snapshot.ahead)?;
    push_last(out, &snapshot.last)?;
    push_variables(out, snapshot.variables.as_slice())?;
    Ok(())
}

fn push_ahead(out: &mut Bytes, number: usize, ahead: &Ahead) -> Result<(), AllocError>
    ensures { OnOk result (out.new ≡ out.old ++ ahead_text number ahead.now) }
{
    match ahead {
        Ahead::Calls(call) => {
            push_text(out, b" call ")?;
            push_decimal(out, number as u64)?;
            push_text(out, b" ")?;
            push_call(out, call)?;
            push_text(out, b"\n")
        }
        Ahead::Ended => push_text(out, b" ended\n"),
        Ahead::LogEnded => push_text(out, b" log ended\n"),
    }
}

fn push_last(out: &mut Bytes, last: &Option<Reply>) -> Result<(), AllocError>
    ensures { OnOk result (out.new ≡ out.old ++ last_text last.now) }
{
    match last {
        None => Ok(()),
        Some(reply) => {
            push_text(out, b"last ")?;
            push_reply(out, reply)?;
            push_text(out, b"\n")
        }
    }
}
