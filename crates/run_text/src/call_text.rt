//! The texts of calls and replies. After a refusal the bytes hold a part of the text.
ghost use Rattle.std.specs.Prelude.{◌≡◌, ◌++◌, OnOk, codes, true};
ghost use Rattle.mpi_call.specs.Calls.{is_enter};
ghost use Rattle.mpi_call.specs.declared.call.Call.TheVariants.{Peek, Post, Send, Take};
ghost use Rattle.wiz_base.specs.Decimals.{number_text};
ghost use Rattle.run_text.specs.CallTexts.{aborter_text, at_start_text, call_text, envelope_text, fault_text, got_text, halt_text, taken_item_text, joined, kind_text, mode_text, op_text, probe_text, reply_text, root_text, send_text, source_text, tag_text};

use mpi_call::call::{Call, Fault, Halt, Kind, Op, Source, Tag, TakeMode};
use mpi_call::reply::{Got, Item, Reply};
use srr_log::entry_text::push_name;
use srr_log::spelled::push_by_commas;
use std::alloc::AllocError;
use wiz_base::{Bytes, push_decimal, push_number, push_text};

fn push_int(out: &mut Bytes, int: i32) -> Result<(), AllocError>
    ensures { OnOk result (out.new ≡ out.old ++ number_text int) }
{
    push_number(out, int as i64)
}

fn push_source(out: &mut Bytes, source: &Source) -> Result<(), AllocError>
    ensures { OnOk result (out.new ≡ out.old ++ source_text source.now) }
{
    match source {
        Source::Any => push_text(out, b"any"),
        Source::From(rank) => push_decimal(out, *rank as u64),
        Source::Null => push_text(out, b"null"),
    }
}

fn push_tag(out: &mut Bytes, tag: &Tag) -> Result<(), AllocError>
    ensures { OnOk result (out.new ≡ out.old ++ tag_text tag.now) }
{
    match tag {
        Tag::Any => push_text(out, b"any"),
        Tag::Is(wanted) => push_decimal(out, *wanted as u64),
    }
}

/// The name of a collective operation.
pub fn push_kind(out: &mut Bytes, kind: Kind) -> Result<(), AllocError>
    ensures { OnOk result (out.new ≡ out.old ++ kind_text kind) }
{
    match kind {
        Kind::Barrier => push_text(out, b"barrier"),
        Kind::Bcast => push_text(out, b"bcast"),
        Kind::Reduce => push_text(out, b"reduce"),
        Kind::Allreduce => push_text(out, b"allreduce"),
        Kind::Gather => push_text(out, b"gather"),
        Kind::Allgather => push_text(out, b"allgather"),
        Kind::Scatter => push_text(out, b"scatter"),
        Kind::Alltoall => push_text(out, b"alltoall"),
        Kind::Scan => push_text(out, b"scan"),
        Kind::Split => push_text(out, b"split"),
        Kind::Dup => push_text(out, b"dup"),
    }
}

fn push_op(out: &mut Bytes, op: Option<Op>) -> Result<(), AllocError>
    ensures { OnOk result (out.new ≡ out.old ++ op_text op) }
{
    match op {
        None => push_text(out, b"-"),
        Some(Op::Max) => push_text(out, b"max"),
        Some(Op::Min) => push_text(out, b"min"),
        Some(Op::Sum) => push_text(out, b"sum"),
        Some(Op::Prod) => push_text(out, b"prod"),
        Some(Op::Land) => push_text(out, b"land"),
        Some(Op::Band) => push_text(out, b"band"),
        Some(Op::Lor) => push_text(out, b"lor"),
        Some(Op::Bor) => push_text(out, b"bor"),
        Some(Op::Lxor) => push_text(out, b"lxor"),
        Some(Op::Bxor) => push_text(out, b"bxor"),
    }
}

fn push_root(out: &mut Bytes, root: Option<u8>) -> Result<(), AllocError>
    ensures { OnOk result (out.new ≡ out.old ++ root_text root) }
{
    match root {
        None => push_text(out, b"-"),
        Some(rank) => push_decimal(out, rank as u64),
    }
}

fn push_mode(out: &mut Bytes, mode: TakeMode) -> Result<(), AllocError>
    ensures { OnOk result (out.new ≡ out.old ++ mode_text mode) }
{
    match mode {
        TakeMode::All => push_text(out, b"all"),
        TakeMode::Any => push_text(out, b"any"),
        TakeMode::Several => push_text(out, b"some"),
        TakeMode::TestAll => push_text(out, b"testall"),
        TakeMode::TestAny => push_text(out, b"testany"),
        TakeMode::TestSeveral => push_text(out, b"testsome"),
    }
}

fn push_fault(out: &mut Bytes, fault: Fault) -> Result<(), AllocError>
    ensures { OnOk result (out.new ≡ out.old ++ fault_text fault) }
{
    match fault {
        Fault::DivideByZero => push_text(out, b"divide by zero"),
        Fault::OutOfBounds => push_text(out, b"out of bounds"),
        Fault::BadRank => push_text(out, b"bad rank"),
        Fault::BadTag => push_text(out, b"bad tag"),
        Fault::BadCount => push_text(out, b"bad count"),
        Fault::BadComm => push_text(out, b"bad communicator"),
        Fault::Budget => push_text(out, b"budget"),
        Fault::OutputFull => push_text(out, b"output full"),
        Fault::Depth => push_text(out, b"depth"),
        Fault::Cells => push_text(out, b"cells"),
    }
}

/// The text of a call.
pub fn push_call(out: &mut Bytes, call: &Call) -> Result<(), AllocError>
    ensures { OnOk result (out.new ≡ out.old ++ call_text call.now) }
{
    match call {
        Call::Send {
            comm,
            dest,
            tag,
            ints,
            sync,
        } => push_send(out, *comm, *dest, *tag, ints.as_slice(), *sync),
        Call::Post {
            comm,
            source,
            tag,
            room,
        } => push_post(out, *comm, source, tag, *room),
        Call::Enter { .. } => push_enter(out, call),
        Call::Take { starts, mode } => push_take(out, starts.as_slice(), *mode),
        Call::Peek {
            comm,
            source,
            tag,
            wait,
        } => push_peek(out, *comm, source, tag, *wait),
        Call::Abort { code } => {
            push_text(out, b"abort ")?;
            push_int(out, *code)
        }
        Call::Trap { fault } => {
            push_text(out, b"trap ")?;
            push_fault(out, *fault)
        }
        Call::End => push_text(out, b"end"),
    }
}

fn push_send(
    out: &mut Bytes,
    comm: u32,
    dest: u8,
    tag: u32,
    ints: &[i32],
    sync: bool,
) -> Result<(), AllocError>
    ensures { OnOk result (out.new ≡ out.old ++ call_text (Send comm dest tag ints.now sync)) }
{
    push_send_verb(out, sync)?;
    push_text(out, b" comm=")?;
    push_decimal(out, comm as u64)?;
    push_text(out, b" to=")?;
    push_decimal(out, dest as u64)?;
    push_text(out, b" tag=")?;
    push_decimal(out, tag as u64)?;
    push_text(out, b" data=")?;
    push_by_commas(out, ints)
}

fn push_send_verb(out: &mut Bytes, sync: bool) -> Result<(), AllocError>
    ensures { OnOk result (out.new ≡ out.old ++ send_text sync) }
{
    if sync {
        push_text(out, b"ssend")
    } else {
        push_text(out, b"send")
    }
}

fn push_post(
    out: &mut Bytes,
    comm: u32,
    source: &Source,
    tag: &Tag,
    room: u32,
) -> Result<(), AllocError>
    ensures { OnOk result (out.new ≡ out.old ++ call_text (Post comm source.now tag.now room)) }
{
    push_text(out, b"post comm=")?;
    push_envelope(out, comm, source, tag)?;
    push_text(out, b" room=")?;
    push_decimal(out, room as u64)
}

fn push_take(out: &mut Bytes, starts: &[u32], mode: TakeMode) -> Result<(), AllocError>
    ensures { OnOk result (out.new ≡ out.old ++ call_text (Take starts.now mode)) }
{
    push_text(out, b"take ")?;
    push_mode(out, mode)?;
    push_text(out, b" ")?;
    push_by_commas(out, starts)
}

fn push_peek(
    out: &mut Bytes,
    comm: u32,
    source: &Source,
    tag: &Tag,
    wait: bool,
) -> Result<(), AllocError>
    ensures { OnOk result (out.new ≡ out.old ++ call_text (Peek comm source.now tag.now wait)) }
{
    push_probe(out, wait)?;
    push_text(out, b" comm=")?;
    push_envelope(out, comm, source, tag)
}

fn push_probe(out: &mut Bytes, wait: bool) -> Result<(), AllocError>
    ensures { OnOk result (out.new ≡ out.old ++ probe_text wait) }
{
    if wait {
        push_text(out, b"probe")
    } else {
        push_text(out, b"iprobe")
    }
}

/// A communicator, a source and a tag.
fn push_envelope(out: &mut Bytes, comm: u32, source: &Source, tag: &Tag) -> Result<(), AllocError>
    ensures { OnOk result (out.new ≡ out.old ++ envelope_text comm source.now tag.now) }
{
    push_decimal(out, comm as u64)?;
    push_text(out, b" from=")?;
    push_source(out, source)?;
    push_text(out, b" tag=")?;
    push_tag(out, tag)
}

/// The text of an Enter; that of another call is written by `push_call`.
fn push_enter(out: &mut Bytes, call: &Call) -> Result<(), AllocError>
    requires { is_enter call.now ≡ true }
    ensures { OnOk result (out.new ≡ out.old ++ call_text call.now) }
{
    let Call::Enter {
        comm,
        kind,
        root,
        op,
        count,
        ints,
    } = call
    else {
        unreachable!();
    };
    push_text(out, b"enter comm=")?;
    push_decimal(out, *comm as u64)?;
    push_text(out, b" ")?;
    push_kind(out, *kind)?;
    push_text(out, b" root=")?;
    push_root(out, *root)?;
    push_text(out, b" op=")?;
    push_op(out, *op)?;
    push_text(out, b" count=")?;
    push_decimal(out, *count as u64)?;
    push_text(out, b" data=")?;
    push_by_commas(out, ints.as_slice())?;
    Ok(())
}

/// The text of a halt.
pub fn push_halt(out: &mut Bytes, halt: &Halt) -> Result<(), AllocError>
    ensures { OnOk result (out.new ≡ out.old ++ halt_text halt.now) }
{
    match halt {
        Halt::Aborted { rank, code } => push_aborted(out, *rank, *code),
        Halt::Trapped { rank, fault } => {
            push_text(out, b"trapped rank ")?;
            push_decimal(out, *rank as u64)?;
            push_text(out, b" ")?;
            push_fault(out, *fault)?;
            Ok(())
        }
        Halt::Truncated { rank, start } => {
            push_text(out, b"truncated rank ")?;
            push_at_start(out, *rank, *start)
        }
        Halt::Mismatched { rank } => {
            push_text(out, b"mismatched rank ")?;
            push_decimal(out, *rank as u64)?;
            Ok(())
        }
        Halt::BadRequest { rank, start } => {
            push_text(out, b"bad request rank ")?;
            push_at_start(out, *rank, *start)
        }
        Halt::Limit => push_text(out, b"limit"),
        Halt::Stuck => push_text(out, b"stuck"),
    }
}

fn push_aborted(out: &mut Bytes, rank: u8, code: i32) -> Result<(), AllocError>
    ensures { OnOk result (out.new ≡ out.old ++ (aborter_text rank ++ number_text code)) }
{
    push_aborter(out, rank)?;
    push_int(out, code)
}

fn push_aborter(out: &mut Bytes, rank: u8) -> Result<(), AllocError>
    ensures { OnOk result (out.new ≡ out.old ++ aborter_text rank) }
{
    push_text(out, b"aborted rank ")?;
    push_decimal(out, rank as u64)?;
    push_text(out, b" code ")?;
    Ok(())
}

/// A rank and one of its starts.
fn push_at_start(out: &mut Bytes, rank: u8, start: u32) -> Result<(), AllocError>
    ensures { OnOk result (out.new ≡ out.old ++ at_start_text rank start) }
{
    push_decimal(out, rank as u64)?;
    push_text(out, b" start ")?;
    push_decimal(out, start as u64)
}

fn push_got(out: &mut Bytes, got: &Got) -> Result<(), AllocError>
    ensures { OnOk result (out.new ≡ out.old ++ got_text got.now) }
{
    match got {
        Got::Sent => push_text(out, b"sent"),
        Got::Nothing => push_text(out, b"nothing"),
        Got::Message {
            source,
            start,
            tag,
            ints,
        } => {
            push_name(out, *source, *start)?;
            push_text(out, b" tag=")?;
            push_decimal(out, *tag as u64)?;
            push_text(out, b" data=")?;
            push_by_commas(out, ints.as_slice())
        }
        Got::Joined { ints } => {
            push_text(out, b"result data=")?;
            push_by_commas(out, ints.as_slice())?;
            Ok(())
        }
        Got::Made { comm, members } => {
            push_text(out, b"made comm=")?;
            push_decimal(out, *comm as u64)?;
            push_text(out, b" members=")?;
            push_by_commas(out, members.as_slice())
        }
    }
}

fn push_item(out: &mut Bytes, item: &Item) -> Result<(), AllocError>
    ensures { OnOk result (out.new ≡ out.old ++ taken_item_text item.now) }
{
    push_decimal(out, item.index as u64)?;
    push_text(out, b"=")?;
    push_got(out, &item.got)
}

/// Completed starts with semicolons between them.
fn push_items(out: &mut Bytes, items: &[Item]) -> Result<(), AllocError>
    ensures { OnOk result (out.new ≡ out.old ++ joined (codes "; ") taken_item_text items.now) }
{
    let [first, others @ ..] = items else {
        return Ok(());
    };
    push_item(out, first)?;
    let mut rest = others;
    while let [item, after @ ..] = rest {
        push_text(out, b"; ")?;
        push_item(out, item)?;
        rest = after;
    }
    Ok(())
}

/// The text of a reply.
pub fn push_reply(out: &mut Bytes, reply: &Reply) -> Result<(), AllocError>
    ensures { OnOk result (out.new ≡ out.old ++ reply_text reply.now) }
{
    match reply {
        Reply::Done => push_text(out, b"done"),
        Reply::Took(items) => {
            push_text(out, b"took ")?;
            push_items(out, items.as_slice())
        }
        Reply::NotYet => push_text(out, b"notyet"),
        Reply::Peeked {
            source,
            start,
            tag,
            count,
        } => {
            push_text(out, b"found ")?;
            push_name(out, *source, *start)?;
            push_text(out, b" tag=")?;
            push_decimal(out, *tag as u64)?;
            push_text(out, b" count=")?;
            push_decimal(out, *count as u64)
        }
        Reply::Stopped(halt) => {
            push_text(out, b"stopped ")?;
            push_halt(out, halt)
        }
    }
}
