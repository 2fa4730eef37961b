//! The trace events of a run.
ghost use Rattle.std.specs.Prelude.{◌≡◌, ◌+◌, ◌++◌, IfOk, OnOk, flat_map, slice_index};
ghost use Rattle.msg_races.specs.Listing.{lists_below as for_ranks};
ghost use Rattle.run_model.specs.Views.{view_of};
ghost use Rattle.trace_json.specs.JsonTexts.{args_text, flow_by, flow_name, flow_text, flows_text, group_name_text, groups_text, last_group, event_name_text, place_text, rank_name_text, span_by, span_text, trace_json, verb_text};

use mpi_call::call::Call;
use mpi_call::reply::Reply;
use run_drawing::drawing::{Drawing, DrawnMark, DrawnMessage, DrawnReceive, Point};
use run_model::by_rank::ByRank;
use run_model::history::History;
use run_text::call_text::{push_call, push_reply};
use std::alloc::{AllocError, Global};
use wiz_base::{Bytes, push_decimal, push_text};

/// The trace events of a run, one a line: the names of groups and ranks, its calls, its messages.
pub fn trace_json(alloc: Global, history: &History, drawing: &Drawing) -> Result<Bytes, AllocError>
    ensures { IfOk result (λ text. text ≡ trace_json history.now.events drawing.now) }
{
    let mut out = Bytes::new(alloc);
    let by_rank = ByRank::new(alloc, history)?;
    let groups = drawing.groups();
    push_groups(&mut out, groups)?;
    push_ranks(&mut out, groups, drawing.lanes())?;
    push_spans(&mut out, groups, &by_rank, drawing.marks())?;
    push_flows(&mut out, groups, drawing.receives())?;
    push_text(&mut out, b"\n]}\n")?;
    Ok(out)
}

/// The greatest number of a group.
fn last_group(groups: &[u8]) -> u8
    ensures { result ≡ last_group groups.now }
{
    let mut last = 0u8;
    let mut rest = groups;
    while let [group, after @ ..] = rest {
        last = last.max(*group);
        rest = after;
    }
    last
}

/// The names of the groups.
fn push_groups(out: &mut Bytes, groups: &[u8]) -> Result<(), AllocError>
    ensures { OnOk result (out.new ≡ out.old ++ groups_text groups.now) }
{
    push_text(
        out,
        b"{\"traceEvents\":[\n{\"name\":\"process_name\",\"ph\":\"M\",\"pid\":0,\"tid\":0,\"args\":{\"name\":\"group 0\"}}",
    )?;
    push_later_groups(out, last_group(groups))?;
    Ok(())
}

/// The names of the groups after the first, up to a last one.
fn push_later_groups(out: &mut Bytes, last: u8) -> Result<(), AllocError>
    ensures { OnOk result (out.new ≡ out.old ++ for_ranks (λ before. group_name_text (before + 1)) last) }
{
    for before in 0..last {
        push_group(out, before + 1)?;
    }
    Ok(())
}

fn push_group(out: &mut Bytes, group: u8) -> Result<(), AllocError>
    ensures { OnOk result (out.new ≡ out.old ++ group_name_text group) }
{
    push_text(out, b",\n{\"name\":\"process_name\",\"ph\":\"M\",\"pid\":")?;
    push_decimal(out, group as u64)?;
    push_text(out, b",\"tid\":0,\"args\":{\"name\":\"group ")?;
    push_decimal(out, group as u64)?;
    push_text(out, b"\"}}")
}

/// The group of a rank; 0 past the ranks.
fn group_of(groups: &[u8], rank: u8) -> u8
    ensures { result ≡ slice_index groups.now rank }
{
    groups.get(rank as usize).copied().unwrap_or(0)
}

/// The names of the ranks below a number.
fn push_ranks(out: &mut Bytes, groups: &[u8], ranks: u8) -> Result<(), AllocError>
    ensures { OnOk result (out.new ≡ out.old ++ for_ranks (rank_name_text groups.now) ranks) }
{
    for rank in 0..ranks {
        push_rank(out, groups, rank)?;
    }
    Ok(())
}

fn push_rank(out: &mut Bytes, groups: &[u8], rank: u8) -> Result<(), AllocError>
    ensures { OnOk result (out.new ≡ out.old ++ rank_name_text groups.now rank) }
{
    push_text(out, b",\n{\"name\":\"thread_name\",\"ph\":\"M\",\"pid\":")?;
    push_decimal(out, group_of(groups, rank) as u64)?;
    push_text(out, b",\"tid\":")?;
    push_decimal(out, rank as u64)?;
    push_text(out, b",\"args\":{\"name\":\"rank ")?;
    push_decimal(out, rank as u64)?;
    push_text(out, b"\"}}")?;
    Ok(())
}

/// The spans of calls.
fn push_spans(
    out: &mut Bytes,
    groups: &[u8],
    by_rank: &ByRank<'_>,
    marks: &[DrawnMark],
) -> Result<(), AllocError>
    ensures { OnOk result (out.new ≡ out.old ++ flat_map (span_text groups.now (view_of by_rank.now)) marks.now) }
{
    let mut rest = marks;
    while let [mark, after @ ..] = rest {
        push_span(out, groups, by_rank, mark)?;
        rest = after;
    }
    Ok(())
}

fn push_span(
    out: &mut Bytes,
    groups: &[u8],
    by_rank: &ByRank<'_>,
    mark: &DrawnMark,
) -> Result<(), AllocError>
    ensures { OnOk result (out.new ≡ out.old ++ span_text groups.now (view_of by_rank.now) mark.now) }
{
    match by_rank.get(mark.rank).get(mark.number as usize) {
        Some(event) => push_span_of(out, groups, mark, &event.call, &event.reply),
        None => Ok(()),
    }
}

fn push_span_of(
    out: &mut Bytes,
    groups: &[u8],
    mark: &DrawnMark,
    call: &Call,
    reply: &Reply,
) -> Result<(), AllocError>
    ensures { OnOk result (out.new ≡ out.old ++ span_by groups.now mark.now call.now reply.now) }
{
    push_text(out, b",\n{\"name\":\"")?;
    push_name(out, call, reply)?;
    push_text(out, b"\",\"ph\":\"X\",\"dur\":1,")?;
    push_place(out, groups, mark.rank, mark.column)?;
    push_args(out, mark.number, call, reply)?;
    Ok(())
}

/// The line of the trace.
fn push_args(out: &mut Bytes, number: u32, call: &Call, reply: &Reply) -> Result<(), AllocError>
    ensures { OnOk result (out.new ≡ out.old ++ args_text number call.now reply.now) }
{
    push_text(out, b",\"args\":{\"number\":")?;
    push_decimal(out, number as u64)?;
    push_text(out, b",\"call\":\"")?;
    push_call(out, call)?;
    push_text(out, b"\",\"reply\":\"")?;
    push_reply(out, reply)?;
    push_text(out, b"\"}}")?;
    Ok(())
}

fn push_name(out: &mut Bytes, call: &Call, reply: &Reply) -> Result<(), AllocError>
    ensures { OnOk result (out.new ≡ out.old ++ event_name_text call.now reply.now) }
{
    match reply {
        Reply::Stopped(_) => push_text(out, b"stopped"),
        _ => push_verb(out, call),
    }
}

fn push_verb(out: &mut Bytes, call: &Call) -> Result<(), AllocError>
    ensures { OnOk result (out.new ≡ out.old ++ verb_text call.now) }
{
    match call {
        Call::Send { .. } => push_text(out, b"send"),
        Call::Post { .. } => push_text(out, b"post"),
        Call::Enter { .. } => push_text(out, b"enter"),
        Call::Take { .. } => push_text(out, b"take"),
        Call::Peek { .. } => push_text(out, b"peek"),
        Call::Abort { .. } => push_text(out, b"abort"),
        Call::Trap { .. } => push_text(out, b"trap"),
        Call::End => push_text(out, b"end"),
    }
}

/// Where and when an event is.
fn push_place(out: &mut Bytes, groups: &[u8], rank: u8, column: u32) -> Result<(), AllocError>
    ensures { OnOk result (out.new ≡ out.old ++ place_text groups.now rank column) }
{
    push_text(out, b"\"ts\":")?;
    push_decimal(out, column as u64)?;
    push_text(out, b",\"pid\":")?;
    push_decimal(out, group_of(groups, rank) as u64)?;
    push_text(out, b",\"tid\":")?;
    push_decimal(out, rank as u64)
}

/// The flows of messages, numbered by their receives.
fn push_flows(out: &mut Bytes, groups: &[u8], receives: &[DrawnReceive]) -> Result<(), AllocError>
    ensures { OnOk result (out.new ≡ out.old ++ flows_text groups.now 0 receives.now) }
{
    let mut number = 0u64;
    let mut rest = receives;
    while let [receive, after @ ..] = rest {
        push_flow(out, groups, number, receive)?;
        number += 1;
        rest = after;
    }
    Ok(())
}

fn push_flow(
    out: &mut Bytes,
    groups: &[u8],
    number: u64,
    receive: &DrawnReceive,
) -> Result<(), AllocError>
    ensures { OnOk result (out.new ≡ out.old ++ flow_by groups.now number receive.now.rank receive.now.to receive.now.message) }
{
    match &receive.message {
        Some(message) => push_flow_of(out, groups, number, message, receive.rank, receive.to),
        None => Ok(()),
    }
}

fn push_flow_of(
    out: &mut Bytes,
    groups: &[u8],
    number: u64,
    message: &DrawnMessage,
    rank: u8,
    column: u32,
) -> Result<(), AllocError>
    ensures { OnOk result (out.new ≡ out.old ++ flow_text groups.now number message.now rank column) }
{
    push_flow_name(out, message.choices.as_slice())?;
    push_text(out, b"\"ph\":\"s\",\"id\":")?;
    push_decimal(out, number)?;
    push_text(out, b",")?;
    push_place(out, groups, message.sender.rank, message.sender.column)?;
    push_text(out, b"}")?;
    push_flow_name(out, message.choices.as_slice())?;
    push_text(out, b"\"ph\":\"f\",\"bp\":\"e\",\"id\":")?;
    push_decimal(out, number)?;
    push_text(out, b",")?;
    push_place(out, groups, rank, column)?;
    push_text(out, b"}")?;
    Ok(())
}

fn push_flow_name(out: &mut Bytes, choices: &[Point]) -> Result<(), AllocError>
    ensures { OnOk result (out.new ≡ out.old ++ flow_name choices.now) }
{
    match choices {
        [] => push_text(out, b",\n{\"name\":\"message\",\"cat\":\"message\","),
        [_, ..] => push_text(out, b",\n{\"name\":\"raced\",\"cat\":\"message\","),
    }
}
