//! The diff text of two histories of one program.
ghost use Rattle.std.specs.Prelude.{◌≡◌, ◌++◌, OnOk, IfOk, flat_map, map, slice_get};
ghost use Rattle.view_diff.specs.Opens.{got_from, open_receives_before};
ghost use Rattle.explanation_text.specs.DiffTexts.{answer_text, answers_text, any_source_text, call_at_text, diff_text, first_text, given_text, gots_text, made_text, named_text, open_text, parting_text, partings_text, compared_rank_text, way_text};

use crate::races::push_names;
use mpi_call::call::Call;
use mpi_call::reply::Reply;
use msg_races::names::Name;
use run_model::by_rank::ByRank;
use run_model::event::Event;
use run_model::history::History;
use run_text::call_text::{push_call, push_reply};
use std::alloc::{AllocError, Global};
use view_diff::compared::{Compared, Comparison, ViewRelation, parts};
use view_diff::opens::{OpenStart, got_from, open_at};
use wiz_base::{Bytes, push_decimal, push_text};

/// The most messages that are named after `any`.
const MOST_NAMED: usize = 8;

/// The diff text: for each rank how many calls are alike, and what is around the call at which its views part; then the calls
/// at which the histories part first.
pub fn diff_text(
    alloc: Global,
    one: &History,
    other: &History,
    ranks: &Comparison,
) -> Result<Bytes, AllocError>
    ensures { IfOk result (λ text. text ≡ diff_text one.now.events other.now.events ranks.now) }
{
    let first = ByRank::new(alloc, one)?;
    let second = ByRank::new(alloc, other)?;
    let mut out = Bytes::new(alloc);
    push_ranks(alloc, &mut out, &first, &second, ranks.as_slice())?;
    push_parts(&mut out, ranks)?;
    Ok(out)
}

fn push_ranks(
    alloc: Global,
    out: &mut Bytes,
    one: &ByRank<'_>,
    other: &ByRank<'_>,
    ranks: &[Compared],
) -> Result<(), AllocError>
    ensures { OnOk result (out.new ≡ out.old ++ flat_map (compared_rank_text one.now other.now) ranks.now) }
{
    let mut rest = ranks;
    while let [rank, after @ ..] = rest {
        push_rank(alloc, out, one, other, rank)?;
        rest = after;
    }
    Ok(())
}

/// The part of one rank.
fn push_rank(
    alloc: Global,
    out: &mut Bytes,
    one: &ByRank<'_>,
    other: &ByRank<'_>,
    rank: &Compared,
) -> Result<(), AllocError>
    ensures { OnOk result (out.new ≡ out.old ++ compared_rank_text one.now other.now rank.now) }
{
    push_text(out, b"rank ")?;
    push_decimal(out, rank.rank as u64)?;
    push_text(out, b" same ")?;
    push_decimal(out, rank.same as u64)?;
    push_way(
        alloc,
        out,
        one.get(rank.rank),
        other.get(rank.rank),
        rank.same,
        rank.way,
    )?;
    Ok(())
}

/// The end of a rank's line, and what follows it.
fn push_way(
    alloc: Global,
    out: &mut Bytes,
    own: &[&Event],
    other: &[&Event],
    number: u32,
    way: ViewRelation,
) -> Result<(), AllocError>
    ensures { let mine = map (λ event. (event.now.call, event.now.reply)) own.now in
        let others = map (λ event. (event.now.call, event.now.reply)) other.now in
        OnOk result (out.new ≡ out.old ++ way_text mine others number way) }
{
    match way {
        ViewRelation::Alike => push_text(out, b"\n"),
        ViewRelation::First => {
            push_text(out, b" first\n")?;
            push_parting(alloc, out, own, other, number)?;
            Ok(())
        }
        ViewRelation::Follows => {
            push_text(out, b" follows\n")?;
            push_parting(alloc, out, own, other, number)?;
            Ok(())
        }
    }
}

/// What two views have around the call at which they part.
fn push_parting(
    alloc: Global,
    out: &mut Bytes,
    own: &[&Event],
    other: &[&Event],
    number: u32,
) -> Result<(), AllocError>
    ensures { let mine = map (λ event. (event.now.call, event.now.reply)) own.now in
        let others = map (λ event. (event.now.call, event.now.reply)) other.now in
        OnOk result (out.new ≡ out.old ++ parting_text mine others number) }
{
    let place = number as usize;
    push_at(out, own, other, number)?;
    push_opens(alloc, out, own, place)?;
    push_answers(out, own, other, place)?;
    push_gots(alloc, out, own, other, place)?;
    Ok(())
}

/// The replies to a call in both views.
fn push_answers(
    out: &mut Bytes,
    own: &[&Event],
    other: &[&Event],
    number: usize,
) -> Result<(), AllocError>
    ensures { let mine = map (λ event. (event.now.call, event.now.reply)) own.now in
        let others = map (λ event. (event.now.call, event.now.reply)) other.now in
        OnOk result (out.new ≡ out.old ++ answers_text mine others number) }
{
    push_text(out, b"<")?;
    push_answer(out, own, number)?;
    push_text(out, b">")?;
    push_answer(out, other, number)?;
    Ok(())
}

/// The messages that receives from any source got from a call on, in both views.
fn push_gots(
    alloc: Global,
    out: &mut Bytes,
    own: &[&Event],
    other: &[&Event],
    number: usize,
) -> Result<(), AllocError>
    ensures { let mine = map (λ event. (event.now.call, event.now.reply)) own.now in
        let others = map (λ event. (event.now.call, event.now.reply)) other.now in
        OnOk result (out.new ≡ out.old ++ gots_text mine others number) }
{
    push_got(alloc, out, b"<", own, number)?;
    push_got(alloc, out, b">", other, number)?;
    Ok(())
}

/// The call, of the first view that has it.
fn push_at(out: &mut Bytes, own: &[&Event], other: &[&Event], number: u32) -> Result<(), AllocError>
    ensures { let mine = map (λ event. (event.now.call, event.now.reply)) own.now in
        let others = map (λ event. (event.now.call, event.now.reply)) other.now in
        OnOk result (out.new ≡ out.old ++ call_at_text number (slice_get mine number) (slice_get others number)) }
{
    match own.get(number as usize) {
        Some(event) => push_made(out, number as u64, &event.call),
        None => match other.get(number as usize) {
            Some(event) => push_made(out, number as u64, &event.call),
            None => Ok(()),
        },
    }
}

/// A call with its number.
fn push_made(out: &mut Bytes, number: u64, call: &Call) -> Result<(), AllocError>
    ensures { OnOk result (out.new ≡ out.old ++ made_text number call.now) }
{
    push_decimal(out, number)?;
    push_text(out, b" ")?;
    push_call(out, call)?;
    push_text(out, b"\n")
}

/// The receives from any source that are open at a call.
fn push_opens(
    alloc: Global,
    out: &mut Bytes,
    own: &[&Event],
    number: usize,
) -> Result<(), AllocError>
    ensures { OnOk result (out.new ≡ out.old ++ flat_map open_text (open_receives_before (map (λ event. (event.now.call, event.now.reply)) own.now) number)) }
{
    let starts = open_at(alloc, own, number)?;
    push_starts(out, &starts)
}

fn push_starts(out: &mut Bytes, starts: &[OpenStart]) -> Result<(), AllocError>
    ensures { OnOk result (out.new ≡ out.old ++ flat_map open_text (map (λ start. (start.number, start.call.now)) starts.now)) }
{
    let mut rest = starts;
    while let [start, after @ ..] = rest {
        push_start(out, start.number, start.call)?;
        rest = after;
    }
    Ok(())
}

fn push_start(out: &mut Bytes, number: usize, call: &Call) -> Result<(), AllocError>
    ensures { OnOk result (out.new ≡ out.old ++ open_text (number, call.now)) }
{
    push_text(out, b"start ")?;
    push_made(out, number as u64, call)
}

/// The reply to a call, if there is one.
fn push_answer(out: &mut Bytes, seen: &[&Event], number: usize) -> Result<(), AllocError>
    ensures { OnOk result (out.new ≡ out.old ++ answer_text (slice_get (map (λ event. (event.now.call, event.now.reply)) seen.now) number)) }
{
    match seen.get(number) {
        Some(event) => push_given(out, &event.reply),
        None => push_text(out, b" no call\n"),
    }
}

fn push_given(out: &mut Bytes, reply: &Reply) -> Result<(), AllocError>
    ensures { OnOk result (out.new ≡ out.old ++ given_text reply.now) }
{
    push_text(out, b" ")?;
    push_reply(out, reply)?;
    push_text(out, b"\n")
}

/// The messages that receives from any source got from a call on.
fn push_got(
    alloc: Global,
    out: &mut Bytes,
    sign: &[u8],
    seen: &[&Event],
    number: usize,
) -> Result<(), AllocError>
    ensures { OnOk result (out.new ≡ out.old ++ any_source_text sign.now (got_from (map (λ event. (event.now.call, event.now.reply)) seen.now) number)) }
{
    let names = got_from(alloc, seen, number)?;
    push_any(out, sign, names.as_slice())
}

/// A line of messages, if there are any.
fn push_any(out: &mut Bytes, sign: &[u8], names: &[Name]) -> Result<(), AllocError>
    ensures { OnOk result (out.new ≡ out.old ++ any_source_text sign.now names.now) }
{
    match names {
        [] => Ok(()),
        _ => {
            push_text(out, sign)?;
            push_text(out, b" any")?;
            push_named(out, names)?;
            push_text(out, b"\n")
        }
    }
}

/// The first names, and whether there are more.
fn push_named(out: &mut Bytes, names: &[Name]) -> Result<(), AllocError>
    ensures { OnOk result (out.new ≡ out.old ++ named_text names.now) }
{
    if names.len() <= MOST_NAMED {
        return push_names(out, names);
    }
    push_names(out, &names[..MOST_NAMED])?;
    push_text(out, b" ..")
}

/// Where the histories part first, if they do.
fn push_parts(out: &mut Bytes, ranks: &Comparison) -> Result<(), AllocError>
    ensures { OnOk result (out.new ≡ out.old ++ partings_text ranks.now) }
{
    if !parts(ranks) {
        return push_text(out, b"same\n");
    }
    push_text(out, b"parts")?;
    push_firsts(out, ranks.as_slice())?;
    push_text(out, b"\n")
}

fn push_firsts(out: &mut Bytes, ranks: &[Compared]) -> Result<(), AllocError>
    ensures { OnOk result (out.new ≡ out.old ++ flat_map first_text ranks.now) }
{
    let mut rest = ranks;
    while let [rank, after @ ..] = rest {
        push_first(out, rank)?;
        rest = after;
    }
    Ok(())
}

/// A rank and the number of its call, if it parts first.
fn push_first(out: &mut Bytes, rank: &Compared) -> Result<(), AllocError>
    ensures { OnOk result (out.new ≡ out.old ++ first_text rank.now) }
{
    if !rank.comes_first() {
        return Ok(());
    }
    push_text(out, b" ")?;
    push_decimal(out, rank.rank as u64)?;
    push_text(out, b":")?;
    push_decimal(out, rank.same as u64)
}
