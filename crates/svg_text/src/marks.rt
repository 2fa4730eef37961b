//! The marks of calls.
ghost use Rattle.std.specs.Prelude.{◌≡◌, ◌≤◌, ◌<◌, ◌^◌, ◌++◌, IfOk, OnOk, Some, codes};
ghost use Rattle.run_model.specs.Views.{view_of};
ghost use Rattle.run_text.specs.CallTexts.{kind_text};
ghost use Rattle.wiz_base.specs.Decimals.{decimal_text};
ghost use Rattle.svg_text.specs.Marks.{any_label_text, below_text, call_shape, cross_text, diamond_text, done_text, end_text, enter_text, sources_label_text, label_begin, label_text, titled_mark_text, drawn_mark_text, post_by, post_text, drawn_send_text, shape_text, message_sources, sources_in, sources_of, spot_of, take_text, title_text};

use crate::filling::{Filler, push_filled};
use crate::grid::Grid;
use crate::shapes::group_of;
use mpi_call::call::{Call, Kind, Source};
use mpi_call::lists::Ranks;
use mpi_call::reply::{Got, Item, Reply};
use run_drawing::drawing::DrawnMark;
use run_model::by_rank::ByRank;
use run_text::call_text::{push_call, push_kind, push_reply};
use srr_log::spelled::push_by_commas;
use std::alloc::{AllocError, Global};
use wiz_base::{Bytes, push_decimal, push_text};

/// A mark with its title.
pub fn push_mark(
    alloc: Global,
    out: &mut Bytes,
    grid: &Grid,
    groups: &[u8],
    by_rank: &ByRank<'_>,
    mark: &DrawnMark,
) -> Result<(), AllocError>
    ensures { OnOk result (out.new ≡ out.old ++ drawn_mark_text grid.now groups.now (view_of by_rank.now) mark.now) }
{
    match by_rank.get(mark.rank).get(mark.number as usize) {
        Some(event) => push_mark_of(alloc, out, grid, groups, mark, &event.call, &event.reply),
        None => Ok(()),
    }
}

fn push_mark_of(
    alloc: Global,
    out: &mut Bytes,
    grid: &Grid,
    groups: &[u8],
    mark: &DrawnMark,
    call: &Call,
    reply: &Reply,
) -> Result<(), AllocError>
    ensures { OnOk result (out.new ≡ out.old ++ titled_mark_text grid.now groups.now mark.now call.now reply.now) }
{
    let x = grid.x(mark.column);
    let y = grid.y(mark.rank);
    let group = group_of(groups, mark.rank);
    push_title(out, mark, call, reply)?;
    push_shape(alloc, out, grid, x, y, group, mark.is_wild, call, reply)?;
    push_below(out, grid, x, y, mark.number)?;
    push_text(out, b"</g>\n")?;
    Ok(())
}

/// The line of the trace.
fn push_title(
    out: &mut Bytes,
    mark: &DrawnMark,
    call: &Call,
    reply: &Reply,
) -> Result<(), AllocError>
    ensures { OnOk result (out.new ≡ out.old ++ title_text mark.now call.now reply.now) }
{
    push_text(out, b"<g><title>rank ")?;
    push_decimal(out, mark.rank as u64)?;
    push_text(out, b" call ")?;
    push_decimal(out, mark.number as u64)?;
    push_text(out, b": ")?;
    push_call(out, call)?;
    push_text(out, b" -&gt; ")?;
    push_reply(out, reply)?;
    push_text(out, b"</title>\n")?;
    Ok(())
}

/// The shape of a call and its labels.
fn push_shape(
    alloc: Global,
    out: &mut Bytes,
    grid: &Grid,
    x: u64,
    y: u64,
    group: u8,
    is_wild: bool,
    call: &Call,
    reply: &Reply,
) -> Result<(), AllocError>
    requires x { 92 ≤ x }
    requires y { 60 ≤ y }
    requires right { x < 2 ^ 40 }
    requires low { y < 2 ^ 40 }
    ensures { OnOk result (out.new ≡ out.old ++ shape_text (spot_of grid.now x y group) is_wild call.now reply.now) }
{
    match reply {
        Reply::Stopped(_) => push_cross(out, x, y),
        _ => push_call_shape(alloc, out, grid, x, y, group, is_wild, call, reply),
    }
}

fn push_call_shape(
    alloc: Global,
    out: &mut Bytes,
    grid: &Grid,
    x: u64,
    y: u64,
    group: u8,
    is_wild: bool,
    call: &Call,
    reply: &Reply,
) -> Result<(), AllocError>
    requires x { 92 ≤ x }
    requires y { 60 ≤ y }
    requires right { x < 2 ^ 40 }
    requires low { y < 2 ^ 40 }
    ensures { OnOk result (out.new ≡ out.old ++ call_shape (spot_of grid.now x y group) is_wild call.now reply.now) }
{
    match call {
        Call::Send { tag, .. } => push_send(out, grid, x, y, group, *tag),
        Call::Post { source, .. } => push_post(out, grid, x, y, group, source),
        Call::Enter { kind, .. } => push_enter(out, grid, x, y, group, *kind),
        Call::Take { .. } => push_take(alloc, out, grid, x, y, group, is_wild, reply),
        Call::Peek { .. } => push_take(alloc, out, grid, x, y, group, is_wild, reply),
        _ => push_end(out, x, y, group),
    }
}

fn push_cross(out: &mut Bytes, x: u64, y: u64) -> Result<(), AllocError>
    requires x { 92 ≤ x }
    requires y { 60 ≤ y }
    requires right { x < 2 ^ 40 }
    requires low { y < 2 ^ 40 }
    ensures { OnOk result (out.new ≡ out.old ++ cross_text x y) }
{
    push_filled(
        out,
        b"<path d=\"M% %L% %M% %L% %\" stroke=\"#d21f1f\" stroke-width=\"3\"/>\n",
        &[
            Filler::Number(x - 6),
            Filler::Number(y - 6),
            Filler::Number(x + 6),
            Filler::Number(y + 6),
            Filler::Number(x - 6),
            Filler::Number(y + 6),
            Filler::Number(x + 6),
            Filler::Number(y - 6),
        ],
    )
}

/// The tag of a send, or nothing in a dense grid.
fn push_tag(out: &mut Bytes, grid: &Grid, x: u64, y: u64, tag: u32) -> Result<(), AllocError>
    requires y { 60 ≤ y }
    ensures { OnOk result (out.new ≡ out.old ++ label_text grid.now x y (codes "tag " ++ decimal_text tag)) }
{
    match grid {
        Grid::Wide => {
            push_label_begin(out, x, y)?;
            push_text(out, b"tag ")?;
            push_decimal(out, tag as u64)?;
            push_text(out, b"</text>\n")?;
            Ok(())
        }
        Grid::Dense => Ok(()),
    }
}

/// The name of a collective, or nothing in a dense grid.
fn push_kind_label(
    out: &mut Bytes,
    grid: &Grid,
    x: u64,
    y: u64,
    kind: Kind,
) -> Result<(), AllocError>
    requires y { 60 ≤ y }
    ensures { OnOk result (out.new ≡ out.old ++ label_text grid.now x y (kind_text kind)) }
{
    match grid {
        Grid::Wide => {
            push_label_begin(out, x, y)?;
            push_kind(out, kind)?;
            push_text(out, b"</text>\n")?;
            Ok(())
        }
        Grid::Dense => Ok(()),
    }
}

fn push_label_begin(out: &mut Bytes, x: u64, y: u64) -> Result<(), AllocError>
    requires y { 60 ≤ y }
    ensures { OnOk result (out.new ≡ out.old ++ label_begin x y) }
{
    push_filled(
        out,
        b"<text class=\"n\" x=\"%\" y=\"%\" text-anchor=\"middle\">",
        &[Filler::Number(x), Filler::Number(y - 12)],
    )
}

/// The number of a call, or nothing in a dense grid.
fn push_below(out: &mut Bytes, grid: &Grid, x: u64, y: u64, number: u32) -> Result<(), AllocError>
    requires low { y < 2 ^ 40 }
    ensures { OnOk result (out.new ≡ out.old ++ below_text grid.now x y number) }
{
    match grid {
        Grid::Wide => push_filled(
            out,
            b"<text class=\"n\" x=\"%\" y=\"%\" text-anchor=\"middle\">%</text>\n",
            &[
                Filler::Number(x),
                Filler::Number(y + 20),
                Filler::Number(number as u64),
            ],
        ),
        Grid::Dense => Ok(()),
    }
}

fn push_send(
    out: &mut Bytes,
    grid: &Grid,
    x: u64,
    y: u64,
    group: u8,
    tag: u32,
) -> Result<(), AllocError>
    requires y { 60 ≤ y }
    ensures { OnOk result (out.new ≡ out.old ++ drawn_send_text grid.now x y group tag) }
{
    push_filled(
        out,
        b"<circle cx=\"%\" cy=\"%\" r=\"5\" fill=\"%\"/>\n",
        &[Filler::Number(x), Filler::Number(y), Filler::Deep(group)],
    )?;
    push_tag(out, grid, x, y, tag)?;
    Ok(())
}

fn push_post(
    out: &mut Bytes,
    grid: &Grid,
    x: u64,
    y: u64,
    group: u8,
    source: &Source,
) -> Result<(), AllocError>
    requires x { 92 ≤ x }
    requires y { 60 ≤ y }
    ensures { OnOk result (out.new ≡ out.old ++ post_text grid.now x y group source.now) }
{
    match source {
        Source::Any => {
            push_ring(out, x, y, Filler::Wild)?;
            push_any(out, grid, x, y)
        }
        _ => push_ring(out, x, y, Filler::Deep(group)),
    }
}

fn push_ring(out: &mut Bytes, x: u64, y: u64, colour: Filler) -> Result<(), AllocError>
    ensures { OnOk result (out.new ≡ out.old ++ post_by x y colour) }
{
    push_filled(
        out,
        b"<circle cx=\"%\" cy=\"%\" r=\"4\" fill=\"#ffffff\" stroke=\"%\" stroke-width=\"2\"/>\n",
        &[Filler::Number(x), Filler::Number(y), colour],
    )
}

fn push_any(out: &mut Bytes, grid: &Grid, x: u64, y: u64) -> Result<(), AllocError>
    requires x { 92 ≤ x }
    requires y { 60 ≤ y }
    ensures { OnOk result (out.new ≡ out.old ++ any_label_text grid.now x y) }
{
    match grid {
        Grid::Wide => push_filled(
            out,
            b"<text class=\"w\" x=\"%\" y=\"%\">any</text>\n",
            &[Filler::Number(x - 10), Filler::Number(y - 10)],
        ),
        Grid::Dense => Ok(()),
    }
}

fn push_enter(
    out: &mut Bytes,
    grid: &Grid,
    x: u64,
    y: u64,
    group: u8,
    kind: Kind,
) -> Result<(), AllocError>
    requires x { 92 ≤ x }
    requires y { 60 ≤ y }
    ensures { OnOk result (out.new ≡ out.old ++ enter_text grid.now x y group (kind_text kind)) }
{
    push_filled(
        out,
        b"<rect x=\"%\" y=\"%\" width=\"10\" height=\"10\" fill=\"%\"/>\n",
        &[
            Filler::Number(x - 5),
            Filler::Number(y - 5),
            Filler::Deep(group),
        ],
    )?;
    push_kind_label(out, grid, x, y, kind)?;
    Ok(())
}

/// A completion or a probe.
fn push_take(
    alloc: Global,
    out: &mut Bytes,
    grid: &Grid,
    x: u64,
    y: u64,
    group: u8,
    is_wild: bool,
    reply: &Reply,
) -> Result<(), AllocError>
    requires x { 92 ≤ x }
    requires y { 60 ≤ y }
    requires right { x < 2 ^ 40 }
    requires low { y < 2 ^ 40 }
    ensures { OnOk result (out.new ≡ out.old ++ take_text grid.now x y group is_wild reply.now) }
{
    match reply {
        Reply::NotYet => push_filled(
            out,
            b"<circle cx=\"%\" cy=\"%\" r=\"3\" fill=\"#ffffff\" stroke=\"#8a8f98\"/>\n",
            &[Filler::Number(x), Filler::Number(y)],
        ),
        _ => push_done(alloc, out, grid, x, y, group, is_wild, reply),
    }
}

fn push_done(
    alloc: Global,
    out: &mut Bytes,
    grid: &Grid,
    x: u64,
    y: u64,
    group: u8,
    is_wild: bool,
    reply: &Reply,
) -> Result<(), AllocError>
    requires x { 92 ≤ x }
    requires y { 60 ≤ y }
    requires right { x < 2 ^ 40 }
    requires low { y < 2 ^ 40 }
    ensures { OnOk result (out.new ≡ out.old ++ done_text grid.now x y group is_wild reply.now) }
{
    if !is_wild {
        return push_diamond(out, x, y, Filler::Deep(group));
    }
    push_diamond(out, x, y, Filler::Wild)?;
    push_from(alloc, out, grid, x, y, reply)
}

fn push_diamond(out: &mut Bytes, x: u64, y: u64, colour: Filler) -> Result<(), AllocError>
    requires x { 92 ≤ x }
    requires y { 60 ≤ y }
    requires right { x < 2 ^ 40 }
    requires low { y < 2 ^ 40 }
    ensures { OnOk result (out.new ≡ out.old ++ diamond_text x y colour) }
{
    push_filled(
        out,
        b"<path d=\"M% %L% %L% %L% %z\" fill=\"%\"/>\n",
        &[
            Filler::Number(x - 7),
            Filler::Number(y),
            Filler::Number(x),
            Filler::Number(y - 7),
            Filler::Number(x + 7),
            Filler::Number(y),
            Filler::Number(x),
            Filler::Number(y + 7),
            colour,
        ],
    )
}

/// Whom the messages of a reply are from, or nothing in a dense grid.
fn push_from(
    alloc: Global,
    out: &mut Bytes,
    grid: &Grid,
    x: u64,
    y: u64,
    reply: &Reply,
) -> Result<(), AllocError>
    requires x { 92 ≤ x }
    requires y { 60 ≤ y }
    ensures { OnOk result (out.new ≡ out.old ++ sources_label_text grid.now x y reply.now) }
{
    match grid {
        Grid::Wide => {
            let sources = sources_of(alloc, reply)?;
            push_filled(
                out,
                b"<text class=\"w\" x=\"%\" y=\"%\">from ",
                &[Filler::Number(x - 16), Filler::Number(y - 12)],
            )?;
            push_by_commas(out, sources.as_slice())?;
            push_text(out, b"</text>\n")?;
            Ok(())
        }
        Grid::Dense => Ok(()),
    }
}

fn sources_of(alloc: Global, reply: &Reply) -> Result<Ranks, AllocError>
    ensures { IfOk result (λ sources. sources ≡ sources_of reply.now) }
{
    match reply {
        Reply::Took(items) => sources_in(alloc, items.as_slice()),
        _ => Ok(Ranks::new(alloc)),
    }
}

fn sources_in(alloc: Global, items: &[Item]) -> Result<Ranks, AllocError>
    ensures { IfOk result (λ sources. sources ≡ sources_in items.now) }
{
    let mut sources = Ranks::new(alloc);
    let mut rest = items;
    while let [item, after @ ..] = rest {
        push_source(&mut sources, &item.got)?;
        rest = after;
    }
    Ok(sources)
}

fn push_source(sources: &mut Ranks, got: &Got) -> Result<(), AllocError>
    ensures { OnOk result (sources.new ≡ sources.old ++ message_sources got.now) }
{
    if let Got::Message { source, .. } = got {
        sources.push(*source)?;
    }
    Ok(())
}

fn push_end(out: &mut Bytes, x: u64, y: u64, group: u8) -> Result<(), AllocError>
    requires x { 92 ≤ x }
    requires y { 60 ≤ y }
    ensures { OnOk result (out.new ≡ out.old ++ end_text x y group) }
{
    push_filled(
        out,
        b"<rect x=\"%\" y=\"%\" width=\"4\" height=\"18\" fill=\"%\"/>\n",
        &[
            Filler::Number(x - 2),
            Filler::Number(y - 9),
            Filler::Deep(group),
        ],
    )
}
