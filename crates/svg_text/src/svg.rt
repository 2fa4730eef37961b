//! The picture of a run as SVG.
ghost use Rattle.std.specs.Prelude.{◌≡◌, ◌+◌, ◌-◌, ◌≤◌, ◌<◌, ◌^◌, ◌++◌, IfOk, OnOk, codes, flat_map, if◌then◌else◌, length};
ghost use Rattle.svg_text.specs.declared.endings.TheConstants.{MOST_CYCLES};
ghost use Rattle.run_model.specs.Views.{view_of};
ghost use Rattle.svg_text.specs.Endings.{arc_text, arcs_of, beside, beside_texts, blocked_of, cycles_of, cycles_text, endings_text, farthest, longest};
ghost use Rattle.svg_text.specs.Grids.{bottom_of};
ghost use Rattle.svg_text.specs.Marks.{drawn_mark_text};
ghost use Rattle.svg_text.specs.Shapes.{choices_text, collective_text, received_message_text, drawn_probe_text, drawn_receive_text, unreceived_text};
ghost use Rattle.svg_text.specs.SvgTexts.{choices_legend, count_raced, count_wild, end_text, frame_text, ground_text, groups_in, had_choice, arrow_head_text, heading_text, heads_text, lanes_text, legend_text, picture_text, plural_text, remarks_of, shapes_text, sheet_of, style_text, subtitle_text, svg_text, top_text, wide_of};

use crate::endings::{
    Arc, arcs_of, beside, beside_texts, blocked_of, cycles_of, farthest, longest, push_arc,
    push_cycles, push_endings,
};
use crate::filling::{Filler, push_filled};
use crate::grid::Grid;
use crate::marks::push_mark;
use crate::shapes::{
    push_choices, push_collective, push_lane, push_message, push_probe, push_receive,
    push_unreceived,
};
use mpi_call::lists::Ranks;
use run_drawing::drawing::{
    Arrow, Drawing, DrawnCollective, DrawnMark, DrawnMessage, DrawnReceive, Point, Unreceived,
};
use run_model::by_rank::ByRank;
use run_model::ending::Ending;
use run_model::history::History;
use run_model::lists::Outputs;
use run_text::call_text::push_halt;
use std::alloc::{AllocError, Global};
use wait_graph::graph::{Blocked, Graph};
use wiz_base::{Bytes, push_decimal, push_text};

/// The picture of a run: its history and drawing, who waits for whom, how it ended, and what its ranks printed.
pub fn svg_text(
    alloc: Global,
    history: &History,
    drawing: &Drawing,
    graph: &Graph,
    ending: &Ending,
    outputs: &Outputs,
) -> Result<Bytes, AllocError>
    ensures { IfOk result (λ text. text ≡ svg_text history.now.events drawing.now graph.now ending.now outputs.now) }
{
    let grid = Grid::of(drawing.groups().len(), drawing.marks().len());
    let all = blocked_of(ending, graph);
    let cycles = cycles_of(ending, graph);
    let texts = beside_texts(alloc, all, outputs.as_slice(), drawing.lanes())?;
    let right = grid.right(drawing.columns());
    let high = grid.bottom(drawing.lanes() as usize) + 64 + 14 * cycles.len() as u64;
    let mut out = Bytes::new(alloc);
    push_picture(
        alloc,
        &mut out,
        &grid,
        right,
        high,
        history,
        drawing,
        ending,
        all,
        cycles,
        texts.as_slice(),
    )?;
    Ok(out)
}

/// The whole picture.
fn push_picture(
    alloc: Global,
    out: &mut Bytes,
    grid: &Grid,
    right: u64,
    high: u64,
    history: &History,
    drawing: &Drawing,
    ending: &Ending,
    all: &[Blocked],
    cycles: &[Ranks],
    texts: &[Bytes],
) -> Result<(), AllocError>
    requires from { 108 ≤ right }
    requires small { right < 2 ^ 40 }
    requires high { 64 ≤ high }
    requires low { high < 2 ^ 42 }
    requires few { length cycles.now ≤ MOST_CYCLES }
    ensures { OnOk result (out.new ≡ out.old ++ picture_text (sheet_of grid.now right high) history.now.events drawing.now ending.now (remarks_of all.now cycles.now texts.now)) }
{
    let arcs = arcs_of(alloc, all)?;
    let x = beside(right, farthest(arcs.as_slice()));
    push_top(out, wide_of(x, longest(texts)), high, drawing, ending)?;
    push_lanes(out, grid, right, drawing)?;
    push_shapes(alloc, out, grid, history, drawing)?;
    push_arcs(out, grid, right, arcs.as_slice())?;
    push_beside(out, grid, x, all, cycles, texts, drawing.lanes())?;
    push_bottom(out, grid, high)?;
    Ok(())
}

/// The cycles, and the texts beside the lanes.
fn push_beside(
    out: &mut Bytes,
    grid: &Grid,
    x: u64,
    all: &[Blocked],
    cycles: &[Ranks],
    texts: &[Bytes],
    ranks: u8,
) -> Result<(), AllocError>
    requires { length cycles.now ≤ MOST_CYCLES }
    ensures { OnOk result (out.new ≡ out.old ++ (cycles_text (bottom_of grid.now ranks + 16) cycles.now ++ endings_text grid.now all.now x texts.now ranks)) }
{
    push_cycles(out, grid.bottom(ranks as usize) + 16, cycles)?;
    push_endings(out, grid, all, x, texts, ranks)?;
    Ok(())
}

/// The width.
fn wide_of(x: u64, characters: u64) -> u64
    requires x { x < 2 ^ 41 }
    requires few { characters ≤ 1000 }
    ensures { result ≡ wide_of x characters }
{
    (x + 8 * characters + 16).max(1070)
}

/// The frame, and what stands above the lanes.
fn push_top(
    out: &mut Bytes,
    wide: u64,
    high: u64,
    drawing: &Drawing,
    ending: &Ending,
) -> Result<(), AllocError>
    ensures { OnOk result (out.new ≡ out.old ++ top_text wide high drawing.now ending.now) }
{
    push_frame(out, wide, high)?;
    push_style(out)?;
    push_heads(out)?;
    push_ground(out, wide, high)?;
    push_titles(out, drawing, ending)?;
    Ok(())
}

/// The two lines of the title.
fn push_titles(out: &mut Bytes, drawing: &Drawing, ending: &Ending) -> Result<(), AllocError>
    ensures { OnOk result (out.new ≡ out.old ++ (heading_text drawing.now.groups (length drawing.now.marks) ending.now ++ subtitle_text drawing.now.receives)) }
{
    push_heading(out, drawing.groups(), drawing.marks().len(), ending)?;
    push_subtitle(out, drawing.receives())?;
    Ok(())
}

fn push_frame(out: &mut Bytes, wide: u64, high: u64) -> Result<(), AllocError>
    ensures { OnOk result (out.new ≡ out.old ++ frame_text wide high) }
{
    push_filled(
        out,
        b"<svg xmlns=\"http://www.w3.org/2000/svg\" width=\"%\" height=\"%\" viewBox=\"0 0 % %\">\n",
        &[
            Filler::Number(wide),
            Filler::Number(high),
            Filler::Number(wide),
            Filler::Number(high),
        ],
    )
}

fn push_style(out: &mut Bytes) -> Result<(), AllocError>
    ensures { OnOk result (out.new ≡ out.old ++ style_text) }
{
    push_text(
        out,
        b"<style>text{font-family:DejaVu Sans,Verdana,sans-serif;fill:#23272e}.h{font-size:15px;font-weight:bold}.t{font-size:12px}.s{font-size:10px;fill:#666c75}",
    )?;
    push_text(
        out,
        b".w{font-size:10px;fill:#b8007a;font-weight:bold;paint-order:stroke;stroke:#ffffff;stroke-width:3px;stroke-opacity:0.8}",
    )?;
    push_text(out, b".b{font-size:11px;fill:#d21f1f;font-weight:bold}")?;
    push_text(
        out,
        b".n{font-size:10px;fill:#4b515b;paint-order:stroke;stroke:#ffffff;stroke-width:3px;stroke-opacity:0.8}",
    )?;
    push_text(
        out,
        b".l{stroke:#c3c8d0;stroke-width:1}.m{stroke-width:2;fill:none}.o{stroke-width:1;fill:none;stroke-dasharray:5 4}",
    )?;
    push_text(
        out,
        b".d{stroke:#9aa0aa;stroke-width:1;stroke-opacity:0.3}.j{stroke:#9aa0aa;stroke-width:1;fill:none}</style>\n",
    )
}

/// The head of an arrow.
fn push_head(out: &mut Bytes, name: &[u8], colour: &[u8]) -> Result<(), AllocError>
    ensures { OnOk result (out.new ≡ out.old ++ arrow_head_text name.now colour.now) }
{
    push_text(out, b"<marker id=\"")?;
    push_text(out, name)?;
    push_text(
        out,
        b"\" markerUnits=\"userSpaceOnUse\" markerWidth=\"10\" markerHeight=\"8\" refX=\"9\" refY=\"4\" orient=\"auto\"><path d=\"M0 0L10 4L0 8z\" fill=\"",
    )?;
    push_text(out, colour)?;
    push_text(out, b"\"/></marker>\n")?;
    Ok(())
}

fn push_heads(out: &mut Bytes) -> Result<(), AllocError>
    ensures { OnOk result (out.new ≡ out.old ++ heads_text) }
{
    push_text(out, b"<defs>\n")?;
    push_head(out, b"w", b"#b8007a")?;
    push_head(out, b"r", b"#d21f1f")?;
    push_head(out, b"g", b"#9aa0aa")?;
    push_head(out, b"a0", b"#2f6db5")?;
    push_head(out, b"a1", b"#c06a12")?;
    push_head(out, b"a2", b"#2f8a4a")?;
    push_head(out, b"a3", b"#8a3f93")?;
    push_head(out, b"a4", b"#b23b3b")?;
    push_head(out, b"a5", b"#1f8690")?;
    push_head(out, b"a6", b"#85741c")?;
    push_head(out, b"a7", b"#5a5a86")?;
    push_text(out, b"</defs>\n")?;
    Ok(())
}

fn push_ground(out: &mut Bytes, wide: u64, high: u64) -> Result<(), AllocError>
    ensures { OnOk result (out.new ≡ out.old ++ ground_text wide high) }
{
    push_filled(
        out,
        b"<rect width=\"%\" height=\"%\" fill=\"#ffffff\"/>\n",
        &[Filler::Number(wide), Filler::Number(high)],
    )
}

fn push_end(out: &mut Bytes, ending: &Ending) -> Result<(), AllocError>
    ensures { OnOk result (out.new ≡ out.old ++ end_text ending.now) }
{
    match ending {
        Ending::Finished => push_text(out, b"finished"),
        Ending::Halted(halt) => {
            push_text(out, b"halted ")?;
            push_halt(out, halt)
        }
    }
}

fn push_plural(out: &mut Bytes, count: u64) -> Result<(), AllocError>
    ensures { OnOk result (out.new ≡ out.old ++ plural_text count) }
{
    if count == 1 {
        return Ok(());
    }
    push_text(out, b"s")
}

/// How many groups there are: one more than the greatest number.
fn groups_in(groups: &[u8]) -> u64
    ensures { result ≡ groups_in groups.now }
{
    let mut most = 0u64;
    let mut rest = groups;
    while let [group, after @ ..] = rest {
        most = most.max(*group as u64 + 1);
        rest = after;
    }
    most
}

fn push_heading(
    out: &mut Bytes,
    groups: &[u8],
    calls: usize,
    ending: &Ending,
) -> Result<(), AllocError>
    ensures { OnOk result (out.new ≡ out.old ++ heading_text groups.now calls ending.now) }
{
    let count = groups_in(groups);
    push_text(out, b"<text class=\"h\" x=\"14\" y=\"26\">")?;
    push_decimal(out, groups.len() as u64)?;
    push_text(out, b" ranks in ")?;
    push_decimal(out, count)?;
    push_text(out, b" group")?;
    push_plural(out, count)?;
    push_text(out, b", ")?;
    push_decimal(out, calls as u64)?;
    push_text(out, b" events, ")?;
    push_end(out, ending)?;
    push_text(out, b"</text>\n")?;
    Ok(())
}

/// How many of these receives from any source were completed.
fn count_wild(receives: &[DrawnReceive]) -> u64
    ensures { result ≡ count_wild receives.now }
{
    let mut count = 0u64;
    let mut rest = receives;
    while let [receive, after @ ..] = rest {
        if receive.is_wild && receive.message.is_some() {
            count += 1;
        }
        rest = after;
    }
    count
}

/// How many of them could have taken another message.
fn count_raced(receives: &[DrawnReceive]) -> u64
    ensures { result ≡ count_raced receives.now }
{
    let mut count = 0u64;
    let mut rest = receives;
    while let [receive, after @ ..] = rest {
        if receive.is_wild && had_choice(&receive.message) {
            count += 1;
        }
        rest = after;
    }
    count
}

fn had_choice(message: &Option<DrawnMessage>) -> bool
    ensures { had_choice message.now ≡ (if result then 1 else 0) }
{
    match message {
        Some(message) => !message.choices.as_slice().is_empty(),
        None => false,
    }
}

fn push_subtitle(out: &mut Bytes, receives: &[DrawnReceive]) -> Result<(), AllocError>
    ensures { OnOk result (out.new ≡ out.old ++ subtitle_text receives.now) }
{
    push_text(
        out,
        b"<text class=\"s\" x=\"14\" y=\"44\">A call stands to the right of all that it needed; calls in one column have no order. ",
    )?;
    push_text(
        out,
        b"Point at a mark for its call; the number is the C of --break R:C. ",
    )?;
    push_decimal(out, count_raced(receives))?;
    push_text(out, b" of ")?;
    push_decimal(out, count_wild(receives))?;
    push_text(out, b" receives from any source raced.</text>\n")?;
    Ok(())
}

/// The lanes of the ranks.
fn push_lanes(out: &mut Bytes, grid: &Grid, right: u64, drawing: &Drawing) -> Result<(), AllocError>
    requires from { 108 ≤ right }
    requires small { right < 2 ^ 40 }
    ensures { OnOk result (out.new ≡ out.old ++ lanes_text grid.now right drawing.now.groups) }
{
    for rank in 0..drawing.lanes() {
        push_lane(out, grid, right, drawing.groups(), rank)?;
    }
    Ok(())
}

/// What is drawn over the lanes.
fn push_shapes(
    alloc: Global,
    out: &mut Bytes,
    grid: &Grid,
    history: &History,
    drawing: &Drawing,
) -> Result<(), AllocError>
    ensures { OnOk result (out.new ≡ out.old ++ shapes_text grid.now history.now.events drawing.now) }
{
    let by_rank = ByRank::new(alloc, history)?;
    push_receives(out, grid, drawing.groups(), drawing.receives())?;
    push_collectives(out, grid, drawing.collectives())?;
    push_all_choices(out, grid, drawing.receives())?;
    push_messages(out, grid, drawing.groups(), drawing.receives())?;
    push_probes(out, grid, drawing.probes())?;
    push_all_unreceived(out, grid, drawing.unreceived())?;
    push_marks(
        alloc,
        out,
        grid,
        drawing.groups(),
        &by_rank,
        drawing.marks(),
    )
}

fn push_receives(
    out: &mut Bytes,
    grid: &Grid,
    groups: &[u8],
    receives: &[DrawnReceive],
) -> Result<(), AllocError>
    ensures { OnOk result (out.new ≡ out.old ++ flat_map (drawn_receive_text grid.now groups.now) receives.now) }
{
    let mut rest = receives;
    while let [receive, after @ ..] = rest {
        push_receive(out, grid, groups, receive)?;
        rest = after;
    }
    Ok(())
}

fn push_collectives(
    out: &mut Bytes,
    grid: &Grid,
    collectives: &[DrawnCollective],
) -> Result<(), AllocError>
    ensures { OnOk result (out.new ≡ out.old ++ flat_map (collective_text grid.now) collectives.now) }
{
    let mut rest = collectives;
    while let [collective, after @ ..] = rest {
        push_collective(out, grid, collective)?;
        rest = after;
    }
    Ok(())
}

fn push_all_choices(
    out: &mut Bytes,
    grid: &Grid,
    receives: &[DrawnReceive],
) -> Result<(), AllocError>
    ensures { OnOk result (out.new ≡ out.old ++ flat_map (choices_text grid.now) receives.now) }
{
    let mut rest = receives;
    while let [receive, after @ ..] = rest {
        push_choices(out, grid, receive)?;
        rest = after;
    }
    Ok(())
}

fn push_messages(
    out: &mut Bytes,
    grid: &Grid,
    groups: &[u8],
    receives: &[DrawnReceive],
) -> Result<(), AllocError>
    ensures { OnOk result (out.new ≡ out.old ++ flat_map (received_message_text grid.now groups.now) receives.now) }
{
    let mut rest = receives;
    while let [receive, after @ ..] = rest {
        push_message(out, grid, groups, receive)?;
        rest = after;
    }
    Ok(())
}

fn push_probes(out: &mut Bytes, grid: &Grid, probes: &[Arrow]) -> Result<(), AllocError>
    ensures { OnOk result (out.new ≡ out.old ++ flat_map (drawn_probe_text grid.now) probes.now) }
{
    let mut rest = probes;
    while let [probe, after @ ..] = rest {
        push_probe(out, grid, probe)?;
        rest = after;
    }
    Ok(())
}

fn push_all_unreceived(out: &mut Bytes, grid: &Grid, all: &[Unreceived]) -> Result<(), AllocError>
    ensures { OnOk result (out.new ≡ out.old ++ flat_map (unreceived_text grid.now) all.now) }
{
    let mut rest = all;
    while let [unreceived, after @ ..] = rest {
        push_unreceived(out, grid, unreceived)?;
        rest = after;
    }
    Ok(())
}

fn push_marks(
    alloc: Global,
    out: &mut Bytes,
    grid: &Grid,
    groups: &[u8],
    by_rank: &ByRank<'_>,
    marks: &[DrawnMark],
) -> Result<(), AllocError>
    ensures { OnOk result (out.new ≡ out.old ++ flat_map (drawn_mark_text grid.now groups.now (view_of by_rank.now)) marks.now) }
{
    let mut rest = marks;
    while let [mark, after @ ..] = rest {
        push_mark(alloc, out, grid, groups, by_rank, mark)?;
        rest = after;
    }
    Ok(())
}

fn push_arcs(out: &mut Bytes, grid: &Grid, right: u64, arcs: &[Arc]) -> Result<(), AllocError>
    requires from { 108 ≤ right }
    requires small { right < 2 ^ 40 }
    ensures { OnOk result (out.new ≡ out.old ++ flat_map (arc_text grid.now right) arcs.now) }
{
    let mut rest = arcs;
    while let [arc, after @ ..] = rest {
        push_arc(out, grid, right, *arc)?;
        rest = after;
    }
    Ok(())
}

/// What the shapes mean, and the end.
fn push_bottom(out: &mut Bytes, grid: &Grid, high: u64) -> Result<(), AllocError>
    requires from { 64 ≤ high }
    requires small { high < 2 ^ 42 }
    ensures { OnOk result (out.new ≡ out.old ++ (legend_text (high - 30) ++ choices_legend grid.now (high - 30) ++ codes "</svg>\n")) }
{
    push_legend(out, high - 30)?;
    push_choices_legend(out, grid, high - 30)?;
    push_text(out, b"</svg>\n")
}

fn push_legend(out: &mut Bytes, y: u64) -> Result<(), AllocError>
    requires from { 34 ≤ y }
    requires small { y < 2 ^ 42 }
    ensures { OnOk result (out.new ≡ out.old ++ legend_text y) }
{
    let below = Filler::Number(y + 4);
    push_filled(
        out,
        b"<circle cx=\"22\" cy=\"%\" r=\"5\" fill=\"#555b66\"/>\n<text class=\"s\" x=\"36\" y=\"%\">send</text>\n",
        &[Filler::Number(y), below],
    )?;
    push_filled(
        out,
        b"<circle cx=\"84\" cy=\"%\" r=\"4\" fill=\"#ffffff\" stroke=\"#555b66\" stroke-width=\"2\"/>\n<text class=\"s\" x=\"98\" y=\"%\">receive posted</text>\n",
        &[Filler::Number(y), below],
    )?;
    push_filled(
        out,
        b"<path d=\"M202 %m-7 0l7 -7l7 7l-7 7z\" fill=\"#555b66\"/>\n<text class=\"s\" x=\"216\" y=\"%\">completed</text>\n",
        &[Filler::Number(y), below],
    )?;
    push_filled(
        out,
        b"<rect x=\"291\" y=\"%\" width=\"10\" height=\"10\" fill=\"#555b66\"/>\n<text class=\"s\" x=\"310\" y=\"%\">collective</text>\n",
        &[Filler::Number(y - 5), below],
    )?;
    push_filled(
        out,
        b"<rect x=\"386\" y=\"%\" width=\"4\" height=\"18\" fill=\"#555b66\"/>\n<text class=\"s\" x=\"402\" y=\"%\">end</text>\n",
        &[Filler::Number(y - 9), below],
    )?;
    push_filled(
        out,
        b"<circle cx=\"446\" cy=\"%\" r=\"5\" fill=\"#b8007a\"/>\n<text class=\"s\" x=\"460\" y=\"%\">from any source</text>\n",
        &[Filler::Number(y), below],
    )?;
    Ok(())
}

fn push_choices_legend(out: &mut Bytes, grid: &Grid, y: u64) -> Result<(), AllocError>
    requires { y < 2 ^ 42 }
    ensures { OnOk result (out.new ≡ out.old ++ choices_legend grid.now y) }
{
    match grid {
        Grid::Wide => push_filled(
            out,
            b"<path class=\"o\" stroke=\"#b8007a\" d=\"M574 %m-14 0h24\"/>\n<text class=\"s\" x=\"588\" y=\"%\">could have come here instead</text>\n",
            &[Filler::Number(y), Filler::Number(y + 4)],
        ),
        Grid::Dense => Ok(()),
    }
}
