//! The shapes of a drawing: lanes, bars and arrows.
ghost use Rattle.std.specs.Prelude.{◌≡◌, ◌-◌, ◌≤◌, ◌<◌, ◌^◌, ◌++◌, OnOk, Some, flat_map, nat_lt, slice_index};
ghost use Rattle.svg_text.specs.declared.grid.Grid.TheVariants.{Dense, Wide};
ghost use Rattle.svg_text.specs.Grids.{x_of};
ghost use Rattle.svg_text.specs.Shapes.{arrow_text, bar_text, line_ends_text, choice_text, choices_text, collective_text, ends_text, gray_text, lane_text, latest_text, received_message_text, drawn_probe_text, receive_colour, drawn_receive_text, stub_down, stub_text, taken_colour, unreceived_text, wild_arrow};

use crate::filling::{Filler, push_filled};
use crate::grid::{Grid, long_side, short_of};
use run_drawing::drawing::{Arrow, DrawnCollective, DrawnMessage, DrawnReceive, Point, Unreceived};
use std::alloc::AllocError;
use wiz_base::{Bytes, push_text};

/// The group of a rank; 0 past the ranks.
pub fn group_of(groups: &[u8], rank: u8) -> u8
    ensures { result ≡ slice_index groups.now rank }
{
    groups.get(rank as usize).copied().unwrap_or(0)
}

/// A rank's lane.
pub fn push_lane(
    out: &mut Bytes,
    grid: &Grid,
    right: u64,
    groups: &[u8],
    rank: u8,
) -> Result<(), AllocError>
    requires from { 108 ≤ right }
    requires small { right < 2 ^ 40 }
    ensures { OnOk result (out.new ≡ out.old ++ lane_text grid.now right groups.now rank) }
{
    match grid {
        Grid::Wide => push_wide_lane(out, right, groups, rank),
        Grid::Dense => push_dense_lane(out, right, groups, rank),
    }
}

fn push_wide_lane(out: &mut Bytes, right: u64, groups: &[u8], rank: u8) -> Result<(), AllocError>
    requires from { 108 ≤ right }
    requires small { right < 2 ^ 40 }
    ensures { OnOk result (out.new ≡ out.old ++ lane_text Wide right groups.now rank) }
{
    let group = group_of(groups, rank);
    let y = Grid::Wide.y(rank);
    push_filled(
        out,
        b"<rect x=\"8\" y=\"%\" width=\"%\" height=\"56\" fill=\"%\"/>\n<text class=\"t\" x=\"16\" y=\"%\" style=\"font-weight:bold;fill:%\">rank %</text>\n<text class=\"s\" x=\"16\" y=\"%\">group %</text>\n<line class=\"l\" x1=\"92\" y1=\"%\" x2=\"%\" y2=\"%\"/>\n",
        &[
            Filler::Number(y - 28),
            Filler::Number(right - 8),
            Filler::Pale(group),
            Filler::Number(y),
            Filler::Deep(group),
            Filler::Number(rank as u64),
            Filler::Number(y + 14),
            Filler::Number(group as u64),
            Filler::Number(y),
            Filler::Number(right),
            Filler::Number(y),
        ],
    )?;
    Ok(())
}

fn push_dense_lane(out: &mut Bytes, right: u64, groups: &[u8], rank: u8) -> Result<(), AllocError>
    requires from { 108 ≤ right }
    requires small { right < 2 ^ 40 }
    ensures { OnOk result (out.new ≡ out.old ++ lane_text Dense right groups.now rank) }
{
    let group = group_of(groups, rank);
    let y = Grid::Dense.y(rank);
    push_filled(
        out,
        b"<rect x=\"8\" y=\"%\" width=\"%\" height=\"20\" fill=\"%\"/>\n<text class=\"t\" x=\"16\" y=\"%\" style=\"font-weight:bold;fill:%\">rank %</text>\n<line class=\"l\" x1=\"92\" y1=\"%\" x2=\"%\" y2=\"%\"/>\n",
        &[
            Filler::Number(y - 10),
            Filler::Number(right - 8),
            Filler::Pale(group),
            Filler::Number(y + 4),
            Filler::Deep(group),
            Filler::Number(rank as u64),
            Filler::Number(y),
            Filler::Number(right),
            Filler::Number(y),
        ],
    )?;
    Ok(())
}

/// How far a column is behind another.
fn bar_length(grid: &Grid, from: u32, to: u32) -> u64
    ensures length { result ≡ x_of grid.now to - x_of grid.now from }
    ensures small { result < 2 ^ 40 }
{
    grid.x(to).saturating_sub(grid.x(from))
}

/// A bar from one column to another.
fn push_bar(
    out: &mut Bytes,
    grid: &Grid,
    rank: u8,
    from: u32,
    to: u32,
    colour: Filler,
) -> Result<(), AllocError>
    ensures { OnOk result (out.new ≡ out.old ++ bar_text grid.now rank from to colour) }
{
    let x = grid.x(from);
    let y = grid.y(rank);
    let length = bar_length(grid, from, to);
    push_filled(
        out,
        b"<rect x=\"%\" y=\"%\" width=\"%\" height=\"10\" rx=\"5\" fill=\"%\" fill-opacity=\"0.28\"/>\n",
        &[
            Filler::Number(x - 5),
            Filler::Number(y - 5),
            Filler::Number(length + 10),
            colour,
        ],
    )?;
    Ok(())
}

/// The bar of a receive.
pub fn push_receive(
    out: &mut Bytes,
    grid: &Grid,
    groups: &[u8],
    receive: &DrawnReceive,
) -> Result<(), AllocError>
    ensures { OnOk result (out.new ≡ out.old ++ drawn_receive_text grid.now groups.now receive.now) }
{
    let colour = receive_colour(groups, receive.rank, receive.is_wild, &receive.message);
    push_bar(out, grid, receive.rank, receive.from, receive.to, colour)?;
    Ok(())
}

fn receive_colour(groups: &[u8], rank: u8, is_wild: bool, message: &Option<DrawnMessage>) -> Filler
    ensures { result ≡ receive_colour groups.now rank is_wild message.now }
{
    match message {
        None => Filler::Bad,
        Some(_) => taken_colour(groups, rank, is_wild),
    }
}

fn taken_colour(groups: &[u8], rank: u8, is_wild: bool) -> Filler
    ensures { result ≡ taken_colour groups.now rank is_wild }
{
    if is_wild {
        return Filler::Wild;
    }
    Filler::Deep(group_of(groups, rank))
}

/// The ends of a line, the second short of its mark.
fn push_ends(out: &mut Bytes, x1: u64, y1: u64, x2: u64, y2: u64) -> Result<(), AllocError>
    requires x1 { x1 < 2 ^ 40 }
    requires y1 { y1 < 2 ^ 40 }
    requires x2 { x2 < 2 ^ 40 }
    requires y2 { y2 < 2 ^ 40 }
    ensures { OnOk result (out.new ≡ out.old ++ ends_text x1 y1 x2 y2) }
{
    let long = long_side(x1, y1, x2, y2);
    let x = short_of(x1, x2, long);
    let y = short_of(y1, y2, long);
    push_filled(
        out,
        b" x1=\"%\" y1=\"%\" x2=\"%\" y2=\"%\"",
        &[
            Filler::Number(x1),
            Filler::Number(y1),
            Filler::Number(x),
            Filler::Number(y),
        ],
    )
}

/// The ends of a line from a point to a rank's event in a column.
fn push_between(
    out: &mut Bytes,
    grid: &Grid,
    from: Point,
    rank: u8,
    column: u32,
) -> Result<(), AllocError>
    ensures { OnOk result (out.new ≡ out.old ++ line_ends_text grid.now from rank column) }
{
    push_ends(
        out,
        grid.x(from.column),
        grid.y(from.rank),
        grid.x(column),
        grid.y(rank),
    )
}

/// A gray arrow.
fn push_gray(
    out: &mut Bytes,
    grid: &Grid,
    from: Point,
    rank: u8,
    column: u32,
) -> Result<(), AllocError>
    ensures { OnOk result (out.new ≡ out.old ++ gray_text grid.now from rank column) }
{
    push_text(out, b"<line class=\"j\" stroke=\"#9aa0aa\"")?;
    push_between(out, grid, from, rank, column)?;
    push_text(out, b" marker-end=\"url(#g)\"/>\n")?;
    Ok(())
}

/// The last Enter that a collective had to wait for.
fn push_latest(
    out: &mut Bytes,
    grid: &Grid,
    latest: Option<Point>,
    rank: u8,
    column: u32,
) -> Result<(), AllocError>
    ensures { OnOk result (out.new ≡ out.old ++ latest_text grid.now latest rank column) }
{
    let Some(from) = latest else {
        return Ok(());
    };
    match grid {
        Grid::Wide => push_gray(out, &Grid::Wide, from, rank, column),
        Grid::Dense => push_thin(out, from, rank, column),
    }
}

/// A thin line without a head, in a dense grid.
fn push_thin(out: &mut Bytes, from: Point, rank: u8, column: u32) -> Result<(), AllocError>
    ensures { OnOk result (out.new ≡ out.old ++ latest_text Dense (Some from) rank column) }
{
    let grid = Grid::Dense;
    push_filled(
        out,
        b"<line class=\"d\" stroke=\"#9aa0aa\" x1=\"%\" y1=\"%\" x2=\"%\" y2=\"%\"/>\n",
        &[
            Filler::Number(grid.x(from.column)),
            Filler::Number(grid.y(from.rank)),
            Filler::Number(grid.x(column)),
            Filler::Number(grid.y(rank)),
        ],
    )
}

/// The bar of a collective, and what it had to wait for.
pub fn push_collective(
    out: &mut Bytes,
    grid: &Grid,
    collective: &DrawnCollective,
) -> Result<(), AllocError>
    ensures { OnOk result (out.new ≡ out.old ++ collective_text grid.now collective.now) }
{
    push_bar(
        out,
        grid,
        collective.rank,
        collective.from,
        collective.to,
        Filler::Gray,
    )?;
    push_latest(out, grid, collective.latest, collective.rank, collective.to)
}

/// A message that could have come instead.
fn push_choice(
    out: &mut Bytes,
    grid: &Grid,
    rank: u8,
    column: u32,
    choice: Point,
) -> Result<(), AllocError>
    ensures { OnOk result (out.new ≡ out.old ++ choice_text grid.now rank column choice) }
{
    push_text(out, b"<line class=\"o\" stroke=\"#b8007a\"")?;
    push_between(out, grid, choice, rank, column)?;
    push_text(out, b" marker-end=\"url(#w)\"/>\n")?;
    Ok(())
}

fn push_each_choice(
    out: &mut Bytes,
    rank: u8,
    column: u32,
    choices: &[Point],
) -> Result<(), AllocError>
    ensures { OnOk result (out.new ≡ out.old ++ flat_map (choice_text Wide rank column) choices.now) }
{
    let mut rest = choices;
    while let [choice, after @ ..] = rest {
        push_choice(out, &Grid::Wide, rank, column, *choice)?;
        rest = after;
    }
    Ok(())
}

/// What a receive could have taken instead; nothing in a dense grid.
pub fn push_choices(out: &mut Bytes, grid: &Grid, receive: &DrawnReceive) -> Result<(), AllocError>
    ensures { OnOk result (out.new ≡ out.old ++ choices_text grid.now receive.now) }
{
    let Some(message) = &receive.message else {
        return Ok(());
    };
    match grid {
        Grid::Wide => push_each_choice(out, receive.rank, receive.to, message.choices.as_slice()),
        Grid::Dense => Ok(()),
    }
}

/// The arrow of the message that a receive took.
pub fn push_message(
    out: &mut Bytes,
    grid: &Grid,
    groups: &[u8],
    receive: &DrawnReceive,
) -> Result<(), AllocError>
    ensures { OnOk result (out.new ≡ out.old ++ received_message_text grid.now groups.now receive.now) }
{
    match &receive.message {
        Some(message) => push_arrow(
            out,
            grid,
            groups,
            receive.is_wild,
            message.sender,
            receive.rank,
            receive.to,
        ),
        None => Ok(()),
    }
}

fn push_arrow(
    out: &mut Bytes,
    grid: &Grid,
    groups: &[u8],
    is_wild: bool,
    sender: Point,
    rank: u8,
    column: u32,
) -> Result<(), AllocError>
    ensures { OnOk result (out.new ≡ out.old ++ arrow_text grid.now groups.now is_wild sender rank column) }
{
    if is_wild {
        return push_wild_arrow(out, grid, sender, rank, column);
    }
    let group = group_of(groups, sender.rank);
    push_filled(
        out,
        b"<line class=\"m\" stroke=\"%\"",
        &[Filler::Deep(group)],
    )?;
    push_between(out, grid, sender, rank, column)?;
    push_filled(
        out,
        b" marker-end=\"url(#a%)\"/>\n",
        &[Filler::Number((group % 8) as u64)],
    )?;
    Ok(())
}

/// The same, of a receive from any source.
fn push_wild_arrow(
    out: &mut Bytes,
    grid: &Grid,
    sender: Point,
    rank: u8,
    column: u32,
) -> Result<(), AllocError>
    ensures { OnOk result (out.new ≡ out.old ++ wild_arrow grid.now sender rank column) }
{
    push_text(out, b"<line class=\"m\" stroke=\"#b8007a\"")?;
    push_between(out, grid, sender, rank, column)?;
    push_text(out, b" marker-end=\"url(#w)\"/>\n")?;
    Ok(())
}

/// A message that a probe found.
pub fn push_probe(out: &mut Bytes, grid: &Grid, probe: &Arrow) -> Result<(), AllocError>
    ensures { OnOk result (out.new ≡ out.old ++ drawn_probe_text grid.now probe.now) }
{
    push_gray(out, grid, probe.from, probe.to.rank, probe.to.column)
}

/// A message that nobody took; nothing in a dense grid.
pub fn push_unreceived(
    out: &mut Bytes,
    grid: &Grid,
    unreceived: &Unreceived,
) -> Result<(), AllocError>
    ensures { OnOk result (out.new ≡ out.old ++ unreceived_text grid.now unreceived.now) }
{
    match grid {
        Grid::Wide => push_stub(
            out,
            unreceived.rank,
            unreceived.receiver,
            Grid::Wide.x(unreceived.column),
            Grid::Wide.y(unreceived.rank),
        ),
        Grid::Dense => Ok(()),
    }
}

fn push_stub(out: &mut Bytes, rank: u8, receiver: u8, x: u64, y: u64) -> Result<(), AllocError>
    requires x { 92 ≤ x }
    requires y { 60 ≤ y }
    requires right { x < 2 ^ 40 }
    requires low { y < 2 ^ 40 }
    ensures { OnOk result (out.new ≡ out.old ++ stub_text (nat_lt rank receiver) x y receiver) }
{
    if rank < receiver {
        return push_stub_down(out, x, y, receiver);
    }
    push_filled(
        out,
        b"<line class=\"o\" stroke=\"#8a8f98\" x1=\"%\" y1=\"%\" x2=\"%\" y2=\"%\"/>\n<circle cx=\"%\" cy=\"%\" r=\"3\" fill=\"#ffffff\" stroke=\"#8a8f98\"/>\n<text class=\"n\" x=\"%\" y=\"%\" text-anchor=\"end\">to %</text>\n",
        &[
            Filler::Number(x),
            Filler::Number(y),
            Filler::Number(x - 16),
            Filler::Number(y - 24),
            Filler::Number(x - 16),
            Filler::Number(y - 24),
            Filler::Number(x - 22),
            Filler::Number(y - 20),
            Filler::Number(receiver as u64),
        ],
    )
}

fn push_stub_down(out: &mut Bytes, x: u64, y: u64, receiver: u8) -> Result<(), AllocError>
    requires right { x < 2 ^ 40 }
    requires low { y < 2 ^ 40 }
    ensures { OnOk result (out.new ≡ out.old ++ stub_down x y receiver) }
{
    push_filled(
        out,
        b"<line class=\"o\" stroke=\"#8a8f98\" x1=\"%\" y1=\"%\" x2=\"%\" y2=\"%\"/>\n<circle cx=\"%\" cy=\"%\" r=\"3\" fill=\"#ffffff\" stroke=\"#8a8f98\"/>\n<text class=\"n\" x=\"%\" y=\"%\" text-anchor=\"start\">to %</text>\n",
        &[
            Filler::Number(x),
            Filler::Number(y),
            Filler::Number(x + 18),
            Filler::Number(y + 24),
            Filler::Number(x + 18),
            Filler::Number(y + 24),
            Filler::Number(x + 24),
            Filler::Number(y + 28),
            Filler::Number(receiver as u64),
        ],
    )
}
