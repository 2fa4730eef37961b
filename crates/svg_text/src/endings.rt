//! Beside the lanes: who waits for whom, and how each rank ended.
ghost use Rattle.std.specs.Prelude.{◌≡◌, ◌+◌, ◌*◌, ◌≤◌, ◌<◌, ◌^◌, ◌++◌, ◌∷◌, [], IfOk, OnOk, Option, Some, codes, flat_map, length, option_map, slice_index_or, take};
ghost use Rattle.svg_text.specs.declared.endings.TheConstants.{MOST_CHARACTERS, MOST_CYCLES};
ghost use Rattle.std.specs.List.{list_any};
ghost use Rattle.wiz_base.specs.Decimals.{decimal_text};
ghost use Rattle.svg_text.specs.Endings.{arc_out, arc_text, arc_to, arcs_of, arcs_of_wait, arrives_at, beside, beside_text, beside_texts, blocked_rank, blocked_of, byte_text, drawn_cycle_text, cycles_of, cycles_text, dots_text, has_ended_text, drawn_ending_text, entering_text, endings_text, farthest, is_blocked, leaves_at, longest, awaited_message_text, drawn_output_text, plain_text, receiver_text, round_text, awaited_source_text, style_text, awaited_tag_text, drawn_wait_text, drawn_waiting_text};
ghost use Rattle.svg_text.specs.Grids.{distance};

use crate::filling::{Filler, push_filled};
use crate::grid::{Grid, distance};
use mpi_call::call::{Call, Halt, Source, Tag};
use mpi_call::lists::Ranks;
use run_model::ending::Ending;
use run_model::lists::Outputs;
use srr_log::spelled::push_by_commas;
use std::alloc::{AllocError, Global};
use wait_graph::graph::{Blocked, Graph};
use wait_graph::wait::Wait;
use wiz_base::{Bytes, push_decimal, push_text};

/// How many bytes of an output are shown.
const SHOWN: usize = 30;
/// The most characters of a text beside a lane that count for the width.
pub const MOST_CHARACTERS: usize = 1000;
/// The most cycles that are shown; a run of the most ranks has no more.
pub const MOST_CYCLES: usize = 64;

/// A rank that waits for another one that is stuck too.
#[derive(Clone, Copy)]
pub struct Arc {
    pub from: u8,
    pub to: u8,
}

/// The ranks that are stuck, where a run is halted as stuck.
pub fn blocked_of<'a>(ending: &Ending, graph: &'a Graph) -> &'a [Blocked]
    ensures { result.now ≡ blocked_of ending.now graph.entry.now }
{
    match ending {
        Ending::Halted(Halt::Stuck) => graph.blocked.as_slice(),
        _ => &[],
    }
}

/// The cycles, where a run is halted as stuck.
pub fn cycles_of<'a>(ending: &Ending, graph: &'a Graph) -> &'a [Ranks]
    ensures cycles { result.now ≡ cycles_of ending.now graph.entry.now }
    ensures few { length result.now ≤ MOST_CYCLES }
{
    match ending {
        Ending::Halted(Halt::Stuck) => cycles_in(graph, MOST_CYCLES),
        _ => &[],
    }
}

/// So many cycles of a graph, or all where it has fewer.
fn cycles_in<'a>(graph: &'a Graph, count: usize) -> &'a [Ranks]
    ensures cycles { result.now ≡ take count graph.entry.now.cycles }
    ensures few { length result.now ≤ count }
{
    first_cycles(graph.cycles.as_slice(), count)
}

fn first_cycles<'a>(cycles: &'a [Ranks], count: usize) -> &'a [Ranks]
    ensures cycles { result.now ≡ take count cycles.entry.now }
    ensures few { length result.now ≤ count }
{
    if count < cycles.len() {
        &cycles[..count]
    } else {
        cycles
    }
}

/// The blocked rank, if a rank is stuck.
fn blocked_at<'a>(all: &'a [Blocked], rank: u8) -> Option<&'a Blocked>
    ensures { option_map (λ blocked. blocked.now) result ≡ blocked_rank all.entry.now rank }
{
    let mut rest = all;
    while let [blocked, after @ ..] = rest {
        if blocked.rank == rank {
            return Some(blocked);
        }
        rest = after;
    }
    None
}

/// Whether a rank is stuck.
fn is_blocked(all: &[Blocked], rank: u8) -> bool
    ensures { result ≡ is_blocked all.now rank }
{
    let mut rest = all;
    while let [blocked, after @ ..] = rest {
        if blocked.rank == rank {
            return true;
        }
        rest = after;
    }
    false
}

/// Whether one of these ranks is stuck.
fn is_any_blocked(all: &[Blocked], ranks: &[u8]) -> bool
    ensures { result ≡ list_any (is_blocked all.now) ranks.now }
{
    let mut rest = ranks;
    while let [rank, after @ ..] = rest {
        if is_blocked(all, *rank) {
            return true;
        }
        rest = after;
    }
    false
}

/// The arcs of all ranks that are stuck.
pub fn arcs_of(alloc: Global, all: &[Blocked]) -> Result<Vec<Arc>, AllocError>
    ensures { IfOk result (λ arcs. arcs.items ≡ arcs_of all.now) }
{
    let mut arcs = Vec::new(alloc);
    let mut rest = all;
    while let [blocked, after @ ..] = rest {
        push_arcs(&mut arcs, all, blocked.rank, blocked.waits.as_slice())?;
        rest = after;
    }
    Ok(arcs)
}

/// The arcs of a rank.
fn push_arcs(
    arcs: &mut Vec<Arc>,
    all: &[Blocked],
    rank: u8,
    waits: &[Wait],
) -> Result<(), AllocError>
    ensures { OnOk result (arcs.new.items ≡ arcs.old.items ++ flat_map (arcs_of_wait all.now rank) waits.now) }
{
    let mut rest = waits;
    while let [wait, after @ ..] = rest {
        push_arcs_to(arcs, all, rank, wait.awaited.as_slice())?;
        rest = after;
    }
    Ok(())
}

/// The arcs of a rank to these.
fn push_arcs_to(
    arcs: &mut Vec<Arc>,
    all: &[Blocked],
    rank: u8,
    awaited: &[u8],
) -> Result<(), AllocError>
    ensures { OnOk result (arcs.new.items ≡ arcs.old.items ++ flat_map (arc_to all.now rank) awaited.now) }
{
    let mut rest = awaited;
    while let [other, after @ ..] = rest {
        push_arc_to(arcs, all, rank, *other)?;
        rest = after;
    }
    Ok(())
}

fn push_arc_to(
    arcs: &mut Vec<Arc>,
    all: &[Blocked],
    rank: u8,
    awaited: u8,
) -> Result<(), AllocError>
    ensures { OnOk result (arcs.new.items ≡ arcs.old.items ++ arc_to all.now rank awaited) }
{
    if is_blocked(all, awaited) && rank != awaited {
        arcs.push(Arc {
            from: rank,
            to: awaited,
        })?;
    }
    Ok(())
}

/// How far an arc goes.
fn reach(arc: Arc) -> u64
    ensures reach { result ≡ distance arc.from arc.to }
    ensures small { result < 256 }
{
    distance(arc.from as u64, arc.to as u64)
}

/// How far the farthest arc goes.
pub fn farthest(arcs: &[Arc]) -> u64
    ensures far { result ≡ farthest arcs.now }
    ensures small { result < 256 }
{
    let mut far = 0u64;
    let mut rest = arcs;
    while let [arc, after @ ..] = rest {
        far = far.max(reach(*arc));
        rest = after;
    }
    far
}

/// Where the texts beside the lanes stand.
pub fn beside(right: u64, far: u64) -> u64
    requires right { right < 2 ^ 40 }
    requires far { far < 256 }
    ensures beside { result ≡ beside right far }
    ensures small { result < 2 ^ 41 }
{
    if far == 0 {
        return right + 8;
    }
    right + 26 * far + 20
}

/// How far an arc bulges.
fn arc_out(x: u64, arc: Arc) -> u64
    requires { x < 2 ^ 40 }
    ensures { result ≡ arc_out x arc.from arc.to }
{
    if arc.from < arc.to {
        return x + 18 + 34 * reach(arc);
    }
    x + 6 + 30 * reach(arc)
}

fn leaves_at(y: u64, arc: Arc) -> u64
    requires from { 60 ≤ y }
    requires low { y < 2 ^ 40 }
    ensures { result ≡ leaves_at y arc.from arc.to }
{
    if arc.from < arc.to { y + 7 } else { y - 7 }
}

fn arrives_at(y: u64, arc: Arc) -> u64
    requires from { 60 ≤ y }
    requires low { y < 2 ^ 40 }
    ensures { result ≡ arrives_at y arc.from arc.to }
{
    if arc.from < arc.to { y - 7 } else { y + 7 }
}

/// An arc from a rank to one that it waits for.
pub fn push_arc(out: &mut Bytes, grid: &Grid, right: u64, arc: Arc) -> Result<(), AllocError>
    requires from { 108 ≤ right }
    requires small { right < 2 ^ 40 }
    ensures { OnOk result (out.new ≡ out.old ++ arc_text grid.now right arc) }
{
    let bulge = arc_out(right - 10, arc);
    let begin = leaves_at(grid.y(arc.from), arc);
    let end = arrives_at(grid.y(arc.to), arc);
    push_filled(
        out,
        b"<path class=\"m\" stroke=\"#d21f1f\" d=\"M% %C% % % % % %\" marker-end=\"url(#r)\"/>\n",
        &[
            Filler::Number(right - 10),
            Filler::Number(begin),
            Filler::Number(bulge),
            Filler::Number(begin),
            Filler::Number(bulge),
            Filler::Number(end),
            Filler::Number(right - 8),
            Filler::Number(end),
        ],
    )?;
    Ok(())
}

/// The ranks of a cycle, each waiting for the next.
fn push_round(out: &mut Bytes, ranks: &[u8]) -> Result<(), AllocError>
    ensures { OnOk result (out.new ≡ out.old ++ round_text ranks.now) }
{
    match ranks {
        [] => Ok(()),
        [first, others @ ..] => push_round_from(out, *first, others),
    }
}

fn push_round_from(out: &mut Bytes, first: u8, others: &[u8]) -> Result<(), AllocError>
    ensures { OnOk result (out.new ≡ out.old ++ round_text (first ∷ others.now)) }
{
    push_decimal(out, first as u64)?;
    push_nexts(out, others)?;
    push_text(out, b" waits for ")?;
    push_decimal(out, first as u64)?;
    Ok(())
}

/// The ranks that are waited for, but for the first.
fn push_nexts(out: &mut Bytes, others: &[u8]) -> Result<(), AllocError>
    ensures { OnOk result (out.new ≡ out.old ++ flat_map (λ rank. codes " waits for " ++ decimal_text rank) others.now) }
{
    let mut rest = others;
    while let [rank, after @ ..] = rest {
        push_text(out, b" waits for ")?;
        push_decimal(out, *rank as u64)?;
        rest = after;
    }
    Ok(())
}

fn push_cycle(out: &mut Bytes, y: u64, ranks: &Ranks) -> Result<(), AllocError>
    ensures { OnOk result (out.new ≡ out.old ++ drawn_cycle_text y ranks.now) }
{
    push_filled(
        out,
        b"<text class=\"b\" x=\"16\" y=\"%\">cycle: ",
        &[Filler::Number(y)],
    )?;
    push_round(out, ranks.as_slice())?;
    push_text(out, b"</text>\n")?;
    Ok(())
}

/// The cycles, one below the other.
pub fn push_cycles(out: &mut Bytes, y: u64, cycles: &[Ranks]) -> Result<(), AllocError>
    requires few { length cycles.now ≤ MOST_CYCLES }
    requires low { y < 2 ^ 41 }
    ensures { OnOk result (out.new ≡ out.old ++ cycles_text y cycles.now) }
{
    let mut y = y;
    let mut rest = cycles;
    while let [ranks, after @ ..] = rest {
        push_cycle(out, y, ranks)?;
        y += 14;
        rest = after;
    }
    Ok(())
}

fn push_source(out: &mut Bytes, source: &Source) -> Result<(), AllocError>
    ensures { OnOk result (out.new ≡ out.old ++ awaited_source_text source.now) }
{
    match source {
        Source::Any => push_text(out, b"any rank"),
        Source::From(rank) => {
            push_text(out, b"rank ")?;
            push_decimal(out, *rank as u64)
        }
        Source::Null => push_text(out, b"no rank"),
    }
}

fn push_tag(out: &mut Bytes, tag: &Tag) -> Result<(), AllocError>
    ensures { OnOk result (out.new ≡ out.old ++ awaited_tag_text tag.now) }
{
    match tag {
        Tag::Any => push_text(out, b"any tag"),
        Tag::Is(tag) => {
            push_text(out, b"tag ")?;
            push_decimal(out, *tag as u64)
        }
    }
}

fn push_message(out: &mut Bytes, source: &Source, tag: &Tag) -> Result<(), AllocError>
    ensures { OnOk result (out.new ≡ out.old ++ awaited_message_text source.now tag.now) }
{
    push_text(out, b"waits for ")?;
    push_source(out, source)?;
    push_text(out, b", ")?;
    push_tag(out, tag)
}

/// What a rank waits for.
fn push_wait(out: &mut Bytes, call: &Call, awaited: &[u8]) -> Result<(), AllocError>
    ensures { OnOk result (out.new ≡ out.old ++ drawn_wait_text call.now awaited.now) }
{
    match call {
        Call::Send { dest, .. } => push_receiver(out, *dest),
        Call::Post { source, tag, .. } => push_message(out, source, tag),
        Call::Enter { .. } => push_entering(out, awaited),
        Call::Peek { source, tag, .. } => push_message(out, source, tag),
        _ => Ok(()),
    }
}

fn push_receiver(out: &mut Bytes, receiver: u8) -> Result<(), AllocError>
    ensures { OnOk result (out.new ≡ out.old ++ receiver_text receiver) }
{
    push_text(out, b"waits for rank ")?;
    push_decimal(out, receiver as u64)?;
    push_text(out, b" to receive")
}

fn push_entering(out: &mut Bytes, awaited: &[u8]) -> Result<(), AllocError>
    ensures { OnOk result (out.new ≡ out.old ++ entering_text awaited.now) }
{
    push_text(out, b"waits for ")?;
    push_by_commas(out, awaited)?;
    push_text(out, b" to enter")
}

fn push_ended(out: &mut Bytes, is_there: bool) -> Result<(), AllocError>
    ensures { OnOk result (out.new ≡ out.old ++ has_ended_text is_there) }
{
    if is_there {
        return Ok(());
    }
    push_text(out, b", which has ended")
}

/// The first thing that a rank waits for.
fn push_waiting(out: &mut Bytes, all: &[Blocked], waits: &[Wait]) -> Result<(), AllocError>
    ensures { OnOk result (out.new ≡ out.old ++ drawn_waiting_text all.now waits.now) }
{
    match waits {
        [] => Ok(()),
        [wait, ..] => {
            push_wait(out, &wait.call, wait.awaited.as_slice())?;
            push_ended(out, is_any_blocked(all, wait.awaited.as_slice()))
        }
    }
}

/// A byte of an output.
fn push_byte(out: &mut Bytes, byte: u8) -> Result<(), AllocError>
    ensures { OnOk result (out.new ≡ out.old ++ byte_text byte) }
{
    match byte {
        38 => push_text(out, b"&amp;"),
        60 => push_text(out, b"&lt;"),
        62 => push_text(out, b"&gt;"),
        34 => push_text(out, b"&quot;"),
        39 => push_text(out, b"&apos;"),
        10 => push_text(out, b"\\n"),
        _ => push_plain(out, byte),
    }
}

fn push_plain(out: &mut Bytes, byte: u8) -> Result<(), AllocError>
    ensures { OnOk result (out.new ≡ out.old ++ plain_text byte) }
{
    if byte >= 32 && byte < 127 {
        out.push(byte)?;
        return Ok(());
    }
    push_text(out, b".")
}

fn push_dots(out: &mut Bytes, count: usize) -> Result<(), AllocError>
    ensures { OnOk result (out.new ≡ out.old ++ dots_text count) }
{
    if count > SHOWN {
        return push_text(out, b"..");
    }
    Ok(())
}

fn push_bytes(out: &mut Bytes, bytes: &[u8]) -> Result<(), AllocError>
    ensures { OnOk result (out.new ≡ out.old ++ flat_map byte_text bytes.now) }
{
    let mut rest = bytes;
    while let [byte, after @ ..] = rest {
        push_byte(out, *byte)?;
        rest = after;
    }
    Ok(())
}

/// The end of what a rank printed.
fn push_output(out: &mut Bytes, output: &[u8]) -> Result<(), AllocError>
    ensures { OnOk result (out.new ≡ out.old ++ drawn_output_text output.now) }
{
    push_dots(out, output.len())?;
    push_bytes(out, &output[output.len().saturating_sub(SHOWN)..])
}

/// What stands beside a lane.
fn beside_text(alloc: Global, all: &[Blocked], rank: u8, output: &[u8]) -> Result<Bytes, AllocError>
    ensures { IfOk result (λ text. text ≡ beside_text all.now rank output.now) }
{
    let mut text = Bytes::new(alloc);
    match blocked_at(all, rank) {
        Some(blocked) => push_waiting(&mut text, all, blocked.waits.as_slice())?,
        None => push_output(&mut text, output)?,
    }
    Ok(text)
}

/// What a rank printed, or nothing.
fn output_at<'a>(outputs: &'a [Bytes], rank: u8) -> &'a [u8]
    ensures { result.now ≡ slice_index_or outputs.entry.now rank [] }
{
    match outputs.get(rank as usize) {
        Some(output) => output.as_slice(),
        None => &[],
    }
}

/// What stands beside the lanes of so many ranks, which printed these outputs.
pub fn beside_texts(
    alloc: Global,
    all: &[Blocked],
    outputs: &[Bytes],
    ranks: u8,
) -> Result<Outputs, AllocError>
    ensures { IfOk result (λ texts. texts ≡ beside_texts all.now outputs.now ranks) }
{
    let mut texts = Outputs::new(alloc);
    for rank in 0..ranks {
        texts.push(beside_text(alloc, all, rank, output_at(outputs, rank))?)?;
    }
    Ok(texts)
}

/// How many characters the longest text has, of which at most 1000 count.
pub fn longest(texts: &[Bytes]) -> u64
    ensures longest { result ≡ longest texts.now }
    ensures few { result ≤ MOST_CHARACTERS }
{
    let mut most = 0u64;
    let mut rest = texts;
    while let [text, after @ ..] = rest {
        most = most.max(text.len().min(MOST_CHARACTERS) as u64);
        rest = after;
    }
    most
}

fn push_style(out: &mut Bytes, stuck: bool) -> Result<(), AllocError>
    ensures { OnOk result (out.new ≡ out.old ++ style_text stuck) }
{
    if stuck {
        return push_text(out, b"<text class=\"b\"");
    }
    push_text(out, b"<text class=\"t\"")
}

fn push_ending(
    out: &mut Bytes,
    grid: &Grid,
    all: &[Blocked],
    x: u64,
    rank: u8,
    text: &[u8],
) -> Result<(), AllocError>
    ensures { OnOk result (out.new ≡ out.old ++ drawn_ending_text grid.now all.now x rank text.now) }
{
    push_style(out, is_blocked(all, rank))?;
    push_filled(
        out,
        b" x=\"%\" y=\"%\">",
        &[Filler::Number(x), Filler::Number(grid.y(rank) + 4)],
    )?;
    push_text(out, text)?;
    push_text(out, b"</text>\n")
}

fn push_ending_at(
    out: &mut Bytes,
    grid: &Grid,
    all: &[Blocked],
    x: u64,
    texts: &[Bytes],
    rank: u8,
) -> Result<(), AllocError>
    ensures { OnOk result (out.new ≡ out.old ++ drawn_ending_text grid.now all.now x rank (slice_index_or texts.now rank [])) }
{
    push_ending(out, grid, all, x, rank, output_at(texts, rank))
}

/// The texts beside the lanes of so many ranks.
pub fn push_endings(
    out: &mut Bytes,
    grid: &Grid,
    all: &[Blocked],
    x: u64,
    texts: &[Bytes],
    ranks: u8,
) -> Result<(), AllocError>
    ensures { OnOk result (out.new ≡ out.old ++ endings_text grid.now all.now x texts.now ranks) }
{
    for rank in 0..ranks {
        push_ending_at(out, grid, all, x, texts, rank)?;
    }
    Ok(())
}
