//! The waits text of a run.
ghost use Rattle.std.specs.Prelude.{◌≡◌, ◌<◌, ◌++◌, ℕ, List, [], OnOk, IfOk, flat_map};
ghost use Rattle.causes.specs.Clocks.{AreOfRanks};
ghost use Rattle.run_model.specs.declared.event.Event.{Event};
ghost use Rattle.run_model.specs.Allowed.{probe_of};
ghost use Rattle.run_model.specs.Lists.{world};
ghost use Rattle.run_model.specs.Views.{view_of};
ghost use Rattle.wait_graph.specs.declared.difference.Difference.TheVariants.{Comm as ByComm, Source as BySource, Tag as ByTag};
ghost use Rattle.wait_graph.specs.Opens.{opens_to, difference_unless};
ghost use Rattle.wait_graph.specs.Register.{IsRegister};
ghost use Rattle.wait_graph.specs.Taken.{taken_last};
ghost use Rattle.explanation_text.specs.WaitsTexts.{awaited_text, blocked_text, call_messages_text, cycle_text, difference_text, ended_text, from_ranks_text, awaited_ranks_text, graph_text, blocked_head_text, hopeless_ranks_text, hopeless_text, messages_text, open_text, start_text, stuck_text, taken_text, taken_text_from, taken_texts, wait_text, waiting_text, waits_text};

use mpi_call::acceptance::{is_source_of, is_tag_of};
use mpi_call::call::{Call, Comm, Halt, Source, Tag};
use mpi_call::lists::Ranks;
use run_model::ending::Ending;
use run_model::history::History;
use run_model::lists::all_ranks;
use run_text::call_text::push_call;
use run_text::group_text::push_group;
use run_text::recording::push_ending;
use srr_log::entry_text::push_name;
use std::alloc::{AllocError, Global};
use wait_graph::graph::{Blocked, Graph};
use wait_graph::message::{Open, Taken};
use wait_graph::reading::read;
use wait_graph::register::Register;
use wait_graph::wait::Wait;
use wiz_base::{Bytes, push_decimal, push_text};

/// The waits text: of a run of n ranks that is stuck each rank that waits and what it waits for, the cycles and the hopeless ranks; and how
/// the run ended. Reads the events once, and for each rank that waits all starts.
pub fn waits_text(
    alloc: Global,
    n: u8,
    history: &History,
    graph: &Graph,
    ending: &Ending,
) -> Result<Bytes, AllocError>
    requires { AreOfRanks n history.now.events }
    ensures { IfOk result (λ text. text ≡ waits_text n history.now.events graph.now ending.now) }
{
    let mut out = Bytes::new(alloc);
    push_stuck(alloc, &mut out, n, history, graph, ending)?;
    push_ending(&mut out, ending)?;
    Ok(out)
}

/// The ranks that wait in a run of n ranks that is stuck, and what each waits for. Reads the events once, and for each such rank all starts.
pub fn waiting_text(
    alloc: Global,
    n: u8,
    history: &History,
    graph: &Graph,
) -> Result<Bytes, AllocError>
    requires { AreOfRanks n history.now.events }
    ensures { IfOk result (λ text. text ≡ waiting_text n history.now.events graph.now) }
{
    let mut out = Bytes::new(alloc);
    let ranks = all_ranks(alloc, n)?;
    let run = read(alloc, n, history.as_slice())?;
    push_all_blocked(
        alloc,
        &mut out,
        n,
        ranks.as_slice(),
        &run.register,
        graph.blocked.as_slice(),
    )?;
    Ok(out)
}

/// Who waits for whom, where the run is stuck.
fn push_stuck(
    alloc: Global,
    out: &mut Bytes,
    n: u8,
    history: &History,
    graph: &Graph,
    ending: &Ending,
) -> Result<(), AllocError>
    requires { AreOfRanks n history.now.events }
    ensures { OnOk result (out.new ≡ out.old ++ stuck_text n history.now.events graph.now ending.now) }
{
    match ending {
        Ending::Halted(Halt::Stuck) => {
            let run = read(alloc, n, history.as_slice())?;
            push_graph(alloc, out, n, &run.register, graph)
        }
        _ => Ok(()),
    }
}

fn push_graph(
    alloc: Global,
    out: &mut Bytes,
    n: u8,
    register: &Register,
    graph: &Graph,
) -> Result<(), AllocError>
    ensures { OnOk result ((events : List Event) → IsRegister n events register.now → out.new ≡ out.old ++ graph_text n events graph.now) }
{
    let ranks = all_ranks(alloc, n)?;
    push_all_blocked(
        alloc,
        out,
        n,
        ranks.as_slice(),
        register,
        graph.blocked.as_slice(),
    )?;
    push_cycles(out, graph.cycles.as_slice())?;
    push_hopeless(out, graph.hopeless.as_slice())
}

/// The ranks that wait.
fn push_all_blocked(
    alloc: Global,
    out: &mut Bytes,
    n: u8,
    ranks: &[u8],
    register: &Register,
    blocked: &[Blocked],
) -> Result<(), AllocError>
    ensures { OnOk result ((events : List Event) → IsRegister n events register.now → ranks.now ≡ world n 0 → out.new ≡ out.old ++ flat_map (blocked_text n events) blocked.now) }
{
    let mut rest = blocked;
    while let [blocked, after @ ..] = rest {
        push_blocked(alloc, out, n, ranks, register, blocked)?;
        rest = after;
    }
    Ok(())
}

/// A rank that waits, its call, and what it waits for.
fn push_blocked(
    alloc: Global,
    out: &mut Bytes,
    n: u8,
    ranks: &[u8],
    register: &Register,
    blocked: &Blocked,
) -> Result<(), AllocError>
    ensures { OnOk result ((events : List Event) → IsRegister n events register.now → ranks.now ≡ world n 0 → out.new ≡ out.old ++ blocked_text n events blocked.now) }
{
    let opens = register.opens_to(alloc, n, blocked.rank)?;
    push_head(out, blocked)?;
    push_waits(
        out,
        ranks,
        register,
        blocked.rank,
        opens.as_slice(),
        blocked.waits.as_slice(),
    )
}

fn push_head(out: &mut Bytes, blocked: &Blocked) -> Result<(), AllocError>
    ensures { OnOk result (out.new ≡ out.old ++ blocked_head_text blocked.now) }
{
    push_text(out, b"rank ")?;
    push_decimal(out, blocked.rank as u64)?;
    push_text(out, b" call ")?;
    push_decimal(out, blocked.number as u64)?;
    push_text(out, b" ")?;
    push_call(out, &blocked.call)?;
    push_text(out, b"\n")
}

/// What a rank waits for.
fn push_waits(
    out: &mut Bytes,
    ranks: &[u8],
    register: &Register,
    me: u8,
    opens: &[Open],
    waits: &[Wait],
) -> Result<(), AllocError>
    ensures { OnOk result ((n : ℕ) (events : List Event) → IsRegister n events register.now → ranks.now ≡ world n 0 → out.new ≡ out.old ++ flat_map (wait_text n events me opens.now) waits.now) }
{
    let mut rest = waits;
    while let [wait, after @ ..] = rest {
        push_wait(out, ranks, register, me, opens, wait)?;
        rest = after;
    }
    Ok(())
}

/// One thing that a rank waits for.
fn push_wait(
    out: &mut Bytes,
    ranks: &[u8],
    register: &Register,
    me: u8,
    opens: &[Open],
    wait: &Wait,
) -> Result<(), AllocError>
    ensures { OnOk result ((n : ℕ) (events : List Event) → IsRegister n events register.now → ranks.now ≡ world n 0 → out.new ≡ out.old ++ wait_text n events me opens.now wait.now) }
{
    push_start(out, wait.start, &wait.call)?;
    push_from(out, register, wait.awaited.as_slice())?;
    push_call_messages(out, ranks, register, me, opens, &wait.call)
}

/// The start, where it is no probe.
fn push_start(out: &mut Bytes, start: Option<u32>, call: &Call) -> Result<(), AllocError>
    ensures { OnOk result (out.new ≡ out.old ++ start_text start call.now) }
{
    let Some(start) = start else {
        return Ok(());
    };
    push_text(out, b"start ")?;
    push_decimal(out, start as u64)?;
    push_text(out, b" ")?;
    push_call(out, call)?;
    push_text(out, b"\n")
}

/// The ranks for whom it waits, and which of them have ended.
fn push_from(out: &mut Bytes, register: &Register, awaited: &[u8]) -> Result<(), AllocError>
    ensures { OnOk result ((n : ℕ) (events : List Event) → IsRegister n events register.now → out.new ≡ out.old ++ awaited_ranks_text n events awaited.now) }
{
    match awaited {
        [] => push_text(out, b"from none\n"),
        [_, ..] => push_from_ranks(out, register, awaited),
    }
}

fn push_from_ranks(out: &mut Bytes, register: &Register, awaited: &[u8]) -> Result<(), AllocError>
    ensures { OnOk result ((n : ℕ) (events : List Event) → IsRegister n events register.now → out.new ≡ out.old ++ from_ranks_text n events awaited.now) }
{
    push_text(out, b"from")?;
    push_awaited(out, register, awaited)?;
    push_text(out, b"\n")
}

fn push_awaited(out: &mut Bytes, register: &Register, awaited: &[u8]) -> Result<(), AllocError>
    ensures { OnOk result ((n : ℕ) (events : List Event) → IsRegister n events register.now → out.new ≡ out.old ++ flat_map (awaited_text n events) awaited.now) }
{
    let mut rest = awaited;
    while let [rank, after @ ..] = rest {
        push_awaited_rank(out, register, *rank)?;
        rest = after;
    }
    Ok(())
}

fn push_awaited_rank(out: &mut Bytes, register: &Register, rank: u8) -> Result<(), AllocError>
    ensures { OnOk result ((n : ℕ) (events : List Event) → IsRegister n events register.now → out.new ≡ out.old ++ awaited_text n events rank) }
{
    push_text(out, b" ")?;
    push_decimal(out, rank as u64)?;
    push_ended(out, register.is_live(rank))
}

fn push_ended(out: &mut Bytes, is_live: bool) -> Result<(), AllocError>
    ensures { OnOk result (out.new ≡ out.old ++ ended_text is_live) }
{
    if is_live {
        return Ok(());
    }
    push_text(out, b" ended")
}

/// The messages of a receive or a probe.
fn push_call_messages(
    out: &mut Bytes,
    ranks: &[u8],
    register: &Register,
    me: u8,
    opens: &[Open],
    call: &Call,
) -> Result<(), AllocError>
    ensures { OnOk result ((n : ℕ) (events : List Event) → IsRegister n events register.now → ranks.now ≡ world n 0 → out.new ≡ out.old ++ call_messages_text n events me opens.now call.now) }
{
    match call {
        Call::Post {
            comm,
            source,
            tag,
            ..
        } => push_messages(out, ranks, register, me, opens, *comm, source, tag),
        Call::Peek {
            comm,
            source,
            tag,
            ..
        } => push_messages(out, ranks, register, me, opens, *comm, source, tag),
        _ => Ok(()),
    }
}

fn push_messages(
    out: &mut Bytes,
    ranks: &[u8],
    register: &Register,
    me: u8,
    opens: &[Open],
    comm: Comm,
    source: &Source,
    tag: &Tag,
) -> Result<(), AllocError>
    ensures { OnOk result ((n : ℕ) (events : List Event) → IsRegister n events register.now → ranks.now ≡ world n 0 → out.new ≡ out.old ++ messages_text n events opens.now (probe_of me comm source.now tag.now)) }
{
    push_all_taken(out, ranks, register, me, comm, source, tag)?;
    push_opens(out, opens, comm, source, tag)
}

/// Of each sender that the source names the message that was taken last.
fn push_all_taken(
    out: &mut Bytes,
    senders: &[u8],
    register: &Register,
    me: u8,
    comm: Comm,
    source: &Source,
    tag: &Tag,
) -> Result<(), AllocError>
    ensures { OnOk result ((n : ℕ) (events : List Event) → IsRegister n events register.now → out.new ≡ out.old ++ taken_texts (view_of events me) me comm source.now tag.now senders.now) }
{
    let mut rest = senders;
    while let [sender, after @ ..] = rest {
        push_taken_from(out, *sender, register, me, comm, source, tag)?;
        rest = after;
    }
    Ok(())
}

/// The same of one sender.
fn push_taken_from(
    out: &mut Bytes,
    sender: u8,
    register: &Register,
    me: u8,
    comm: Comm,
    source: &Source,
    tag: &Tag,
) -> Result<(), AllocError>
    ensures { OnOk result ((n : ℕ) (events : List Event) → IsRegister n events register.now → out.new ≡ out.old ++ taken_text_from (view_of events me) me comm source.now tag.now sender) }
{
    if is_source_of(source, sender) {
        return push_taken(out, me, register.taken_last(me, comm, tag, sender));
    }
    Ok(())
}

fn push_taken(out: &mut Bytes, me: u8, taken: Option<Taken>) -> Result<(), AllocError>
    ensures { OnOk result (out.new ≡ out.old ++ taken_text me taken) }
{
    let Some(taken) = taken else {
        return Ok(());
    };
    push_text(out, b"taken ")?;
    push_name(out, taken.name.rank, taken.name.start)?;
    push_text(out, b" at ")?;
    push_decimal(out, me as u64)?;
    push_text(out, b":")?;
    push_decimal(out, taken.call as u64)?;
    push_text(out, b"\n")
}

/// The messages that nobody has received.
fn push_opens(
    out: &mut Bytes,
    opens: &[Open],
    comm: Comm,
    source: &Source,
    tag: &Tag,
) -> Result<(), AllocError>
    ensures { OnOk result (out.new ≡ out.old ++ flat_map (open_text comm source.now tag.now) opens.now) }
{
    let mut rest = opens;
    while let [open, after @ ..] = rest {
        push_open(out, open, comm, source, tag)?;
        rest = after;
    }
    Ok(())
}

/// One of them, and in what it differs from those that are accepted.
fn push_open(
    out: &mut Bytes,
    found: &Open,
    comm: Comm,
    source: &Source,
    tag: &Tag,
) -> Result<(), AllocError>
    ensures { OnOk result (out.new ≡ out.old ++ open_text comm source.now tag.now found.now) }
{
    push_text(out, b"open ")?;
    push_name(out, found.name.rank, found.name.start)?;
    push_text(out, b" tag=")?;
    push_decimal(out, found.tag as u64)?;
    push_text(out, b" differs in")?;
    push_differences(
        out,
        found.comm == comm,
        is_source_of(source, found.name.rank),
        is_tag_of(tag, found.tag),
    )?;
    push_text(out, b"\n")
}

/// A word for each part that does not agree.
fn push_differences(out: &mut Bytes, comm: bool, source: bool, tag: bool) -> Result<(), AllocError>
    ensures { OnOk result (out.new ≡ out.old ++ flat_map difference_text (difference_unless comm ByComm ++ (difference_unless source BySource ++ difference_unless tag ByTag))) }
{
    if !comm {
        push_text(out, b" comm")?;
    }
    if !source {
        push_text(out, b" source")?;
    }
    if !tag {
        push_text(out, b" tag")?;
    }
    Ok(())
}

/// The cycles, each on a line of its own.
fn push_cycles(out: &mut Bytes, cycles: &[Ranks]) -> Result<(), AllocError>
    ensures { OnOk result (out.new ≡ out.old ++ flat_map cycle_text cycles.now) }
{
    let mut rest = cycles;
    while let [cycle, after @ ..] = rest {
        push_cycle(out, cycle.as_slice())?;
        rest = after;
    }
    Ok(())
}

fn push_cycle(out: &mut Bytes, cycle: &[u8]) -> Result<(), AllocError>
    ensures { OnOk result (out.new ≡ out.old ++ cycle_text cycle.now) }
{
    push_text(out, b"cycle")?;
    push_group(out, cycle)?;
    push_text(out, b"\n")
}

/// The hopeless ranks, if there are any.
fn push_hopeless(out: &mut Bytes, hopeless: &[u8]) -> Result<(), AllocError>
    ensures { OnOk result (out.new ≡ out.old ++ hopeless_text hopeless.now) }
{
    match hopeless {
        [] => Ok(()),
        _ => push_hopeless_ranks(out, hopeless),
    }
}

fn push_hopeless_ranks(out: &mut Bytes, hopeless: &[u8]) -> Result<(), AllocError>
    ensures { OnOk result (out.new ≡ out.old ++ hopeless_ranks_text hopeless.now) }
{
    push_text(out, b"hopeless")?;
    push_group(out, hopeless)?;
    push_text(out, b"\n")
}
