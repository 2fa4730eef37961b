//! Sends and receives.
ghost use Rattle.std.specs.Prelude.{◌≡◌, ◌≤◌, option_map};
ghost use Rattle.c_program.specs.Tree as t;
ghost use Rattle.c_program.specs.Effects.{isend_effect, message, message_effect, receive, send_after, send_effect, sends, sends_from};
ghost use Rattle.c_program.specs.View.{pure_expr, pure_incoming, pure_message, pure_outgoing, pure_reference};

use crate::arguments::{envelope_of, ints_of};
use crate::checks::{cell, count_of, optional_cell, status, tag_of, wanted_tag};
use crate::comm::{Communicator, communicator_of};
use crate::results::{all_three, both};
use c_program::effect::{Effect, Message, Rank, Receive, Start};
use c_program::expr::{Reference, TypedExpr};
use c_program::mpi::{Incoming, MessageCall, Outgoing};
use c_program::range::Range;
use c_run_cells::state::RankState;
use mpi_call::call::{Fault, Source, Tag};
use mpi_call::limits::MOST_RANKS;

fn message(comm: &Communicator, dest: u8, tag: u32, ints: Range, sync: bool) -> Message
    ensures { result ≡ message comm.now dest tag ints sync }
{
    Message {
        comm: comm.number(),
        dest,
        tag,
        ints,
        sync,
    }
}

fn receive(comm: &Communicator, source: Source, tag: Tag, buffer: Range) -> Receive
    ensures { result ≡ receive comm.now source tag buffer }
{
    Receive {
        comm: comm.number(),
        source,
        tag,
        buffer,
    }
}

/// A send until it is complete, as a standard one is at its start. None is made to `MPI_PROC_NULL`.
fn sends(comm: &Communicator, dest: Option<u8>, tag: u32, ints: Range, sync: bool) -> Effect
    ensures { result ≡ sends comm.now dest tag ints sync }
{
    match dest {
        Some(dest) if sync => Effect::Sends(message(comm, dest, tag, ints, true)),
        Some(dest) => Effect::Starts {
            start: Start::Send(message(comm, dest, tag, ints, false)),
            request: None,
        },
        None => Effect::Nothing,
    }
}

/// A nonblocking send. To `MPI_PROC_NULL` it starts what is complete at once.
fn sends_from(
    comm: &Communicator,
    dest: Option<u8>,
    tag: u32,
    ints: Range,
    sync: bool,
    request: u32,
) -> Effect
    ensures { result ≡ sends_from comm.now dest tag ints sync request }
{
    let start = match dest {
        Some(dest) => Start::Send(message(comm, dest, tag, ints, sync)),
        None => Start::Receive(receive(comm, Source::Null, Tag::Is(tag), Range::nothing())),
    };
    Effect::Starts {
        start,
        request: Some(request),
    }
}

fn send_after(comm: &Communicator, dest: Option<u8>, tag: u32, ints: Range) -> Option<Message>
    ensures { result ≡ send_after comm.now dest tag ints }
{
    match dest {
        Some(dest) => Some(message(comm, dest, tag, ints, false)),
        None => None,
    }
}

/// `MPI_Send`, and `MPI_Ssend` where it is synchronous.
fn send(
    rank: Rank,
    outgoing: &Outgoing,
    comm: &TypedExpr,
    sync: bool,
    state: &RankState,
) -> Result<Effect, Fault>
    requires { rank.ranks ≤ MOST_RANKS }
    ensures { result ≡ send_effect rank (pure_outgoing outgoing.now) (pure_expr comm.now) sync state.now }
{
    let ints = ints_of(&outgoing.buffer, state);
    let envelope = envelope_of(&outgoing.dest, &outgoing.tag, comm, state);
    let (ints, envelope) = both(ints, envelope)?;
    let comm = communicator_of(rank, state, envelope.comm)?;
    let count = count_of(ints.count);
    let dest = comm.destination(envelope.rank);
    let (count, dest, tag) = all_three(count, dest, tag_of(envelope.tag))?;
    let cells = ints.cells.first(count)?;
    Ok(sends(&comm, dest, tag, cells, sync))
}

/// `MPI_Recv`.
fn recv(
    rank: Rank,
    incoming: &Incoming,
    comm: &TypedExpr,
    kept: &Option<Reference>,
    state: &RankState,
) -> Result<Effect, Fault>
    requires { rank.ranks ≤ MOST_RANKS }
    ensures { result ≡ message_effect rank (t.recv (pure_incoming incoming.now) (pure_expr comm.now) (option_map pure_reference kept.now)) state.now }
{
    let ints = ints_of(&incoming.buffer, state);
    let envelope = envelope_of(&incoming.source, &incoming.tag, comm, state);
    let (ints, envelope, kept) = all_three(ints, envelope, status(kept, state))?;
    let comm = communicator_of(rank, state, envelope.comm)?;
    let count = count_of(ints.count);
    let source = comm.source(envelope.rank);
    let (count, source, tag) = all_three(count, source, wanted_tag(envelope.tag))?;
    let (cells, kept) = both(ints.cells.first(count), optional_cell(kept))?;
    Ok(Effect::Receives {
        receive: receive(&comm, source, tag, cells),
        send: None,
        status: kept,
    })
}

/// `MPI_Isend`, and `MPI_Issend` where it is synchronous.
fn isend(
    rank: Rank,
    outgoing: &Outgoing,
    comm: &TypedExpr,
    request: &Reference,
    sync: bool,
    state: &RankState,
) -> Result<Effect, Fault>
    requires { rank.ranks ≤ MOST_RANKS }
    ensures { result ≡ isend_effect rank (pure_outgoing outgoing.now) (pure_expr comm.now) (pure_reference request.now) sync state.now }
{
    let ints = ints_of(&outgoing.buffer, state);
    let envelope = envelope_of(&outgoing.dest, &outgoing.tag, comm, state);
    let (ints, envelope, request) = all_three(ints, envelope, state.range(request))?;
    let comm = communicator_of(rank, state, envelope.comm)?;
    let count = count_of(ints.count);
    let dest = comm.destination(envelope.rank);
    let (count, dest, tag) = all_three(count, dest, tag_of(envelope.tag))?;
    let (cells, request) = both(ints.cells.first(count), cell(request))?;
    Ok(sends_from(&comm, dest, tag, cells, sync, request))
}

/// `MPI_Irecv`.
fn irecv(
    rank: Rank,
    incoming: &Incoming,
    comm: &TypedExpr,
    request: &Reference,
    state: &RankState,
) -> Result<Effect, Fault>
    requires { rank.ranks ≤ MOST_RANKS }
    ensures { result ≡ message_effect rank (t.irecv (pure_incoming incoming.now) (pure_expr comm.now) (pure_reference request.now)) state.now }
{
    let ints = ints_of(&incoming.buffer, state);
    let envelope = envelope_of(&incoming.source, &incoming.tag, comm, state);
    let (ints, envelope, request) = all_three(ints, envelope, state.range(request))?;
    let comm = communicator_of(rank, state, envelope.comm)?;
    let count = count_of(ints.count);
    let source = comm.source(envelope.rank);
    let (count, source, tag) = all_three(count, source, wanted_tag(envelope.tag))?;
    let (cells, request) = both(ints.cells.first(count), cell(request))?;
    Ok(Effect::Starts {
        start: Start::Receive(receive(&comm, source, tag, cells)),
        request: Some(request),
    })
}

/// `MPI_Sendrecv`.
fn sendrecv(
    rank: Rank,
    outgoing: &Outgoing,
    incoming: &Incoming,
    comm: &TypedExpr,
    kept: &Option<Reference>,
    state: &RankState,
) -> Result<Effect, Fault>
    requires { rank.ranks ≤ MOST_RANKS }
    ensures { result ≡ message_effect rank (t.sendrecv (pure_outgoing outgoing.now) (pure_incoming incoming.now) (pure_expr comm.now) (option_map pure_reference kept.now)) state.now }
{
    let out = ints_of(&outgoing.buffer, state);
    let dest = state.value(&outgoing.dest);
    let (out, dest, send_tag) = all_three(out, dest, state.value(&outgoing.tag))?;
    let ints = ints_of(&incoming.buffer, state);
    let envelope = envelope_of(&incoming.source, &incoming.tag, comm, state);
    let (ints, envelope, kept) = all_three(ints, envelope, status(kept, state))?;
    let comm = communicator_of(rank, state, envelope.comm)?;
    let counts = both(count_of(out.count), count_of(ints.count));
    let ranks = both(comm.destination(dest), comm.source(envelope.rank));
    let tags = both(tag_of(send_tag), wanted_tag(envelope.tag));
    let ((out_count, count), (dest, source), (send_tag, tag)) = all_three(counts, ranks, tags)?;
    let out_cells = out.cells.first(out_count);
    let (out_cells, cells, kept) = all_three(
        out_cells,
        ints.cells.first(count),
        optional_cell(kept),
    )?;
    Ok(Effect::Receives {
        receive: receive(&comm, source, tag, cells),
        send: send_after(&comm, dest, send_tag, out_cells),
        status: kept,
    })
}

/// The effect of a send or a receive, or its fault.
pub fn message_effect(rank: Rank, call: &MessageCall, state: &RankState) -> Result<Effect, Fault>
    requires { rank.ranks ≤ MOST_RANKS }
    ensures { result ≡ message_effect rank (pure_message call.now) state.now }
{
    match call {
        MessageCall::Send {
            message: outgoing,
            comm,
        } => send(rank, outgoing, comm, false, state),
        MessageCall::Ssend {
            message: outgoing,
            comm,
        } => send(rank, outgoing, comm, true, state),
        MessageCall::Recv {
            message: incoming,
            comm,
            status,
        } => recv(rank, incoming, comm, status, state),
        MessageCall::Isend {
            message: outgoing,
            comm,
            request,
        } => isend(rank, outgoing, comm, request, false, state),
        MessageCall::Issend {
            message: outgoing,
            comm,
            request,
        } => isend(rank, outgoing, comm, request, true, state),
        MessageCall::Irecv {
            message: incoming,
            comm,
            request,
        } => irecv(rank, incoming, comm, request, state),
        MessageCall::Sendrecv {
            send,
            receive,
            comm,
            status,
        } => sendrecv(rank, send, receive, comm, status, state),
    }
}
