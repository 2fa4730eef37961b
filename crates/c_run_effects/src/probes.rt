//! Probes, and what a status tells.
ghost use Rattle.std.specs.Prelude.{◌≡◌, ◌≤◌, option_map};
ghost use Rattle.c_program.specs.declared.effect.Rank as effect;
ghost use Rattle.c_program.specs.Tree as t;
ghost use Rattle.c_program.specs.Effects.{probe_effect};
ghost use Rattle.c_program.specs.View.{pure_expr, pure_probe, pure_reference};

use crate::arguments::envelope_of;
use crate::checks::{cell, count_in, optional_cell, status, wanted_tag};
use crate::comm::communicator_of;
use crate::results::{all_three, both};
use c_program::effect::{Effect, Rank};
use c_program::expr::{Reference, TypedExpr};
use c_program::mpi::ProbeCall;
use c_run_cells::state::RankState;
use mpi_call::call::Fault;
use mpi_call::limits::MOST_RANKS;

/// The envelope of the messages that a probe looks for (MPI 3.1, 3.2.3).
#[derive(Drop)]
struct Wanted<'a> {
    source: &'a TypedExpr,
    tag: &'a TypedExpr,
    comm: &'a TypedExpr,
}

/// `MPI_Probe`.
fn probe(
    rank: Rank,
    wanted: &Wanted,
    kept: &Option<Reference>,
    state: &RankState,
) -> Result<Effect, Fault>
    requires { rank.ranks ≤ MOST_RANKS }
    ensures { result ≡ probe_effect rank (t.probe (pure_expr wanted.now.source.now) (pure_expr wanted.now.tag.now) (pure_expr wanted.now.comm.now) (option_map pure_reference kept.now)) state.now }
{
    let envelope = envelope_of(wanted.source, wanted.tag, wanted.comm, state);
    let (envelope, kept) = both(envelope, status(kept, state))?;
    let comm = communicator_of(rank, state, envelope.comm)?;
    let source = comm.source(envelope.rank);
    let (source, tag, kept) = all_three(source, wanted_tag(envelope.tag), optional_cell(kept))?;
    Ok(Effect::Probes {
        comm: comm.number(),
        source,
        tag,
        waits: true,
        flag: None,
        status: kept,
    })
}

/// `MPI_Iprobe`.
fn iprobe(
    rank: Rank,
    wanted: &Wanted,
    flag: &Reference,
    kept: &Option<Reference>,
    state: &RankState,
) -> Result<Effect, Fault>
    requires { rank.ranks ≤ MOST_RANKS }
    ensures { result ≡ probe_effect rank (t.iprobe (pure_expr wanted.now.source.now) (pure_expr wanted.now.tag.now) (pure_expr wanted.now.comm.now) (pure_reference flag.now) (option_map pure_reference kept.now)) state.now }
{
    let envelope = envelope_of(wanted.source, wanted.tag, wanted.comm, state);
    let (envelope, flag, kept) = all_three(envelope, state.range(flag), status(kept, state))?;
    let comm = communicator_of(rank, state, envelope.comm)?;
    let source = comm.source(envelope.rank);
    let cells = both(cell(flag), optional_cell(kept));
    let (source, tag, (flag, kept)) = all_three(source, wanted_tag(envelope.tag), cells)?;
    Ok(Effect::Probes {
        comm: comm.number(),
        source,
        tag,
        waits: false,
        flag: Some(flag),
        status: kept,
    })
}

/// `MPI_Get_count`.
fn get_count(kept: &Option<Reference>, into: &Reference, state: &RankState) -> Result<Effect, Fault>
    ensures { (rank : effect.Rank) → result ≡ probe_effect rank (t.get_count (option_map pure_reference kept.now) (pure_reference into.now)) state.now }
{
    let (kept, into) = both(status(kept, state), state.range(into))?;
    let (kept, into) = both(optional_cell(kept), cell(into))?;
    Ok(Effect::Sets {
        cell: into,
        value: count_in(kept, state),
    })
}

/// The effect of a probe or of a look into a status, or its fault.
pub fn probe_effect(rank: Rank, call: &ProbeCall, state: &RankState) -> Result<Effect, Fault>
    requires { rank.ranks ≤ MOST_RANKS }
    ensures { result ≡ probe_effect rank (pure_probe call.now) state.now }
{
    match call {
        ProbeCall::Probe {
            source,
            tag,
            comm,
            status,
        } => probe(rank, &Wanted { source, tag, comm }, status, state),
        ProbeCall::Iprobe {
            source,
            tag,
            comm,
            flag,
            status,
        } => iprobe(rank, &Wanted { source, tag, comm }, flag, status, state),
        ProbeCall::GetCount { status, count } => get_count(status, count, state),
    }
}
