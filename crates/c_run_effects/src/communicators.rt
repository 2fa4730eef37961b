//! Communicators: their members, and what makes and frees them.
ghost use Rattle.std.specs.Prelude.{◌≡◌, ◌≤◌};
ghost use Rattle.c_program.specs.declared.effect.Rank as effect;
ghost use Rattle.c_program.specs.Tree as t;
ghost use Rattle.c_program.specs.Effects.{communicator_effect};
ghost use Rattle.c_program.specs.View.{pure_communicator, pure_expr, pure_reference};

use crate::checks::{cell, colour};
use crate::collectives::joined;
use crate::comm::communicator_of;
use crate::results::{all_three, both};
use c_program::constants::NULL;
use c_program::effect::{Effect, EnterInput, Into, Rank};
use c_program::expr::{Reference, TypedExpr};
use c_program::mpi::CommunicatorCall;
use c_run_cells::state::RankState;
use mpi_call::call::{Fault, Kind};
use mpi_call::limits::MOST_RANKS;

/// `MPI_Comm_size`.
fn comm_size(
    rank: Rank,
    comm: &TypedExpr,
    into: &Reference,
    state: &RankState,
) -> Result<Effect, Fault>
    requires { rank.ranks ≤ MOST_RANKS }
    ensures { result ≡ communicator_effect rank (t.comm_size (pure_expr comm.now) (pure_reference into.now)) state.now }
{
    let (comm, into) = both(state.value(comm), state.range(into))?;
    let (comm, into) = both(communicator_of(rank, state, comm), cell(into))?;
    Ok(Effect::Sets {
        cell: into,
        value: comm.size(),
    })
}

/// `MPI_Comm_rank`.
fn comm_rank(
    rank: Rank,
    comm: &TypedExpr,
    into: &Reference,
    state: &RankState,
) -> Result<Effect, Fault>
    requires { rank.ranks ≤ MOST_RANKS }
    ensures { result ≡ communicator_effect rank (t.comm_rank (pure_expr comm.now) (pure_reference into.now)) state.now }
{
    let (comm, into) = both(state.value(comm), state.range(into))?;
    let (comm, into) = both(communicator_of(rank, state, comm), cell(into))?;
    Ok(Effect::Sets {
        cell: into,
        value: comm.rank_of(rank.number),
    })
}

/// `MPI_Comm_dup`.
fn comm_dup(
    rank: Rank,
    comm: &TypedExpr,
    into: &Reference,
    state: &RankState,
) -> Result<Effect, Fault>
    requires { rank.ranks ≤ MOST_RANKS }
    ensures { result ≡ communicator_effect rank (t.comm_dup (pure_expr comm.now) (pure_reference into.now)) state.now }
{
    let (comm, into) = both(state.value(comm), state.range(into))?;
    let (comm, into) = both(communicator_of(rank, state, comm), cell(into))?;
    Ok(Effect::Joins(joined(&comm, Kind::Dup, 0, EnterInput::Nothing, Into::Handle(into))))
}

/// `MPI_Comm_split`.
fn comm_split(
    rank: Rank,
    comm: &TypedExpr,
    color: &TypedExpr,
    key: &TypedExpr,
    into: &Reference,
    state: &RankState,
) -> Result<Effect, Fault>
    requires { rank.ranks ≤ MOST_RANKS }
    ensures { result ≡ communicator_effect rank (t.comm_split (pure_expr comm.now) (pure_expr color.now) (pure_expr key.now) (pure_reference into.now)) state.now }
{
    let comm_and_color = both(state.value(comm), state.value(color));
    let ((comm, color), key, into) = all_three(
        comm_and_color,
        state.value(key),
        state.range(into),
    )?;
    let (comm, color, into) = all_three(
        communicator_of(rank, state, comm),
        colour(color),
        cell(into),
    )?;
    Ok(Effect::Joins(joined(
        &comm,
        Kind::Split,
        0,
        EnterInput::Pair(color, key),
        Into::Handle(into),
    )))
}

/// `MPI_Comm_free`: the handle is null afterwards.
fn comm_free(into: &Reference, state: &RankState) -> Result<Effect, Fault>
    ensures { (rank : effect.Rank) → result ≡ communicator_effect rank (t.comm_free (pure_reference into.now)) state.now }
{
    let into = state.range(into)?;
    let into = cell(into)?;
    Ok(Effect::Sets {
        cell: into,
        value: NULL,
    })
}

/// The effect of a call about communicators, or its fault.
pub fn communicator_effect(
    rank: Rank,
    call: &CommunicatorCall,
    state: &RankState,
) -> Result<Effect, Fault>
    requires { rank.ranks ≤ MOST_RANKS }
    ensures { result ≡ communicator_effect rank (pure_communicator call.now) state.now }
{
    match call {
        CommunicatorCall::Size { comm, size } => comm_size(rank, comm, size, state),
        CommunicatorCall::Rank { comm, rank: into } => comm_rank(rank, comm, into, state),
        CommunicatorCall::Dup { comm, made } => comm_dup(rank, comm, made, state),
        CommunicatorCall::Split {
            comm,
            color,
            key,
            made,
        } => comm_split(rank, comm, color, key, made, state),
        CommunicatorCall::Free { comm } => comm_free(comm, state),
    }
}
