//! Collectives.
ghost use Rattle.std.specs.Prelude.{◌≡◌, ◌≤◌, ℤ, IfErr, IfOk, Err, None, Ok};
ghost use Rattle.c_program.specs.declared.effect.EnterInput.TheVariants.{Nothing as EntersNothing};
ghost use Rattle.c_program.specs.declared.effect.Into.TheVariants.{Nowhere};
ghost use Rattle.c_program.specs.Tree as t;
ghost use Rattle.c_program.specs.Effects.{at_root, collective_effect, communicator_of, count_of, enters, gets, reduces_for_all, same_count};
ghost use Rattle.c_program.specs.Values.{value};
ghost use Rattle.c_program.specs.View.{pure_buffer, pure_collective, pure_expr, pure_reduction};
ghost use Rattle.c_run_effects.specs.inside.Faults.{HasFault};

use crate::arguments::{buffers_of, ints_of, operands_of};
use crate::checks::{count_of, enters, gets, same_count};
use crate::comm::{Communicator, communicator_of, is_me};
use crate::results::{all_three, both};
use c_program::effect::{Collective, Effect, EnterInput, Into, Rank};
use c_program::expr::TypedExpr;
use c_program::mpi::{Buffer, CollectiveCall, Reduction};
use c_program::range::Range;
use c_run_cells::state::RankState;
use mpi_call::call::{Fault, Kind};
use mpi_call::limits::MOST_RANKS;

/// A collective with no root and no operation.
pub fn joined(
    comm: &Communicator,
    kind: Kind,
    count: u32,
    entered: EnterInput,
    into: Into,
) -> Collective
    ensures { result ≡ record { comm = comm.now.number; kind = kind; root = None; op = None; count = count; entered = entered; into = into } }
{
    Collective {
        comm: comm.number(),
        kind,
        root: None,
        op: None,
        count,
        entered,
        into,
    }
}

/// The communicator of an expression.
fn comm_of<'a>(
    rank: Rank,
    comm: &TypedExpr,
    state: &'a RankState,
) -> Result<Communicator<'a>, Fault>
    requires { rank.ranks ≤ MOST_RANKS }
    ensures comm { IfOk result (λ found. (number : ℤ) × (value (pure_expr comm.now) state.now ≡ Ok number) × (communicator_of rank state.now number ≡ Ok found)) }
    ensures fault { IfErr result (λ fault. HasFault fault (value (pure_expr comm.now) state.now) (λ number. communicator_of rank state.now number ≡ Err fault)) }
{
    let number = state.value(comm)?;
    communicator_of(rank, state, number)
}

// ---- what only the root enters, gets or checks

/// A count, and where it is asked for a second one that has to be the same.
fn count_for_both(checks: bool, count: i32, other: i32) -> Result<u32, Fault>
    ensures count { IfOk result (λ n. count_of count ≡ Ok n) }
    ensures other { IfOk result (λ n. at_root checks n (same_count n other) ≡ Ok n) }
    ensures fault { IfErr result (λ fault. HasFault fault (count_of count) (λ n. at_root checks n (same_count n other) ≡ Err fault)) }
{
    let count = count_of(count)?;
    if checks {
        same_count(count, other)
    } else {
        Ok(count)
    }
}

fn enters_at_root(is_root: bool, n: usize, cells: Range) -> Result<EnterInput, Fault>
    ensures { result ≡ at_root is_root EntersNothing (enters n cells) }
{
    if is_root {
        enters(n, cells)
    } else {
        Ok(EnterInput::Nothing)
    }
}

fn gets_at_root(is_root: bool, n: usize, cells: Range) -> Result<Into, Fault>
    ensures { result ≡ at_root is_root Nowhere (gets n cells) }
{
    if is_root {
        gets(n, cells)
    } else {
        Ok(Into::Nowhere)
    }
}

// ---- collectives

/// `MPI_Barrier`.
fn barrier(rank: Rank, comm: &TypedExpr, state: &RankState) -> Result<Effect, Fault>
    requires { rank.ranks ≤ MOST_RANKS }
    ensures { result ≡ collective_effect rank (t.barrier (pure_expr comm.now)) state.now }
{
    let comm = comm_of(rank, comm, state)?;
    Ok(Effect::Joins(joined(&comm, Kind::Barrier, 0, EnterInput::Nothing, Into::Nowhere)))
}

/// `MPI_Bcast`.
fn bcast(
    rank: Rank,
    buffer: &Buffer,
    root: &TypedExpr,
    comm: &TypedExpr,
    state: &RankState,
) -> Result<Effect, Fault>
    requires { rank.ranks ≤ MOST_RANKS }
    ensures { result ≡ collective_effect rank (t.bcast (pure_buffer buffer.now) (pure_expr root.now) (pure_expr comm.now)) state.now }
{
    let ints = ints_of(buffer, state);
    let (ints, root, comm) = all_three(ints, state.value(root), comm_of(rank, comm, state))?;
    let (count, root) = both(count_of(ints.count), comm.member(root))?;
    let cells = ints.cells.first(count)?;
    let entered = if is_me(rank, root) {
        EnterInput::Cells(cells)
    } else {
        EnterInput::Nothing
    };
    Ok(Effect::Joins(Collective {
        root: Some(root),
        ..joined(&comm, Kind::Bcast, count, entered, Into::Cells(cells))
    }))
}

/// `MPI_Gather`.
fn gather(
    rank: Rank,
    out: &Buffer,
    buffer: &Buffer,
    root: &TypedExpr,
    comm: &TypedExpr,
    state: &RankState,
) -> Result<Effect, Fault>
    requires { rank.ranks ≤ MOST_RANKS }
    ensures { result ≡ collective_effect rank (t.gather (pure_buffer out.now) (pure_buffer buffer.now) (pure_expr root.now) (pure_expr comm.now)) state.now }
{
    let buffers = buffers_of(out, buffer, state);
    let (buffers, root, comm) = all_three(buffers, state.value(root), comm_of(rank, comm, state))?;
    let count = count_for_both(comm.is_root(rank, root), buffers.out_count, buffers.count);
    let (count, root) = both(count, comm.member(root))?;
    let entered = enters(count as usize, buffers.out_cells);
    let into = gets_at_root(is_me(rank, root), comm.pieces(count), buffers.cells);
    let (entered, into) = both(entered, into)?;
    Ok(Effect::Joins(Collective {
        root: Some(root),
        ..joined(&comm, Kind::Gather, count, entered, into)
    }))
}

/// `MPI_Scatter`.
fn scatter(
    rank: Rank,
    out: &Buffer,
    buffer: &Buffer,
    root: &TypedExpr,
    comm: &TypedExpr,
    state: &RankState,
) -> Result<Effect, Fault>
    requires { rank.ranks ≤ MOST_RANKS }
    ensures { result ≡ collective_effect rank (t.scatter (pure_buffer out.now) (pure_buffer buffer.now) (pure_expr root.now) (pure_expr comm.now)) state.now }
{
    let buffers = buffers_of(out, buffer, state);
    let (buffers, root, comm) = all_three(buffers, state.value(root), comm_of(rank, comm, state))?;
    let count = count_for_both(comm.is_root(rank, root), buffers.count, buffers.out_count);
    let (count, root) = both(count, comm.member(root))?;
    let entered = enters_at_root(is_me(rank, root), comm.pieces(count), buffers.out_cells);
    let (entered, into) = both(entered, gets(count as usize, buffers.cells))?;
    Ok(Effect::Joins(Collective {
        root: Some(root),
        ..joined(&comm, Kind::Scatter, count, entered, into)
    }))
}

/// `MPI_Allgather`.
fn allgather(
    rank: Rank,
    out: &Buffer,
    buffer: &Buffer,
    comm: &TypedExpr,
    state: &RankState,
) -> Result<Effect, Fault>
    requires { rank.ranks ≤ MOST_RANKS }
    ensures { result ≡ collective_effect rank (t.allgather (pure_buffer out.now) (pure_buffer buffer.now) (pure_expr comm.now)) state.now }
{
    let (buffers, comm) = both(buffers_of(out, buffer, state), comm_of(rank, comm, state))?;
    let count = count_for_both(true, buffers.out_count, buffers.count)?;
    let entered = enters(count as usize, buffers.out_cells);
    let (entered, into) = both(entered, gets(comm.pieces(count), buffers.cells))?;
    Ok(Effect::Joins(joined(&comm, Kind::Allgather, count, entered, into)))
}

/// `MPI_Alltoall`.
fn alltoall(
    rank: Rank,
    out: &Buffer,
    buffer: &Buffer,
    comm: &TypedExpr,
    state: &RankState,
) -> Result<Effect, Fault>
    requires { rank.ranks ≤ MOST_RANKS }
    ensures { result ≡ collective_effect rank (t.alltoall (pure_buffer out.now) (pure_buffer buffer.now) (pure_expr comm.now)) state.now }
{
    let (buffers, comm) = both(buffers_of(out, buffer, state), comm_of(rank, comm, state))?;
    let count = count_for_both(true, buffers.out_count, buffers.count)?;
    let entered = enters(comm.pieces(count), buffers.out_cells);
    let (entered, into) = both(entered, gets(comm.pieces(count), buffers.cells))?;
    Ok(Effect::Joins(joined(&comm, Kind::Alltoall, count, entered, into)))
}

/// `MPI_Reduce`.
fn reduce(
    rank: Rank,
    reduction: &Reduction,
    root: &TypedExpr,
    comm: &TypedExpr,
    state: &RankState,
) -> Result<Effect, Fault>
    requires { rank.ranks ≤ MOST_RANKS }
    ensures { result ≡ collective_effect rank (t.reduce (pure_reduction reduction.now) (pure_expr root.now) (pure_expr comm.now)) state.now }
{
    let operands = operands_of(reduction, state);
    let (operands, root, comm) = all_three(
        operands,
        state.value(root),
        comm_of(rank, comm, state),
    )?;
    let (count, root) = both(count_of(operands.count), comm.member(root))?;
    let entered = enters(count as usize, operands.send);
    let into = gets_at_root(is_me(rank, root), count as usize, operands.receive);
    let (entered, into) = both(entered, into)?;
    Ok(Effect::Joins(Collective {
        root: Some(root),
        op: Some(reduction.op),
        ..joined(&comm, Kind::Reduce, count, entered, into)
    }))
}

/// `MPI_Allreduce` and `MPI_Scan`.
fn reduces_for_all(
    rank: Rank,
    kind: Kind,
    reduction: &Reduction,
    comm: &TypedExpr,
    state: &RankState,
) -> Result<Effect, Fault>
    requires { rank.ranks ≤ MOST_RANKS }
    ensures { result ≡ reduces_for_all rank kind (pure_reduction reduction.now) (pure_expr comm.now) state.now }
{
    let (operands, comm) = both(operands_of(reduction, state), comm_of(rank, comm, state))?;
    let count = count_of(operands.count)?;
    let entered = enters(count as usize, operands.send);
    let (entered, into) = both(entered, gets(count as usize, operands.receive))?;
    Ok(Effect::Joins(Collective {
        op: Some(reduction.op),
        ..joined(&comm, kind, count, entered, into)
    }))
}

/// The effect of a collective, or its fault.
pub fn collective_effect(
    rank: Rank,
    call: &CollectiveCall,
    state: &RankState,
) -> Result<Effect, Fault>
    requires { rank.ranks ≤ MOST_RANKS }
    ensures { result ≡ collective_effect rank (pure_collective call.now) state.now }
{
    match call {
        CollectiveCall::Barrier { comm } => barrier(rank, comm, state),
        CollectiveCall::Bcast { buffer, root, comm } => bcast(rank, buffer, root, comm, state),
        CollectiveCall::Gather {
            send,
            receive,
            root,
            comm,
        } => gather(rank, send, receive, root, comm, state),
        CollectiveCall::Scatter {
            send,
            receive,
            root,
            comm,
        } => scatter(rank, send, receive, root, comm, state),
        CollectiveCall::Allgather {
            send,
            receive,
            comm,
        } => allgather(rank, send, receive, comm, state),
        CollectiveCall::Alltoall {
            send,
            receive,
            comm,
        } => alltoall(rank, send, receive, comm, state),
        CollectiveCall::Reduce {
            reduction,
            root,
            comm,
        } => reduce(rank, reduction, root, comm, state),
        CollectiveCall::Allreduce { reduction, comm } => {
            reduces_for_all(rank, Kind::Allreduce, reduction, comm, state)
        }
        CollectiveCall::Scan { reduction, comm } => {
            reduces_for_all(rank, Kind::Scan, reduction, comm, state)
        }
    }
}
