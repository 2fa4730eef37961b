//! Arguments that several MPI calls have, evaluated together. They are not checked yet.
ghost use Rattle.std.specs.Prelude.{◌≡◌, IfErr, IfOk, Err, Ok};
ghost use Rattle.c_program.specs.Values.{range, value};
ghost use Rattle.c_program.specs.View.{pure_expr, pure_reference};
ghost use Rattle.c_run_effects.specs.inside.Faults.{HasFault};

use crate::results::{all_three, both};
use c_program::expr::TypedExpr;
use c_program::mpi::{Buffer, Reduction};
use c_program::range::Range;
use c_run_cells::state::RankState;
use mpi_call::call::Fault;

/// The cells of a buffer, and how many ints are meant.
#[derive(Clone, Copy)]
pub struct BufferInts {
    pub cells: Range,
    pub count: i32,
}

/// Where the ints come from that a member gives, and where those go to that it gets.
#[derive(Clone, Copy)]
pub struct Buffers {
    pub out_cells: Range,
    pub out_count: i32,
    pub cells: Range,
    pub count: i32,
}

/// What a member gives to a reduction, where what it gets goes, and how many ints.
#[derive(Clone, Copy)]
pub struct Operands {
    pub send: Range,
    pub receive: Range,
    pub count: i32,
}

/// The other rank of a message, its tag and its communicator.
#[derive(Clone, Copy)]
pub struct Envelope {
    pub rank: i32,
    pub tag: i32,
    pub comm: i32,
}

pub fn ints_of(buffer: &Buffer, state: &RankState) -> Result<BufferInts, Fault>
    ensures cells { IfOk result (λ ints. range (pure_reference buffer.now.cells) state.now ≡ Ok ints.cells) }
    ensures count { IfOk result (λ ints. value (pure_expr buffer.now.count) state.now ≡ Ok ints.count) }
    ensures fault { IfErr result (λ fault. HasFault fault (range (pure_reference buffer.now.cells) state.now) (λ _. value (pure_expr buffer.now.count) state.now ≡ Err fault)) }
{
    let (cells, count) = both(state.range(&buffer.cells), state.value(&buffer.count))?;
    Ok(BufferInts { cells, count })
}

pub fn buffers_of(out: &Buffer, buffer: &Buffer, state: &RankState) -> Result<Buffers, Fault>
    ensures out_cells { IfOk result (λ all. range (pure_reference out.now.cells) state.now ≡ Ok all.out_cells) }
    ensures out_count { IfOk result (λ all. value (pure_expr out.now.count) state.now ≡ Ok all.out_count) }
    ensures cells { IfOk result (λ all. range (pure_reference buffer.now.cells) state.now ≡ Ok all.cells) }
    ensures count { IfOk result (λ all. value (pure_expr buffer.now.count) state.now ≡ Ok all.count) }
    ensures fault { IfErr result (λ fault.
        HasFault fault (range (pure_reference out.now.cells) state.now) (λ _.
        HasFault fault (value (pure_expr out.now.count) state.now) (λ _.
        HasFault fault (range (pure_reference buffer.now.cells) state.now) (λ _.
        value (pure_expr buffer.now.count) state.now ≡ Err fault)))) }
{
    let (out, buffer) = both(ints_of(out, state), ints_of(buffer, state))?;
    Ok(Buffers {
        out_cells: out.cells,
        out_count: out.count,
        cells: buffer.cells,
        count: buffer.count,
    })
}

pub fn operands_of(reduction: &Reduction, state: &RankState) -> Result<Operands, Fault>
    ensures send { IfOk result (λ all. range (pure_reference reduction.now.send) state.now ≡ Ok all.send) }
    ensures receive { IfOk result (λ all. range (pure_reference reduction.now.receive) state.now ≡ Ok all.receive) }
    ensures count { IfOk result (λ all. value (pure_expr reduction.now.count) state.now ≡ Ok all.count) }
    ensures fault { IfErr result (λ fault.
        HasFault fault (range (pure_reference reduction.now.send) state.now) (λ _.
        HasFault fault (range (pure_reference reduction.now.receive) state.now) (λ _.
        value (pure_expr reduction.now.count) state.now ≡ Err fault))) }
{
    let send = state.range(&reduction.send);
    let receive = state.range(&reduction.receive);
    let (send, receive, count) = all_three(send, receive, state.value(&reduction.count))?;
    Ok(Operands {
        send,
        receive,
        count,
    })
}

pub fn envelope_of(
    rank: &TypedExpr,
    tag: &TypedExpr,
    comm: &TypedExpr,
    state: &RankState,
) -> Result<Envelope, Fault>
    ensures rank { IfOk result (λ envelope. value (pure_expr rank.now) state.now ≡ Ok envelope.rank) }
    ensures tag { IfOk result (λ envelope. value (pure_expr tag.now) state.now ≡ Ok envelope.tag) }
    ensures comm { IfOk result (λ envelope. value (pure_expr comm.now) state.now ≡ Ok envelope.comm) }
    ensures fault { IfErr result (λ fault.
        HasFault fault (value (pure_expr rank.now) state.now) (λ _.
        HasFault fault (value (pure_expr tag.now) state.now) (λ _.
        value (pure_expr comm.now) state.now ≡ Err fault))) }
{
    let (rank, tag, comm) = all_three(state.value(rank), state.value(tag), state.value(comm))?;
    Ok(Envelope { rank, tag, comm })
}
