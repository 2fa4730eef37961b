//! What an effect asks first.
ghost use Rattle.std.specs.Prelude.{◌≡◌, ◌≤◌, IfOk, OnOk};
ghost use Rattle.c_program.specs.declared.effect.Effect.TheVariants.{Completes, Probes};
ghost use Rattle.c_program.specs.declared.effect.Rank.{Rank};
ghost use Rattle.c_program.specs.Performing.{Onward, perform};
ghost use Rattle.c_run_replies.specs.Left.{is_null_source};
ghost use Rattle.c_run_replies.specs.Questions.{reached};

use crate::answers::{put_nothing, put_some, status_cell};
use crate::completion::{Completion, are_active, none_active};
use crate::question::{Question, Reached};
use c_program::effect::{Effect, Rank};
use c_run_cells::state::RankState;
use mpi_call::call::{Source, Tag};
use mpi_call::limits::MOST_RANKS;
use std::alloc::{AllocError, Global};

/// Begins an effect: it is done, or asks.
pub fn ask(
    alloc: Global,
    rank: Rank,
    effect: Effect,
    state: &mut RankState,
) -> Result<Reached, AllocError>
    requires { rank.ranks ≤ MOST_RANKS }
    ensures comes { IfOk result (λ found. (go : Onward) → perform rank effect state.old go ≡ reached rank found state.new go) }
    ensures left { OnOk result (state.new.left ≤ state.old.left) }
{
    match effect {
        Effect::Nothing => Ok(Reached::Done),
        Effect::Sets { cell, value } => {
            state.put(cell, value);
            Ok(Reached::Done)
        }
        Effect::Starts { start, request } => {
            Ok(Reached::Asks(Question::Starts { start, request }))
        }
        Effect::Sends(message) => Ok(Reached::Asks(Question::Sends(message))),
        Effect::Receives {
            receive,
            send,
            status,
        } => Ok(Reached::Asks(Question::Receives {
            receive,
            send,
            status,
        })),
        Effect::Completes {
            requests,
            mode,
            answer,
        } => completing(alloc, &Completion::new(rank, requests, mode, answer), state),
        Effect::Probes {
            comm,
            source,
            tag,
            waits,
            flag,
            status,
        } => Ok(probing(comm, source, tag, waits, flag, status, state)),
        Effect::Joins(collective) => Ok(Reached::Asks(Question::Joins(collective))),
        Effect::Aborts(code) => Ok(Reached::Asks(Question::Abort(code))),
    }
}

/// A completion call, which asks nothing where no handle names a start.
fn completing(
    alloc: Global,
    call: &Completion,
    state: &mut RankState,
) -> Result<Reached, AllocError>
    ensures comes { IfOk result (λ found. (go : Onward) → perform call.now.rank (Completes call.now.requests call.now.mode call.now.answer) state.old go ≡ reached call.now.rank found state.new go) }
    ensures left { OnOk result (state.new.left ≤ state.old.left) }
{
    if are_active(alloc, call.requests, state)? {
        return Ok(Reached::Asks(Question::Completes {
            requests: call.requests,
            mode: call.mode,
            answer: call.answer,
        }));
    }
    none_active(alloc, call, state)?;
    Ok(Reached::Done)
}

/// Whether a source is `MPI_PROC_NULL`.
fn is_null(source: Source) -> bool
    ensures { result ≡ is_null_source source }
{
    matches!(source, Source::Null)
}

/// A probe, which asks nothing of `MPI_PROC_NULL`.
fn probing(
    comm: u32,
    source: Source,
    tag: Tag,
    waits: bool,
    flag: Option<u32>,
    status: Option<u32>,
    state: &mut RankState,
) -> Reached
    ensures comes { (rank : Rank) (go : Onward) → perform rank (Probes comm source tag waits flag status) state.old go ≡ reached rank result state.new go }
    ensures left { state.new.left ≤ state.old.left }
{
    if is_null(source) {
        put_nothing(state, status_cell(status));
        put_some(state, flag, 1);
        return Reached::Done;
    }
    Reached::Asks(Question::Probes {
        comm,
        source,
        tag,
        waits,
        flag,
        status,
    })
}
