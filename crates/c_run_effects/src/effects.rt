//! What the call of an MPI function does, once its arguments are evaluated and checked.
ghost use Rattle.std.specs.Prelude.{◌≡◌, ◌≤◌};
ghost use Rattle.c_program.specs.Tree as t;
ghost use Rattle.c_program.specs.Effects.{effect_of};
ghost use Rattle.c_program.specs.View.{pure_expr, pure_mpi};

use crate::collectives::collective_effect;
use crate::comm::communicator_of;
use crate::communicators::communicator_effect;
use crate::completions::completion_effect;
use crate::messages::message_effect;
use crate::probes::probe_effect;
use crate::results::both;
use c_program::effect::{Effect, Rank};
use c_program::expr::TypedExpr;
use c_program::mpi::MpiCall;
use c_run_cells::state::RankState;
use mpi_call::call::Fault;
use mpi_call::limits::MOST_RANKS;

/// `MPI_Abort`.
fn abort(rank: Rank, comm: &TypedExpr, code: &TypedExpr, state: &RankState) -> Result<Effect, Fault>
    requires { rank.ranks ≤ MOST_RANKS }
    ensures { result ≡ effect_of rank (t.abort (pure_expr comm.now) (pure_expr code.now)) state.now }
{
    let (comm, code) = both(state.value(comm), state.value(code))?;
    communicator_of(rank, state, comm)?;
    Ok(Effect::Aborts(code))
}

/// The effect of a call, or its fault. Takes no memory.
pub fn effect_of(rank: Rank, call: &MpiCall, state: &RankState) -> Result<Effect, Fault>
    requires { rank.ranks ≤ MOST_RANKS }
    ensures { result ≡ effect_of rank (pure_mpi call.now) state.now }
{
    match call {
        MpiCall::Init => Ok(Effect::Nothing),
        MpiCall::Finalize => Ok(Effect::Nothing),
        MpiCall::Abort { comm, code } => abort(rank, comm, code, state),
        MpiCall::Message(call) => message_effect(rank, call, state),
        MpiCall::Completion(call) => completion_effect(call, state),
        MpiCall::Probe(call) => probe_effect(rank, call, state),
        MpiCall::Collective(call) => collective_effect(rank, call, state),
        MpiCall::Communicator(call) => communicator_effect(rank, call, state),
    }
}
