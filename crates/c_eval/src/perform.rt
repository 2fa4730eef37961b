//! MPI calls over the replies that are left.
ghost use Rattle.std.specs.Prelude.{◌<◌, ◌≤◌, OnOk, length};
ghost use Rattle.c_program.specs.Performing.{Onward, perform};
ghost use Rattle.c_program.specs.View.{pure_mpi};
ghost use Rattle.c_run_cells.specs.Parts.{mpi};
ghost use Rattle.c_run_replies.specs.Questions.{asks, reached};
ghost use Rattle.c_eval.specs.Evaluated.{Evaluated, Passes};

use crate::outcome::{Replies, Stop};
use c_program::effect::{Effect, Rank};
use c_program::mpi::MpiCall;
use c_run_cells::state::RankState;
use c_run_effects::effects::effect_of;
use c_run_replies::ask::ask;
use c_run_replies::call::call_of;
use c_run_replies::question::{Question, Reached};
use c_run_replies::reply::reply_to;
use mpi_call::limits::MOST_RANKS;
use std::alloc::Global;

/// Calls an MPI function.
pub fn call_mpi(
    alloc: Global,
    rank: Rank,
    call: &MpiCall,
    state: &mut RankState,
    replies: &mut Replies,
) -> Result<(), Stop>
    requires { rank.ranks ≤ MOST_RANKS }
    ensures { Passes (mpi rank (pure_mpi call.now)) state.old replies.old result state.new replies.new }
{
    match effect_of(rank, call, state) {
        Ok(effect) => perform(alloc, rank, effect, state, replies),
        Err(fault) => Err(Stop::Trapped(fault)),
    }
}

/// Performs an effect with the replies that are left.
pub fn perform(
    alloc: Global,
    rank: Rank,
    effect: Effect,
    state: &mut RankState,
    replies: &mut Replies,
) -> Result<(), Stop>
    requires { rank.ranks ≤ MOST_RANKS }
    ensures { Passes (perform rank effect) state.old replies.old result state.new replies.new }
{
    let mut found = ask(alloc, rank, effect, state)?;
    loop {
        match found {
            Reached::Done => return Ok(()),
            Reached::Over => return Err(Stop::Over),
            Reached::Asks(question) => found = answered(alloc, rank, &question, state, replies)?,
        }
    }
}

/// What follows on the next reply to a question; where there is none, its call is what the rank waits for.
fn answered(
    alloc: Global,
    rank: Rank,
    question: &Question,
    state: &mut RankState,
    replies: &mut Replies,
) -> Result<Reached, Stop>
    requires { rank.ranks ≤ MOST_RANKS }
    ensures evaluated { Evaluated (λ (go : Onward) found s. reached rank found s go) (asks rank question.now) state.old replies.old result state.new replies.new }
    ensures fewer { OnOk result (length replies.new < length replies.old) }
{
    let Some(reply) = replies.next() else {
        let call = call_of(alloc, question, state)?;
        return Err(Stop::Waits(call));
    };
    Ok(reply_to(alloc, rank, question, reply, state)?)
}
