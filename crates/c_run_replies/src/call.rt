//! The calls of questions.
ghost use Rattle.std.specs.Prelude.{◌≡◌, IfOk};
ghost use Rattle.c_program.specs.Performing.{enter_call, entered_ints, post_call, send_call, start_call, take_one};
ghost use Rattle.c_program.specs.declared.effect.Collective.{Collective};
ghost use Rattle.c_run_replies.specs.Questions.{question_call};

use crate::completion::take_call;
use crate::question::Question;
use c_program::effect::{Collective, EnterInput, Message, Receive, Start};
use c_run_cells::state::RankState;
use mpi_call::call::{Call, TakeMode};
use mpi_call::lists::{Ints, Starts};
use std::alloc::{AllocError, Global};

/// The call of a question.
pub fn call_of(alloc: Global, question: &Question, state: &RankState) -> Result<Call, AllocError>
    ensures { IfOk result (λ call. call ≡ question_call question.now state.now) }
{
    match question {
        Question::Starts { start, .. } => start_call(alloc, start, state),
        Question::Sends(message) => send_call(alloc, message, state),
        Question::Receives { receive, .. } => Ok(post_call(receive)),
        Question::SendsAfter { message, .. } => send_call(alloc, message, state),
        Question::TakesMessage(awaited) => take_one(alloc, awaited.number),
        Question::Completes { requests, mode, .. } => take_call(alloc, *requests, *mode, state),
        Question::Probes {
            comm,
            source,
            tag,
            waits,
            ..
        } => Ok(Call::Peek {
            comm: *comm,
            source: *source,
            tag: *tag,
            wait: *waits,
        }),
        Question::Joins(collective) => enter_call(alloc, collective, state),
        Question::TakesResult { number, .. } => take_one(alloc, *number),
        Question::Trap(fault) => Ok(Call::Trap { fault: *fault }),
        Question::Abort(code) => Ok(Call::Abort { code: *code }),
        Question::End => Ok(Call::End),
    }
}

/// The call that takes one start.
fn take_one(alloc: Global, number: u32) -> Result<Call, AllocError>
    ensures { IfOk result (λ call. call ≡ take_one number) }
{
    let starts = Starts::from_slice(alloc, &[number])?;
    Ok(Call::Take {
        starts,
        mode: TakeMode::All,
    })
}

/// The call of a send, with its ints.
fn send_call(alloc: Global, message: &Message, state: &RankState) -> Result<Call, AllocError>
    ensures { IfOk result (λ call. call ≡ send_call message.now state.now) }
{
    let ints = state.ints_in(alloc, message.ints)?;
    Ok(Call::Send {
        comm: message.comm,
        dest: message.dest,
        tag: message.tag,
        ints,
        sync: message.sync,
    })
}

/// The call of a receive.
fn post_call(receive: &Receive) -> Call
    ensures { result ≡ post_call receive.now }
{
    Call::Post {
        comm: receive.comm,
        source: receive.source,
        tag: receive.tag,
        room: receive.buffer.length(),
    }
}

fn start_call(alloc: Global, start: &Start, state: &RankState) -> Result<Call, AllocError>
    ensures { IfOk result (λ call. call ≡ start_call start.now state.now) }
{
    match start {
        Start::Send(message) => send_call(alloc, message, state),
        Start::Receive(receive) => Ok(post_call(receive)),
    }
}

/// What a member enters.
fn entered_ints(alloc: Global, entered: &EnterInput, state: &RankState) -> Result<Ints, AllocError>
    ensures { IfOk result (λ ints. ints ≡ entered_ints entered.now state.now) }
{
    match entered {
        EnterInput::Nothing => Ok(Ints::new(alloc)),
        EnterInput::Cells(cells) => state.ints_in(alloc, *cells),
        EnterInput::Pair(colour, key) => Ints::from_slice(alloc, &[*colour, *key]),
    }
}

fn enter_call(alloc: Global, collective: &Collective, state: &RankState) -> Result<Call, AllocError>
    ensures { IfOk result (λ call. call ≡ enter_call collective.now state.now) }
{
    let ints = entered_ints(alloc, &collective.entered, state)?;
    Ok(Call::Enter {
        comm: collective.comm,
        kind: collective.kind,
        root: collective.root,
        op: collective.op,
        count: collective.count,
        ints,
    })
}
