//! What follows on replies.
ghost use Rattle.std.specs.Prelude.{◌≡◌, ◌≤◌, IfOk, OnOk, Option, option_map, pos};
ghost use Rattle.run_model.specs.Program.{ends};
ghost use Rattle.c_program.specs.Courses.{after_one_reply};
ghost use Rattle.mpi_call.specs.declared.reply.Reply.{Reply};
ghost use Rattle.c_program.specs.declared.effect.Rank.{Rank};
ghost use Rattle.c_program.specs.Performing.{Onward, begun, first_got, reply_items, with_communicators, number_of_next, put_message, put_result, receiving, sent, begun_by, taking_result};
ghost use Rattle.c_program.specs.State.{State, put_some};
ghost use Rattle.c_run_replies.specs.Questions.{asks, question_call, reached, replied};
ghost use Rattle.c_run_replies.specs.declared.question.Question.TheVariants.{Receives};

use crate::answers::{completed, probed, put_result, put_some, status_cell};
use crate::completion::{Completion, after_take};
use crate::question::{Awaited, Question, Reached};
use c_program::effect::{Into, Message, Rank, Receive, Start};
use c_program::range::Range;
use c_program::state::Begun;
use c_run_cells::state::RankState;
use mpi_call::call::Fault;
use mpi_call::limits::MOST_RANKS;
use mpi_call::reply::{Got, Item, Reply};
use std::alloc::{AllocError, Global};

/// Whether a reply to this question ends the rank.
fn ends(question: &Question, reply: &Reply) -> bool
    ensures { (s : State) → result ≡ ends (question_call question.now s, reply.now) }
{
    match reply {
        Reply::Stopped(_) => true,
        Reply::Done => matches!(question, Question::End),
        _ => false,
    }
}

/// What follows on the reply to a question.
pub fn reply_to(
    alloc: Global,
    rank: Rank,
    question: &Question,
    reply: &Reply,
    state: &mut RankState,
) -> Result<Reached, AllocError>
    requires { rank.ranks ≤ MOST_RANKS }
    ensures comes { IfOk result (λ found. (go : Onward) → after_one_reply (asks rank question.now state.old go) reply.now ≡ reached rank found state.new go) }
    ensures left { OnOk result (state.new.left ≤ state.old.left) }
{
    if ends(question, reply) {
        return Ok(Reached::Over);
    }
    replied(alloc, rank, question, reply, state)
}

/// What follows on a reply that does not end the rank.
fn replied(
    alloc: Global,
    rank: Rank,
    question: &Question,
    reply: &Reply,
    state: &mut RankState,
) -> Result<Reached, AllocError>
    requires { rank.ranks ≤ MOST_RANKS }
    ensures comes { IfOk result (λ found. (go : Onward) → replied rank question.now reply.now state.old go ≡ reached rank found state.new go) }
    ensures left { OnOk result (state.new.left ≤ state.old.left) }
{
    match question {
        Question::Starts { start, request } => {
            begin(start_of(start), *request, state)?;
            Ok(Reached::Done)
        }
        Question::Sends(message) => take_result(message.comm, Into::Nowhere, state),
        Question::Receives {
            receive,
            send,
            status,
        } => received(rank, receive, send, *status, reply, state),
        Question::SendsAfter { message, awaited } => {
            state.begin(sent(message.comm))?;
            Ok(Reached::Asks(Question::TakesMessage(*awaited)))
        }
        Question::TakesMessage(awaited) => took_message(rank, awaited, reply, state),
        Question::Completes {
            requests,
            mode,
            answer,
        } => after_take(
            alloc,
            &Completion::new(rank, *requests, *mode, *answer),
            reply,
            state,
        ),
        Question::Probes {
            comm,
            flag,
            status,
            ..
        } => {
            probed(rank, *comm, *flag, *status, reply, state)?;
            Ok(Reached::Done)
        }
        Question::Joins(collective) => take_result(collective.comm, collective.into, state),
        Question::TakesResult { into, .. } => took_result(*into, reply, state),
        Question::Trap(_) | Question::Abort(_) | Question::End => Ok(Reached::Over),
    }
}

/// The items of a reply.
pub fn items_of(reply: &Reply) -> &[Item]
    ensures { result.now ≡ reply_items reply.now }
{
    match reply {
        Reply::Took(items) => items.as_slice(),
        _ => &[],
    }
}

/// Notes what a reply tells; answers what its first item gives.
fn learn<'a>(reply: &'a Reply, state: &mut RankState) -> Result<Option<&'a Got>, AllocError>
    ensures got { IfOk result (λ got. option_map (λ got. got.now) got ≡ first_got (reply_items reply.now)) }
    ensures state { OnOk result (state.new ≡ with_communicators (reply_items reply.now) state.old) }
{
    let items = items_of(reply);
    state.learn(items)?;
    match items {
        [] => Ok(None),
        [item, ..] => Ok(Some(&item.got)),
    }
}

/// A start whose message goes to no cells.
fn sent(comm: u32) -> Begun
    ensures { result ≡ sent comm }
{
    Begun {
        comm,
        buffer: Range::nothing(),
    }
}

fn receiving(receive: &Receive) -> Begun
    ensures { result ≡ receiving receive.now }
{
    Begun {
        comm: receive.comm,
        buffer: receive.buffer,
    }
}

fn start_of(start: &Start) -> Begun
    ensures { result ≡ begun_by start.now }
{
    match start {
        Start::Send(message) => sent(message.comm),
        Start::Receive(receive) => receiving(receive),
    }
}

/// Notes a start, and puts its number into its handle.
fn begin(start: Begun, request: Option<u32>, state: &mut RankState) -> Result<(), AllocError>
    ensures { OnOk result (state.new ≡ put_some request (pos (number_of_next state.old)) (begun start state.old)) }
{
    let number = state.start_count();
    state.begin(start)?;
    put_some(state, request, number as i32);
    Ok(())
}

/// Notes a start on a communicator, and asks for its completion.
fn take_result(comm: u32, into: Into, state: &mut RankState) -> Result<Reached, AllocError>
    ensures comes { IfOk result (λ found. (rank : Rank) (go : Onward) → taking_result into (number_of_next state.old) (begun (sent comm) state.old) go ≡ reached rank found state.new go) }
    ensures left { OnOk result (state.new.left ≤ state.old.left) }
{
    let number = state.start_count();
    state.begin(sent(comm))?;
    Ok(Reached::Asks(Question::TakesResult { into, number }))
}

/// Puts the result of a completed start.
fn took_result(into: Into, reply: &Reply, state: &mut RankState) -> Result<Reached, AllocError>
    ensures comes { IfOk result (λ found. (rank : Rank) (go : Onward) → go (put_result into (first_got (reply_items reply.now)) (with_communicators (reply_items reply.now) state.old)) ≡ reached rank found state.new go) }
    ensures left { OnOk result (state.new.left ≤ state.old.left) }
{
    let got = learn(reply, state)?;
    put_result(into, got, state)?;
    Ok(Reached::Done)
}

/// Puts the message of a receive.
fn took_message(
    rank: Rank,
    awaited: &Awaited,
    reply: &Reply,
    state: &mut RankState,
) -> Result<Reached, AllocError>
    requires { rank.ranks ≤ MOST_RANKS }
    ensures comes { IfOk result (λ found. (go : Onward) → put_message rank.ranks (receiving awaited.now.receive) awaited.now.status (first_got (reply_items reply.now)) (with_communicators (reply_items reply.now) state.old) go ≡ reached rank found state.new go) }
    ensures left { OnOk result (state.new.left ≤ state.old.left) }
{
    let got = learn(reply, state)?;
    put_message(
        rank,
        receiving(&awaited.receive),
        awaited.status,
        got,
        state,
    )
}

/// What follows once a receive has started.
fn received(
    rank: Rank,
    receive: &Receive,
    send: &Option<Message>,
    status: Option<u32>,
    reply: &Reply,
    state: &mut RankState,
) -> Result<Reached, AllocError>
    ensures comes { IfOk result (λ found. (go : Onward) → replied rank (Receives receive.now send.now status) reply.now state.old go ≡ reached rank found state.new go) }
    ensures left { OnOk result (state.new.left ≤ state.old.left) }
{
    let number = state.start_count();
    state.begin(receiving(receive))?;
    let awaited = Awaited {
        receive: *receive,
        number,
        status,
    };
    match send {
        None => Ok(Reached::Asks(Question::TakesMessage(awaited))),
        Some(message) => Ok(Reached::Asks(Question::SendsAfter {
            message: *message,
            awaited,
        })),
    }
}

/// Puts the message and the status of a receive; traps where cells of the message no longer stand.
fn put_message(
    rank: Rank,
    start: Begun,
    status: Option<u32>,
    got: Option<&Got>,
    state: &mut RankState,
) -> Result<Reached, AllocError>
    requires { rank.ranks ≤ MOST_RANKS }
    ensures comes { IfOk result (λ found. (go : Onward) → put_message rank.ranks start status (option_map (λ got. got.now) got.entry) state.old go ≡ reached rank found state.new go) }
    ensures left { OnOk result (state.new.left ≤ state.old.left) }
{
    let Some(got) = got else {
        return Ok(Reached::Done);
    };
    if completed(rank, start, status_cell(status), got, state)? {
        return Ok(Reached::Done);
    }
    Ok(Reached::Asks(Question::Trap(Fault::OutOfBounds)))
}
