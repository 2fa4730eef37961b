//! What a rank takes along from round to round, and its work in a round.
ghost use Rattle.std.specs.Prelude.{◌≡◌, ◌++◌, ◌∷◌, [], false, true, IfOk, OnOk};
ghost use Rattle.mpi_call.specs.declared.reply.Reply.{Reply};
ghost use Rattle.run_model.specs.Program.{MayGive, Says};
ghost use Rattle.rank_threads.specs.inside.Reading.{AddsReply};
ghost use Rattle.rank_threads.specs.inside.Workers.{CanWork, HasWorked, IsNextCall, IsIdleSeatOf, MayGiveTo};
ghost use Rattle.rank_threads.specs.declared.attempts.Attempt.TheVariants.{Replied};
ghost use Rattle.rank_threads.specs.declared.worker.After.TheVariants.{Answered, Waited};

use crate::attempts::{Attempt, Attempts};
use crate::bell::{Bell, Rested};
use crate::gate::Gate;
use crate::looks::Looks;
use crate::patience::Patience;
use mpi_call::call::Call;
use mpi_call::reply::Reply;
use run_model::program::{Program, RankRun, Want};
use std::alloc::AllocError;
use std::sync::Wait;
use turn_lock::{Ledger, Seat, TurnLock};

/// A rank's seat and run, and how far it came.
#[derive(Drop)]
pub struct Worker<M: Ledger, R> {
    /// Its own entries are the rank's events.
    pub seat: Seat<M>,
    /// The rank's run after these events, unless `is_short`.
    pub run: R,
    /// The number of the rank.
    pub rank: u8,
    /// How many of its calls were answered: the number of its next call.
    pub calls: u32,
    /// What it looked at in vain.
    pub looks: Looks,
    /// How long it waits awake.
    pub patience: Patience,
    /// Whether it passed the gate with its next call.
    pub has_passed: bool,
    /// Whether it had an event in the last round.
    pub has_moved: bool,
    /// Whether it makes no further event.
    pub is_done: bool,
    /// Whether there was no memory, in its work or in that of another rank. Then its run may lack the last reply of its seat.
    pub is_short: bool,
}

/// A rank's work in a round: it makes one call after another until it is done, all ranks sleep, or there is no
/// memory.
pub fn work<P: Program, M: Attempts<P>, R: RankRun<Of = P>, W: Wait, G: Gate>(
    rt: &W,
    lock: &TurnLock<M>,
    bell: &Bell,
    gate: &G,
    worker: &mut Worker<M, R>,
)
    requires { CanWork M.reading R.standing lock.now worker.old }
    ensures { HasWorked M.reading R.standing lock.now worker.old worker.new }
{
    worker.has_moved = false;
    if worker.is_done || worker.is_short {
        bell.skip();
        return;
    }
    bell.start();
    for _ in rt.forever() {
        if !make_next_call(rt, lock, bell, gate, worker) {
            return;
        }
    }
    unreachable!()
}

/// Makes the rank's next call. Tells whether the rank goes on in this round.
fn make_next_call<P: Program, M: Attempts<P>, R: RankRun<Of = P>, W: Wait, G: Gate>(
    rt: &W,
    lock: &TurnLock<M>,
    bell: &Bell,
    gate: &G,
    worker: &mut Worker<M, R>,
) -> bool
    requires can { CanWork M.reading R.standing lock.now worker.old }
    requires ample { worker.old.is_short ≡ false }
    ensures worked { HasWorked M.reading R.standing lock.now worker.old worker.new }
    ensures goes { result ≡ true → worker.new.is_short ≡ false }
{
    match ask(worker) {
        Ok(Want::Ask(call)) => make_call(rt, lock, bell, gate, worker, &call),
        Ok(Want::Ended) => {
            worker.is_done = true;
            bell.leave();
            false
        }
        Err(_) => {
            give_up(rt, lock, worker);
            bell.leave();
            false
        }
    }
}

/// What the rank wants. The error is being out of memory; then nothing changed.
fn ask<P: Program, M: Ledger, R: RankRun<Of = P>>(
    worker: &mut Worker<M, R>,
) -> Result<Want, AllocError>
    ensures rest { (worker.new.rank ≡ worker.old.rank) × (worker.new.seat ≡ worker.old.seat) × (worker.new.is_short ≡ worker.old.is_short) }
    ensures says { IfOk result (λ want. Says want (P.next (R.standing worker.old.run).program (R.standing worker.old.run).ranks (R.standing worker.old.run).rank (R.standing worker.old.run).replies)) }
    ensures ok { OnOk result (R.standing worker.new.run ≡ record (R.standing worker.old.run) { asked = true }) }
{
    worker.run.want()
}

/// What a rank does after an attempt.
enum After {
    /// Its call was answered, and it makes the next one.
    Answered,
    /// It waited, and tries again.
    Waited,
    /// It leaves the round.
    Left,
}

/// Makes a call: one attempt after another until it is answered. The call is kept, since asking for it again would run the rank's
/// program again. Tells whether the rank goes on in this round.
fn make_call<P: Program, M: Attempts<P>, R: RankRun<Of = P>, W: Wait, G: Gate>(
    rt: &W,
    lock: &TurnLock<M>,
    bell: &Bell,
    gate: &G,
    worker: &mut Worker<M, R>,
    call: &Call,
) -> bool
    requires can { CanWork M.reading R.standing lock.now worker.old }
    requires ample { worker.old.is_short ≡ false }
    requires asked { (R.standing worker.old.run).asked ≡ true }
    requires next { IsNextCall M.reading P.next lock.now worker.old.rank worker.old.seat call.now }
    ensures worked { HasWorked M.reading R.standing lock.now worker.old worker.new }
    ensures goes { result ≡ true → worker.new.is_short ≡ false }
{
    pass_gate(gate, worker);
    if !rest(rt, bell, worker, call) {
        return false;
    }
    for _ in rt.forever() {
        match try_once(rt, lock, bell, worker, call) {
            After::Answered => return true,
            After::Waited => {}
            After::Left => return false,
        }
    }
    unreachable!()
}

/// Passes the gate, once for each call also where the call is made over several rounds.
fn pass_gate<M: Ledger, R, G: Gate>(gate: &G, worker: &mut Worker<M, R>)
    ensures { (worker.new.rank ≡ worker.old.rank) × (worker.new.run ≡ worker.old.run) × (worker.new.seat ≡ worker.old.seat) × (worker.new.is_short ≡ worker.old.is_short) }
{
    if !worker.has_passed {
        gate.pass(worker.rank, worker.calls);
        worker.has_passed = true;
    }
}

/// Before a look, where the rank has looked in vain often enough, it rests. Tells whether it goes on in this round.
fn rest<M: Ledger, R, W: Wait>(rt: &W, bell: &Bell, worker: &mut Worker<M, R>, call: &Call) -> bool
    ensures { (worker.new.rank ≡ worker.old.rank) × (worker.new.run ≡ worker.old.run) × (worker.new.seat ≡ worker.old.seat) × (worker.new.is_short ≡ worker.old.is_short) }
{
    let heard = bell.heard(worker.rank);
    if !bell.may_rest() || !worker.looks.are_enough(call, heard) {
        return true;
    }
    match bell.rest(rt, worker.rank, heard) {
        Rested::Looks => true,
        Rested::LooksOn => {
            worker.looks.go_on();
            true
        }
        Rested::Leaves => false,
    }
}

/// The rank sleeps until it is woken. Tells whether it was; else it has left the round.
fn sleep<M: Ledger, R, W: Wait>(rt: &W, bell: &Bell, worker: &mut Worker<M, R>, heard: u64) -> bool
    ensures { (worker.new.rank ≡ worker.old.rank) × (worker.new.run ≡ worker.old.run) × (worker.new.seat ≡ worker.old.seat) × (worker.new.is_short ≡ worker.old.is_short) }
{
    bell.sleep(rt, worker.rank, heard, &mut worker.patience)
}

/// An attempt, and what follows from its answer.
fn try_once<P: Program, M: Attempts<P>, R: RankRun<Of = P>, W: Wait>(
    rt: &W,
    lock: &TurnLock<M>,
    bell: &Bell,
    worker: &mut Worker<M, R>,
    call: &Call,
) -> After
    requires can { CanWork M.reading R.standing lock.now worker.old }
    requires ample { worker.old.is_short ≡ false }
    requires asked { (R.standing worker.old.run).asked ≡ true }
    requires next { IsNextCall M.reading P.next lock.now worker.old.rank worker.old.seat call.now }
    ensures worked { HasWorked M.reading R.standing lock.now worker.old worker.new }
    ensures answered { result ≡ Answered → worker.new.is_short ≡ false }
    ensures waited { result ≡ Waited → (worker.new.is_short ≡ false) × (worker.new.run ≡ worker.old.run) × (worker.new.seat.own ≡ worker.old.seat.own) }
{
    let heard = bell.heard(worker.rank);
    match attempt(rt, lock, bell, worker, call) {
        Attempt::Replied(reply) => {
            bell.ring(worker.rank, call, &reply);
            if give_reply(rt, lock, bell, worker, call, heard, &reply) {
                After::Answered
            } else {
                After::Left
            }
        }
        Attempt::Waits => {
            if sleep(rt, bell, worker, heard) {
                After::Waited
            } else {
                After::Left
            }
        }
        Attempt::Stops => {
            worker.is_done = true;
            bell.leave();
            After::Left
        }
        Attempt::Short => {
            worker.is_short = true;
            bell.leave();
            After::Left
        }
    }
}

/// One attempt under the lock.
fn attempt<P: Program, M: Attempts<P>, R, W: Wait>(
    rt: &W,
    lock: &TurnLock<M>,
    bell: &Bell,
    worker: &mut Worker<M, R>,
    call: &Call,
) -> Attempt
    requires ready { IsIdleSeatOf M.reading lock.now worker.old.rank worker.old.seat }
    requires next { IsNextCall M.reading P.next lock.now worker.old.rank worker.old.seat call.now }
    ensures rest { (worker.new.rank ≡ worker.old.rank) × (worker.new.run ≡ worker.old.run) × (worker.new.is_short ≡ worker.old.is_short) }
    ensures number { worker.new.seat.number ≡ worker.old.seat.number }
    ensures ready { IsIdleSeatOf M.reading lock.now worker.old.rank worker.new.seat }
    ensures own { AddsReply M.reading worker.old.seat.number worker.old.seat.own worker.new.seat.own result }
    ensures shape { (reply : Reply) → result ≡ Replied reply → MayGiveTo M.reading P.next lock.now worker.old.rank worker.old.seat.own reply }
{
    bell.go_in(rt);
    let mut held = lock.hold(rt, &mut worker.seat);
    let answer = held.value.attempt(worker.rank, call);
    lock.release(&mut worker.seat, held);
    bell.come_out();
    answer
}

/// Gives a rank's run the reply to its call; `heard` is what the rank had heard before its attempt. Tells whether there was memory for it.
fn give_reply<P: Program, M: Attempts<P>, R: RankRun<Of = P>, W: Wait>(
    rt: &W,
    lock: &TurnLock<M>,
    bell: &Bell,
    worker: &mut Worker<M, R>,
    call: &Call,
    heard: u64,
    reply: &Reply,
) -> bool
    requires ready { IsIdleSeatOf M.reading lock.now worker.old.rank worker.old.seat }
    requires ample { worker.old.is_short ≡ false }
    requires asked { (R.standing worker.old.run).asked ≡ true }
    requires shape { MayGive (P.next (R.standing worker.old.run).program) (R.standing worker.old.run).ranks (R.standing worker.old.run).rank (R.standing worker.old.run).replies reply.now }
    ensures rank { worker.new.rank ≡ worker.old.rank }
    ensures number { worker.new.seat.number ≡ worker.old.seat.number }
    ensures ready { IsIdleSeatOf M.reading lock.now worker.old.rank worker.new.seat }
    ensures given { result ≡ true → (worker.new.is_short ≡ false) × (worker.new.seat ≡ worker.old.seat) × (R.standing worker.new.run ≡ record (R.standing worker.old.run) { replies = (R.standing worker.old.run).replies ++ reply.now ∷ []; asked = false }) }
    ensures short { result ≡ false → worker.new.is_short ≡ true }
{
    worker.calls = worker.calls.wrapping_add(1);
    worker.has_passed = false;
    worker.has_moved = true;
    worker.looks.add(call, reply, heard);
    if worker.run.give(reply).is_ok() {
        return true;
    }
    give_up(rt, lock, worker);
    bell.leave();
    false
}

/// There is no memory: tells the other ranks.
fn give_up<P: Program, M: Attempts<P>, R: RankRun<Of = P>, W: Wait>(
    rt: &W,
    lock: &TurnLock<M>,
    worker: &mut Worker<M, R>,
)
    requires { IsIdleSeatOf M.reading lock.now worker.old.rank worker.old.seat }
    ensures worked { HasWorked M.reading R.standing lock.now worker.old worker.new }
    ensures short { worker.new.is_short ≡ true }
    ensures ready { IsIdleSeatOf M.reading lock.now worker.old.rank worker.new.seat }
{
    let mut held = lock.hold(rt, &mut worker.seat);
    held.value.give_up();
    lock.release(&mut worker.seat, held);
    worker.is_short = true;
}
