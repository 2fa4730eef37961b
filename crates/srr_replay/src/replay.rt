//! A replay, one event at a time.
ghost use Rattle.std.specs.Prelude.{◌≡◌, ◌++◌, ◌∷◌, ◌<◌, [], OnOk, OnErr, IfOk, IsOk, length, Some, true};
ghost use Rattle.mpi_call.specs.Collectives.{is_member};
ghost use Rattle.mpi_call.specs.declared.reply.Reply.{Reply};
ghost use Rattle.run_model.specs.Program.{MayGive};
ghost use Rattle.run_model.specs.Views.{view_of, replies_in};
ghost use Rattle.replay_model.specs.Replays.{replay_answer, events_after, replied_event, copies_nothing, Replays};
ghost use Rattle.srr_replay.specs.Rounds.{IsReplayable};
ghost use Rattle.replay_model.specs.declared.step.Step.TheVariants.{Replied};

use crate::answer::answer;
use crate::indexed_history::IndexedHistory;
use crate::next_call::NextCall;
use crate::places::MarksPassed;
use mpi_call::call::Call;
use mpi_call::reply::Reply;
use mpi_call::{call, reply};
use replay_model::step::Step;
use run_model::event::{Event, Meetings};
use run_model::history::History;
use run_model::program::Program;
use srr_entry::log::Log;
use std::alloc::{AllocError, Global};
use std::marker::Model;

/// A replay of a log's group with a program. Contracts see the program, the log, the breakpoint and the events so far.
#[derive(Drop)]
pub struct Replay<'a, P: Program> {
    program: &'a P,
    log: &'a Log,
    stop: Option<(u8, u32)>,
    seen: IndexedHistory,
    /// Where each rank's next attempt begins, if it has waited at its entry. No contract speaks of them.
    places: MarksPassed,
    alloc: Global,
}

impl<'a, P: Program> Model for Replay<'a, P> {
    ghost use Rattle.std.specs.Prelude.{◌≡◌};
    ghost use Rattle.replay_model.specs.Replays.{ReplayState, Replays};
    ghost use Rattle.srr_replay.specs.Places.{ArePlaces};
    ghost use Rattle.srr_replay.specs.Rounds.{IsReplayable};

    ghost Value = { ReplayState P };

    ghost view = { λ r. record { program = r.program.now; log = r.log.now; stop = r.stop; events = r.seen.events } };

    ghost invariant = { λ r. IsReplayable r.log.now × Replays (P.next r.program.now) r.log.now r.stop r.seen.events × (r.seen.ranks ≡ r.log.now.ranks) × ArePlaces (P.next r.program.now) r.log.now r.seen.events r.places };
}

impl<'a, P: Program> Replay<'a, P> {
    /// A replay without events. It stops the rank of `stop` before its call with that number; a rank outside the group
    /// stops nobody.
    pub fn new(
        alloc: Global,
        program: &'a P,
        log: &'a Log,
        stop: Option<(u8, u32)>,
    ) -> Result<Self, AllocError>
        requires log { IsReplayable log.now }
        ensures { IfOk result (λ r. r ≡ record { program = program.now; log = log.now; stop = stop; events = [] }) }
    {
        let seen = IndexedHistory::new(alloc, log.ranks)?;
        let places = MarksPassed::new(alloc, log.ranks)?;
        Ok(Replay {
            program,
            log,
            stop,
            seen,
            places,
            alloc,
        })
    }

    /// One attempt of a rank of the group with its next call. Only a reply makes an event.
    pub fn attempt(&mut self, rank: u8, call: &Call) -> Result<Step, AllocError>
        requires member { is_member self.old.log.group rank ≡ true }
        requires next { P.next self.old.program self.old.log.ranks rank (replies_in (view_of self.old.events rank)) ≡ Some call.now }
        ensures answer { IfOk result (λ step. step ≡ replay_answer self.old.log self.old.stop (view_of self.old.events) rank (view_of self.old.events rank) call.now) }
        ensures events { IfOk result (λ step. self.new ≡ record self.old { events = events_after self.old.events rank call.now step }) }
        ensures shape { IfOk result (λ step. (reply : Reply) → step ≡ Replied reply → MayGive (P.next self.old.program) self.old.log.ranks rank (replies_in (view_of self.old.events rank)) reply) }

        // That the rank is at its breakpoint or its log's end, or waits, takes no memory.
        ensures sure { copies_nothing (replay_answer self.old.log self.old.stop (view_of self.old.events) rank (view_of self.old.events rank) call.now) ≡ true → IsOk result }
        ensures err { OnErr result (self.new ≡ self.old) }
    {
        match self.answer(rank, call)? {
            Step::Replied(reply) => {
                self.append(rank, call, &reply)?;
                Ok(Step::Replied(reply))
            }
            step => Ok(step),
        }
    }

    /// The answer to the rank's call. Begins at the rank's place, and notes it.
    fn answer(&mut self, rank: u8, call: &Call) -> Result<Step, AllocError>
        requires member { is_member self.old.log.group rank ≡ true }
        requires next { P.next self.old.program self.old.log.ranks rank (replies_in (view_of self.old.events rank)) ≡ Some call.now }
        ensures same { self.new ≡ self.old }
        ensures answer { IfOk result (λ step. step ≡ replay_answer self.old.log self.old.stop (view_of self.old.events) rank (view_of self.old.events rank) call.now) }
        ensures shape { IfOk result (λ step. (reply : Reply) → step ≡ Replied reply → MayGive (P.next self.old.program) self.old.log.ranks rank (replies_in (view_of self.old.events rank)) reply) }
        ensures sure { copies_nothing (replay_answer self.old.log self.old.stop (view_of self.old.events) rank (view_of self.old.events rank) call.now) ≡ true → IsOk result }
    {
        let number = self.seen.count(rank);
        let asked = NextCall { rank, number, call };
        let mut place = self.places.get(rank);
        let step = answer(
            self.alloc, self.log, &self.stop, &self.seen, &mut place, &asked,
        );
        self.places.set(rank, place);
        step
    }

    /// Adds the event of a reply.
    fn append(&mut self, rank: u8, call: &Call, reply: &Reply) -> Result<(), AllocError>
        requires member { is_member self.old.log.group rank ≡ true }
        requires next { P.next self.old.program self.old.log.ranks rank (replies_in (view_of self.old.events rank)) ≡ Some call.now }
        requires answer { replay_answer self.old.log self.old.stop (view_of self.old.events) rank (view_of self.old.events rank) call.now ≡ Replied reply.now }
        ensures ok { OnOk result (self.new ≡ record self.old { events = self.old.events ++ replied_event rank call.now reply.now ∷ [] }) }
        ensures err { OnErr result (self.new ≡ self.old) }
    {
        let event = event_of(rank, call, reply)?;
        self.seen.add(event)?;
        self.places.set(rank, None);
        Ok(())
    }

    /// What it was made of: the program, the log and the breakpoint. Takes no memory.
    pub fn told(&self) -> (&'a P, &'a Log, Option<(u8, u32)>)
        ensures program { result.0.now ≡ self.now.program }
        ensures log { result.1.now ≡ self.now.log }
        ensures stop { result.2 ≡ self.now.stop }
        ensures replayable { IsReplayable self.now.log }
    {
        (self.program, self.log, self.stop)
    }

    /// The number of events so far. Takes no memory.
    pub fn len(&self) -> u32
        ensures { result ≡ length self.now.events }
    {
        self.seen.events().len()
    }

    /// The events so far. Takes no memory.
    pub fn events(&self) -> &History
        ensures events { result.now.events ≡ self.now.events }
        ensures replays { Replays (P.next self.now.program) self.now.log self.now.stop self.now.events }
    {
        self.seen.events()
    }

    /// The events so far, handed out. Takes no memory.
    pub fn into_events(self) -> History
        ensures events { result.events ≡ self.entry.events }
        ensures replays { Replays (P.next self.entry.program) self.entry.log self.entry.stop result.events }
    {
        self.seen.into_events()
    }
}

/// The event of a reply, which it copies with the call; nothing meets after it.
fn event_of(rank: u8, call: &Call, reply: &Reply) -> Result<Event, AllocError>
    ensures { IfOk result (λ event. event ≡ replied_event rank call.now reply.now) }
{
    let reply = reply::copy_of(reply)?;
    let call = call::copy_of(call)?;
    Ok(Event {
        rank,
        call,
        reply,
        mate: None,
        met: Meetings::none(),
    })
}
