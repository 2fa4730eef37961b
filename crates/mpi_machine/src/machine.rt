//! A recording machine, one event at a time.
ghost use Rattle.std.specs.Prelude.{◌≡◌, ◌<◌, ◌≤◌, ◌++◌, ◌∷◌, ◌==◌, ◌&&◌, ◌||◌, [], false, is_some, length, not, replicate, true, IfOk, IsOk, IsTrue, None, OnErr, OnOk, Some};
ghost use Rattle.std.specs.List.{slice_set};
ghost use Rattle.mpi_call.specs.Calls.{is_starting};
ghost use Rattle.mpi_call.specs.declared.limits.TheConstants.{MOST_RANKS};
ghost use Rattle.mpi_call.specs.declared.call.Call.{Call};
ghost use Rattle.mpi_call.specs.declared.call.Call.TheVariants.{Peek, Take};
ghost use Rattle.mpi_call.specs.declared.call.TakeMode.{TakeMode};
ghost use Rattle.mpi_call.specs.declared.reply.Reply.{Reply};
ghost use Rattle.mpi_call.specs.declared.reply.Reply.TheVariants.{Took as TookReply};
ghost use Rattle.run_model.specs.Allowed.{can_go};
ghost use Rattle.run_model.specs.Chosen.{chosen_reply, peeked_at};
ghost use Rattle.run_model.specs.Due.{halted};
ghost use Rattle.run_model.specs.Pairs.{name_at};
ghost use Rattle.run_model.specs.Program.{ends, MayGive};
ghost use Rattle.run_model.specs.Serial.{attempt, call_after, is_stuck, others_wait, Stage};
ghost use Rattle.run_model.specs.Run.{IsPromptRun};
ghost use Rattle.picked_runs.specs.declared.turn.Pick.TheVariants.{Index, Sender};
ghost use Rattle.picked_runs.specs.Picked.{IsPicked};
ghost use Rattle.picked_runs.specs.Turns.{take_turn};
ghost use Rattle.match_core.specs.Starts.{is_peek, is_post};
ghost use Rattle.picked_runs.specs.Picks.{has_pick, looks};
ghost use Rattle.run_model.specs.Choice.{choice};
ghost use Rattle.mpi_machine.specs.Made.{AreNeeded, IsPlain};
ghost use Rattle.mpi_machine.specs.Picking.{after_pick, picked_of, HasPicked, IsWritten};
ghost use Rattle.run_model.specs.Views.{is_start, moment_at, replies_in, taken_of, view_of};
ghost use Rattle.requests.specs.Histories.{took_event};
ghost use Rattle.requests.specs.States.{with_rows, MatchingState};
ghost use Rattle.requests.specs.Taking.{rows_after, takes_one, AreHandedOut};
ghost use Rattle.requests.specs.declared.requests.TakeAnswer.TheVariants.{Took as TookItems};
ghost use Rattle.mpi_machine.specs.Courses.{bound_of, has_ended};
ghost use Rattle.mpi_machine.specs.Turns.{after_answer, last_reply, attempt_answer, waits_again, stage_of, is_blocked_or_ended, takes_no_memory, HasReply, IsAsked, IsHeldBack, IsStartAt, IsAtStage};
ghost use Rattle.mpi_machine.specs.declared.answer.Answer.TheVariants.{Replied, Wait};
ghost use Rattle.mpi_machine.specs.Waits.{waits, AreWaitingCalls};

use crate::answer::Answer;
use crate::course::Course;
use crate::preparing::{note, prepare, prepare_pick, prepare_reply};
use crate::waits::{is_there, none_before};
use mpi_call::call::{Call, Comm, Halt, Source, Tag, TakeMode};
use mpi_call::lists::Starts;
use mpi_call::reply;
use mpi_call::reply::{Items, Reply};
use picked_runs::picks::Picks;
use picked_runs::turn::{Pick, call_from};
use requests::answer::takes_one;
use requests::requests::{Requests, Started, TakeAnswer};
use run_model::history::History;
use run_model::program::Program;
use run_model::shape::is_test;
use std::alloc::{AllocError, Global};
use std::marker::Model;

/// A run of a program in the making. Contracts see the program, the number of ranks, the events so far, and the calls that ranks
/// wait with.
#[derive(Drop)]
pub struct Machine<'a, P: Program> {
    program: &'a P,
    course: Course,
    requests: Requests,
    /// What the events picked.
    picks: Picks,
    /// For each rank, where in the list of its waiting completion a start was not ready when that was last asked.
    places: [usize; 256],
}

impl<'a, P: Program> Model for Machine<'a, P> {
    ghost use Rattle.mpi_machine.specs.Turns.{MachineState};
    ghost use Rattle.mpi_machine.specs.Waits.{KeepsHistory};

    ghost Value = { MachineState P };

    ghost view = { λ m. record { program = m.program.now; ranks = m.course.ranks; events = m.course.events; kept = m.course.kept } };

    ghost invariant = { λ m. KeepsHistory (P.next m.program.now) m.course.ranks m.picks.written m.course.events m.course.kept m.requests };
}

impl<'a, P: Program> Machine<'a, P> {
    /// No events of the program on `ranks` ranks, of which none waits.
    pub fn new(alloc: Global, program: &'a P, ranks: u8) -> Result<Self, AllocError>
        requires { (0 < ranks) × (ranks ≤ MOST_RANKS) }
        ensures { IfOk result (λ machine. machine ≡ record { program = program.now; ranks = ranks; events = []; kept = replicate ranks None }) }
    {
        Ok(Machine {
            program,
            course: Course::new(alloc, ranks)?,
            requests: Requests::new(alloc, ranks)?,
            picks: Picks::new(alloc),
            places: [0; 256],
        })
    }

    /// One attempt of a rank with its next call.
    pub fn attempt(&mut self, rank: u8, call: Call) -> Result<Answer, AllocError>
        requires rank { rank < self.old.ranks }
        requires next { P.next self.old.program self.old.ranks rank (replies_in (view_of self.old.events rank)) ≡ Some call }
        ensures answer { IfOk result (λ answer. answer ≡ attempt_answer (P.next self.old.program) self.old.ranks self.old.events self.old.kept rank call) }
        ensures after { IfOk result (λ answer. self.new ≡ after_answer self.old rank call answer) }
        ensures err { OnErr result (self.new ≡ self.old) }

        // A rank's last reply takes no memory.
        ensures sure { takes_no_memory self.old.events call (chosen_reply self.old.ranks self.old.events rank call) ≡ true → IsOk result }

        // The reply may be given to the rank.
        ensures shape { IfOk result (λ answer. (reply : Reply) → answer ≡ Replied reply → MayGive (P.next self.old.program) self.old.ranks rank (replies_in (view_of self.old.events rank)) reply) }

        // Attempts one after the other make the run that the order of ranks fixes.
        ensures serial { OnOk result ((stage : Stage) → IsAtStage self.old stage → IsAtStage self.new (attempt (P.next self.old.program) self.old.ranks stage rank)) }
    {
        self.is_run();
        let turn = self.turn(rank, call)?;
        self.is_run();
        Ok(turn)
    }

    /// One attempt of a rank with its next call that takes a message of this sender: a receive gets its earliest Send that it accepts, and a
    /// probe finds it. Where there is none, or the call takes no message, or a halt is due, there is no reply and nothing has changed.
    pub fn attempt_from(
        &mut self,
        rank: u8,
        call: Call,
        sender: u8,
    ) -> Result<Option<Reply>, AllocError>
        requires rank { rank < self.old.ranks }
        requires next { P.next self.old.program self.old.ranks rank (replies_in (view_of self.old.events rank)) ≡ Some call }
        ensures answer { IfOk result (λ answer. answer ≡ picked_of self.old.ranks self.old.events rank call (Sender sender)) }
        ensures after { IfOk result (λ answer. self.new ≡ after_pick self.old rank call (Sender sender) answer) }
        ensures err { OnErr result (self.new ≡ self.old) }

        // The reply may be given to the rank.
        ensures shape { IfOk result (λ answer. (reply : Reply) → answer ≡ Some reply → MayGive (P.next self.old.program) self.old.ranks rank (replies_in (view_of self.old.events rank)) reply) }

        // It is the rank's turn with this pick.
        ensures serial { OnOk result ((stage : Stage) → IsAtStage self.old stage → IsAtStage self.new (take_turn (P.next self.old.program) self.old.ranks stage (record { rank = rank; pick = Sender sender }))) }
    {
        self.is_run();
        let answer = self.from(rank, call, sender)?;
        self.is_run();
        Ok(answer)
    }

    /// The attempt.
    fn from(&mut self, rank: u8, call: Call, sender: u8) -> Result<Option<Reply>, AllocError>
        requires asked { IsAsked (P.next self.old.program) self.old.ranks self.old.events rank call }
        ensures answer { IfOk result (λ answer. answer ≡ picked_of self.old.ranks self.old.events rank call (Sender sender)) }
        ensures after { IfOk result (λ answer. self.new ≡ after_pick self.old rank call (Sender sender) answer) }
        ensures err { OnErr result (self.new ≡ self.old) }
    {
        if self.course.bound().is_some() {
            return Ok(None);
        }
        match &call {
            Call::Post { .. } => self.post_from(rank, call, sender),
            Call::Peek { .. } => self.peek_from(rank, call, sender),
            _ => Ok(None),
        }
    }

    /// A receive that takes a message of this sender.
    fn post_from(&mut self, rank: u8, call: Call, sender: u8) -> Result<Option<Reply>, AllocError>
        requires asked { IsAsked (P.next self.old.program) self.old.ranks self.old.events rank call }
        requires bound { bound_of self.old.events ≡ None }
        requires kind { IsTrue (is_post call) }
        ensures answer { IfOk result (λ answer. answer ≡ picked_of self.old.ranks self.old.events rank call (Sender sender)) }
        ensures after { IfOk result (λ answer. self.new ≡ after_pick self.old rank call (Sender sender) answer) }
        ensures err { OnErr result (self.new ≡ self.old) }
    {
        let pick = self.pick_of_sender(rank, &call, sender);
        self.requests.knows_on();
        let at = prepare_pick(&mut self.course, &mut self.picks)?;
        let Some(mate) = self.requests.post_from(at, rank, &call, sender)? else {
            return Ok(None);
        };
        note(&mut self.picks, at, pick);
        self.course.append(rank, call, Reply::Done, Some(mate));
        Ok(Some(Reply::Done))
    }

    /// A probe that finds a message of this sender.
    fn peek_from(&mut self, rank: u8, call: Call, sender: u8) -> Result<Option<Reply>, AllocError>
        requires asked { IsAsked (P.next self.old.program) self.old.ranks self.old.events rank call }
        requires bound { bound_of self.old.events ≡ None }
        requires kind { IsTrue (is_peek call) }
        ensures answer { IfOk result (λ answer. answer ≡ picked_of self.old.ranks self.old.events rank call (Sender sender)) }
        ensures after { IfOk result (λ answer. self.new ≡ after_pick self.old rank call (Sender sender) answer) }
        ensures err { OnErr result (self.new ≡ self.old) }
    {
        let narrowed = call_from(sender, &call);
        let Some(at) = self.requests.peek(rank, &narrowed) else {
            return Ok(None);
        };
        let reply = self.peeked(at);
        let pick = self.pick_of_sender(rank, &call, sender);
        self.picked(rank, call, pick, reply)
    }

    /// What is written down of a receive or a probe that takes a message of this sender: nothing where it would take that message
    /// anyhow. Takes no memory.
    fn pick_of_sender(&self, rank: u8, call: &Call, sender: u8) -> Pick
        requires { looks call.now ≡ true }
        ensures { has_pick self.now.ranks self.now.events rank call.now (Sender sender) ≡ true → IsWritten self.now.ranks self.now.events rank call.now (Sender sender) result }
    {
        let narrowed = call_from(sender, call);
        if self.choice(rank, call) == self.choice(rank, &narrowed) {
            return Pick::First;
        }
        Pick::Sender(sender)
    }

    /// The position of the message that a receive or a probe takes where nothing is picked. Takes no memory.
    fn choice(&self, rank: u8, call: &Call) -> Option<u32>
        requires { looks call.now ≡ true }
        ensures { result ≡ choice self.now.events rank call.now }
    {
        match call {
            Call::Post {
                comm,
                source,
                tag,
                ..
            } => {
                let probe = Call::Peek {
                    comm: *comm,
                    source: *source,
                    tag: *tag,
                    wait: true,
                };
                self.requests.peek(rank, &probe)
            }
            _ => self.requests.peek(rank, call),
        }
    }

    /// One attempt of a rank with its next call that completes the start at this index of its list, where it completes one start. Where
    /// that start is not ready, or the call completes none or all of its starts, or a halt is due, there is no reply and nothing has
    /// changed.
    pub fn attempt_at(
        &mut self,
        rank: u8,
        call: Call,
        index: u32,
    ) -> Result<Option<Reply>, AllocError>
        requires rank { rank < self.old.ranks }
        requires next { P.next self.old.program self.old.ranks rank (replies_in (view_of self.old.events rank)) ≡ Some call }
        ensures answer { IfOk result (λ answer. answer ≡ picked_of self.old.ranks self.old.events rank call (Index index)) }
        ensures after { IfOk result (λ answer. self.new ≡ after_pick self.old rank call (Index index) answer) }
        ensures err { OnErr result (self.new ≡ self.old) }

        // The reply may be given to the rank.
        ensures shape { IfOk result (λ answer. (reply : Reply) → answer ≡ Some reply → MayGive (P.next self.old.program) self.old.ranks rank (replies_in (view_of self.old.events rank)) reply) }

        // It is the rank's turn with this pick.
        ensures serial { OnOk result ((stage : Stage) → IsAtStage self.old stage → IsAtStage self.new (take_turn (P.next self.old.program) self.old.ranks stage (record { rank = rank; pick = Index index }))) }
    {
        self.is_run();
        let answer = self.at(rank, call, index)?;
        self.is_run();
        Ok(answer)
    }

    /// The attempt.
    fn at(&mut self, rank: u8, call: Call, index: u32) -> Result<Option<Reply>, AllocError>
        requires asked { IsAsked (P.next self.old.program) self.old.ranks self.old.events rank call }
        ensures answer { IfOk result (λ answer. answer ≡ picked_of self.old.ranks self.old.events rank call (Index index)) }
        ensures after { IfOk result (λ answer. self.new ≡ after_pick self.old rank call (Index index) answer) }
        ensures err { OnErr result (self.new ≡ self.old) }
    {
        if self.course.bound().is_some() {
            return Ok(None);
        }
        match call {
            Call::Take { starts, mode } => {
                if !takes_one(mode) {
                    return Ok(None);
                }
                self.take_at(rank, starts, mode, index)
            }
            _ => Ok(None),
        }
    }

    /// A completion of one start that completes the one at this index of its list.
    fn take_at(
        &mut self,
        rank: u8,
        starts: Starts,
        mode: TakeMode,
        index: u32,
    ) -> Result<Option<Reply>, AllocError>
        requires asked { IsAsked (P.next self.old.program) self.old.ranks self.old.events rank (Take starts mode) }
        requires bound { bound_of self.old.events ≡ None }
        requires one { takes_one mode ≡ true }
        ensures answer { IfOk result (λ answer. answer ≡ picked_of self.old.ranks self.old.events rank (Take starts mode) (Index index)) }
        ensures after { IfOk result (λ answer. self.new ≡ after_pick self.old rank (Take starts mode) (Index index) answer) }
        ensures err { OnErr result (self.new ≡ self.old) }
    {
        let pick = self.pick_of_index(rank, &starts, index);
        let at = self.course.history().len();
        self.picks.reserve(at)?;
        let Some(answer) = self.requests.take_at(rank, &starts, index)? else {
            return Ok(None);
        };
        self.requests.knows_on();
        match answer {
            TakeAnswer::Took(items) => {
                let reply = took(
                    &mut self.course,
                    &mut self.requests,
                    rank,
                    starts,
                    mode,
                    items,
                )?;
                note(&mut self.picks, at, pick);
                Ok(Some(reply))
            }
            TakeAnswer::TooLong { start } => {
                let halt = Halt::Truncated { rank, start };
                note(&mut self.picks, at, pick);
                self.course.append(
                    rank,
                    Call::Take { starts, mode },
                    Reply::Stopped(halt),
                    None,
                );
                Ok(Some(Reply::Stopped(halt)))
            }
            _ => unreachable!(),
        }
    }

    /// What is written down of a completion of one start that completes the one at this index: nothing where it would complete that
    /// start anyhow. Takes no memory.
    fn pick_of_index(&self, rank: u8, starts: &Starts, index: u32) -> Pick
        ensures { (mode : TakeMode) → has_pick self.now.ranks self.now.events rank (Take starts.now mode) (Index index) ≡ true → IsWritten self.now.ranks self.now.events rank (Take starts.now mode) (Index index) result }
    {
        if none_before(&self.requests, rank, starts.as_slice(), index) {
            return Pick::First;
        }
        Pick::Index(index)
    }

    /// A reply to a call that picked, which is not the rank's last, and changes nothing that is known of starts.
    fn picked(
        &mut self,
        rank: u8,
        call: Call,
        pick: Pick,
        reply: Reply,
    ) -> Result<Option<Reply>, AllocError>
        requires reply { HasPicked (P.next self.old.program) (moment_at self.old.ranks self.old.events rank) call pick reply }
        requires bound { bound_of self.old.events ≡ None }
        requires more { ends (call, reply) ≡ false }
        requires no_start { is_start (call, reply) ≡ false }
        requires none_taken { taken_of ((call, reply) ∷ []) ≡ [] }
        ensures answer { IfOk result (λ answer. answer ≡ picked_of self.old.ranks self.old.events rank call pick) }
        ensures after { IfOk result (λ answer. self.new ≡ after_pick self.old rank call pick answer) }
        ensures err { OnErr result (self.new ≡ self.old) }
    {
        self.requests.knows_on();
        let at = prepare_pick(&mut self.course, &mut self.picks)?;
        let copied = reply::copy_of(&reply)?;
        note(&mut self.picks, at, pick);
        self.course.append(rank, call, reply, None);
        Ok(Some(copied))
    }

    /// Whether a rank waits with a call already, and an attempt of it would wait again. Takes no memory. The list of starts that it
    /// waits for all of is not walked from its beginning.
    pub fn waits_again(&mut self, rank: u8) -> bool
        requires rank { rank < self.old.ranks }
        ensures value { result ≡ waits_again (P.next self.old.program) self.old.ranks self.old.events self.old.kept rank }
        ensures same { self.new ≡ self.old }

        // So the attempt need not be made.
        ensures serial { result ≡ true → (stage : Stage) → IsAtStage self.old stage → IsAtStage self.new (attempt (P.next self.old.program) self.old.ranks stage rank) }
    {
        self.is_run();
        if self.course.bound().is_some() || self.course.kept(rank).is_none() {
            return false;
        }
        self.stands(rank) && !self.others_stand(rank)
    }

    /// The events so far are a run, and each rank has a place for its waiting call, which is
    /// its next one. The body does nothing: the machine's invariant says so, and callers take it from these clauses.
    fn is_run(&self)
        ensures run { IsPromptRun (P.next self.now.program) self.now.ranks self.now.events }
        ensures kept { length self.now.kept ≡ self.now.ranks }
        ensures waiting { AreWaitingCalls (P.next self.now.program) self.now.ranks self.now.events self.now.kept }
    {
        let _ = &self.program;
    }

    /// The attempt.
    fn turn(&mut self, rank: u8, call: Call) -> Result<Answer, AllocError>
        requires asked { IsAsked (P.next self.old.program) self.old.ranks self.old.events rank call }
        ensures answer { IfOk result (λ answer. answer ≡ attempt_answer (P.next self.old.program) self.old.ranks self.old.events self.old.kept rank call) }
        ensures after { IfOk result (λ answer. self.new ≡ after_answer self.old rank call answer) }
        ensures err { OnErr result (self.new ≡ self.old) }
        ensures sure { takes_no_memory self.old.events call (chosen_reply self.old.ranks self.old.events rank call) ≡ true → IsOk result }
    {
        if let Some(halt) = self.course.bound() {
            return Ok(self.last(rank, call, Some(halt)));
        }
        match call {
            Call::Send { .. } | Call::Post { .. } | Call::Enter { .. } => self.start(rank, call),
            Call::Take { starts, mode } => self.complete(rank, starts, mode),
            Call::Peek {
                comm,
                source,
                tag,
                wait,
            } => self.peek(rank, comm, source, tag, wait),
            Call::Abort { code } => {
                Ok(self.last(rank, call, Some(Halt::Aborted { rank, code })))
            }
            Call::Trap { fault } => {
                Ok(self.last(rank, call, Some(Halt::Trapped { rank, fault })))
            }
            Call::End => Ok(self.last(rank, call, None)),
        }
    }

    /// The last reply to a rank: a halt, or Done to its End. Takes no memory.
    fn last(&mut self, rank: u8, call: Call, halt: Option<Halt>) -> Answer
        requires reply { HasReply (P.next self.old.program) (moment_at self.old.ranks self.old.events rank) self.old.kept call (last_reply halt) }
        requires last { ends (call, last_reply halt) ≡ true }
        ensures answer { result ≡ attempt_answer (P.next self.old.program) self.old.ranks self.old.events self.old.kept rank call }
        ensures after { self.new ≡ after_answer self.old rank call result }
    {
        self.requests.knows_on();
        self.course.append(rank, call, last_reply(halt), None);
        Answer::Replied(last_reply(halt))
    }

    /// A reply that is not the rank's last, and changes nothing that is known of starts.
    fn answer(&mut self, rank: u8, call: Call, reply: Reply) -> Result<Answer, AllocError>
        requires reply { HasReply (P.next self.old.program) (moment_at self.old.ranks self.old.events rank) self.old.kept call reply }
        requires bound { bound_of self.old.events ≡ None }
        requires more { ends (call, reply) ≡ false }
        requires no_start { is_start (call, reply) ≡ false }
        requires none_taken { taken_of ((call, reply) ∷ []) ≡ [] }
        ensures answer { IfOk result (λ answer. answer ≡ attempt_answer (P.next self.old.program) self.old.ranks self.old.events self.old.kept rank call) }
        ensures after { IfOk result (λ answer. self.new ≡ after_answer self.old rank call answer) }
        ensures err { OnErr result (self.new ≡ self.old) }
    {
        self.requests.knows_on();
        let copied = prepare_reply(&mut self.course, &reply)?;
        self.course.append(rank, call, reply, None);
        Ok(Answer::Replied(copied))
    }

    /// A new start.
    fn start(&mut self, rank: u8, call: Call) -> Result<Answer, AllocError>
        requires asked { IsAsked (P.next self.old.program) self.old.ranks self.old.events rank call }
        requires bound { bound_of self.old.events ≡ None }
        requires kind { is_starting call ≡ true }
        ensures answer { IfOk result (λ answer. answer ≡ attempt_answer (P.next self.old.program) self.old.ranks self.old.events self.old.kept rank call) }
        ensures after { IfOk result (λ answer. self.new ≡ after_answer self.old rank call answer) }
        ensures err { OnErr result (self.new ≡ self.old) }
        ensures sure { takes_no_memory self.old.events call (chosen_reply self.old.ranks self.old.events rank call) ≡ true → IsOk result }
    {
        self.requests.knows_on();
        self.course.reserve()?;
        let at = self.course.history().len();
        match self.requests.start(at, rank, &call)? {
            Started::Made { mate, .. } => {
                self.course.append(rank, call, Reply::Done, mate);
                Ok(Answer::Replied(Reply::Done))
            }
            Started::Disagrees { .. } => {
                Ok(self.last(rank, call, Some(Halt::Mismatched { rank })))
            }
        }
    }

    /// A completion. A rank that waits with it already is not asked for its list again where what it waits for is not there.
    fn complete(&mut self, rank: u8, starts: Starts, mode: TakeMode) -> Result<Answer, AllocError>
        requires asked { IsAsked (P.next self.old.program) self.old.ranks self.old.events rank (Take starts mode) }
        requires bound { bound_of self.old.events ≡ None }
        ensures answer { IfOk result (λ answer. answer ≡ attempt_answer (P.next self.old.program) self.old.ranks self.old.events self.old.kept rank (Take starts mode)) }
        ensures after { IfOk result (λ answer. self.new ≡ after_answer self.old rank (Take starts mode) answer) }
        ensures err { OnErr result (self.new ≡ self.old) }
        ensures sure { takes_no_memory self.old.events (Take starts mode) (chosen_reply self.old.ranks self.old.events rank (Take starts mode)) ≡ true → IsOk result }
    {
        self.is_run();
        if self.stands(rank) {
            return self.held(rank, Call::Take { starts, mode }, false);
        }
        self.take(rank, starts, mode)
    }

    /// A completion, by its list of starts.
    fn take(&mut self, rank: u8, starts: Starts, mode: TakeMode) -> Result<Answer, AllocError>
        requires asked { IsAsked (P.next self.old.program) self.old.ranks self.old.events rank (Take starts mode) }
        requires bound { bound_of self.old.events ≡ None }
        ensures answer { IfOk result (λ answer. answer ≡ attempt_answer (P.next self.old.program) self.old.ranks self.old.events self.old.kept rank (Take starts mode)) }
        ensures after { IfOk result (λ answer. self.new ≡ after_answer self.old rank (Take starts mode) answer) }
        ensures err { OnErr result (self.new ≡ self.old) }
        ensures sure { takes_no_memory self.old.events (Take starts mode) (chosen_reply self.old.ranks self.old.events rank (Take starts mode)) ≡ true → IsOk result }
    {
        match self.requests.take(rank, &starts, mode)? {
            TakeAnswer::Took(items) => {
                let reply = took(
                    &mut self.course,
                    &mut self.requests,
                    rank,
                    starts,
                    mode,
                    items,
                )?;
                Ok(Answer::Replied(reply))
            }
            TakeAnswer::NotReady => { self.held(rank, Call::Take { starts, mode }, is_test(mode)) }
            TakeAnswer::TooLong { start } => {
                let halt = Halt::Truncated { rank, start };
                Ok(self.last(rank, Call::Take { starts, mode }, Some(halt)))
            }
            TakeAnswer::BadStart { start } => {
                let halt = Halt::BadRequest { rank, start };
                Ok(self.last(rank, Call::Take { starts, mode }, Some(halt)))
            }
        }
    }

    /// A probe.
    fn peek(
        &mut self,
        rank: u8,
        comm: Comm,
        source: Source,
        tag: Tag,
        wait: bool,
    ) -> Result<Answer, AllocError>
        requires asked { IsAsked (P.next self.old.program) self.old.ranks self.old.events rank (Peek comm source tag wait) }
        requires bound { bound_of self.old.events ≡ None }
        ensures answer { IfOk result (λ answer. answer ≡ attempt_answer (P.next self.old.program) self.old.ranks self.old.events self.old.kept rank (Peek comm source tag wait)) }
        ensures after { IfOk result (λ answer. self.new ≡ after_answer self.old rank (Peek comm source tag wait) answer) }
        ensures err { OnErr result (self.new ≡ self.old) }
        ensures sure { takes_no_memory self.old.events (Peek comm source tag wait) (chosen_reply self.old.ranks self.old.events rank (Peek comm source tag wait)) ≡ true → IsOk result }
    {
        let call = Call::Peek {
            comm,
            source,
            tag,
            wait,
        };
        match self.requests.peek(rank, &call) {
            Some(at) => {
                let reply = self.peeked(at);
                self.answer(rank, call, reply)
            }
            None => self.held(rank, call, !wait),
        }
    }

    /// The reply to a probe that finds the message at a position. Takes no memory.
    fn peeked(&self, at: u32) -> Reply
        requires { IsStartAt self.now.events at }
        ensures { result ≡ peeked_at self.now.events (name_at self.now.events at) }
    {
        let event = self.course.history().get(at);
        match &event.call {
            Call::Send { tag, ints, .. } => {
                let Ok(count) = u32::try_from(ints.as_slice().len()) else {
                    unreachable!()
                };
                Reply::Peeked {
                    source: event.rank,
                    start: self.requests.name_at(at),
                    tag: *tag,
                    count,
                }
            }
            _ => Reply::NotYet,
        }
    }

    /// A call whose condition fails: a test is answered NotYet; where no rank can go on, the answer is Stuck; else the rank
    /// waits.
    fn held(&mut self, rank: u8, call: Call, test: bool) -> Result<Answer, AllocError>
        requires asked { IsAsked (P.next self.old.program) self.old.ranks self.old.events rank call }
        requires bound { bound_of self.old.events ≡ None }
        requires held { IsHeldBack self.old.ranks self.old.events rank call test }
        ensures answer { IfOk result (λ answer. answer ≡ attempt_answer (P.next self.old.program) self.old.ranks self.old.events self.old.kept rank call) }
        ensures after { IfOk result (λ answer. self.new ≡ after_answer self.old rank call answer) }
        ensures err { OnErr result (self.new ≡ self.old) }
        ensures sure { takes_no_memory self.old.events call (chosen_reply self.old.ranks self.old.events rank call) ≡ true → IsOk result }
    {
        if test {
            return self.answer(rank, call, Reply::NotYet);
        }
        if self.others_stand(rank) {
            return Ok(self.last(rank, call, Some(Halt::Stuck)));
        }
        self.keep(rank, call);
        Ok(Answer::Wait)
    }

    /// The rank waits with its call. Takes no memory.
    fn keep(&mut self, rank: u8, call: Call)
        requires asked { IsAsked (P.next self.old.program) self.old.ranks self.old.events rank call }
        requires waiting { waits (view_of self.old.events rank) call ≡ true }
        ensures { self.new ≡ after_answer self.old rank call Wait }
    {
        self.course.keep(rank, call);
    }

    /// Whether no other rank can go on. Takes no memory.
    fn others_stand(&mut self, rank: u8) -> bool
        requires bound { bound_of self.old.events ≡ None }
        ensures value { (call : Call) → IsAsked (P.next self.old.program) self.old.ranks self.old.events rank call → can_go self.old.ranks self.old.events rank (view_of self.old.events rank) call ≡ false → result ≡ (is_stuck (P.next self.old.program) self.old.ranks self.old.events && others_wait (P.next self.old.program) self.old.ranks (stage_of self.old.events self.old.kept) rank) }
        ensures same { self.new ≡ self.old }
    {
        for other in 0..self.course.ranks() {
            if !self.is_still(other, rank) {
                return false;
            }
        }
        true
    }

    /// Whether a rank is this one, or stands. Takes no memory.
    fn is_still(&mut self, other: u8, rank: u8) -> bool
        requires rank { other < self.old.ranks }
        requires bound { bound_of self.old.events ≡ None }
        ensures value { result ≡ ((other == rank) || is_blocked_or_ended (P.next self.old.program) self.old.ranks self.old.events self.old.kept other) }
        ensures same { self.new ≡ self.old }
    {
        other == rank || self.stands(other)
    }

    /// Whether a rank has ended, or waits for what is not there. Takes no memory.
    fn stands(&mut self, rank: u8) -> bool
        requires rank { rank < self.old.ranks }
        requires bound { bound_of self.old.events ≡ None }
        ensures value { result ≡ is_blocked_or_ended (P.next self.old.program) self.old.ranks self.old.events self.old.kept rank }
        ensures same { self.new ≡ self.old }
    {
        if self.course.ended(rank) {
            return true;
        }
        match self.course.kept(rank) {
            Some(call) => !is_there(&self.requests, rank, call, &mut self.places[rank as usize]),
            None => false,
        }
    }

    /// The events so far: a run of the program. Takes no memory.
    pub fn history(&self) -> &History
        ensures events { result.now.events ≡ self.now.events }
        ensures run { IsPromptRun (P.next self.now.program) self.now.ranks self.now.events }
    {
        self.course.history()
    }

    /// The events so far, and what they picked: a run of the program that these picks make, and a pick only where an event needs one.
    /// Takes no memory.
    pub fn into_run(self) -> (History, Picks)
        ensures events { result.0.events ≡ self.entry.events }
        ensures picked { IsPicked (P.next self.entry.program) self.entry.ranks result.1.written result.0.events }
        ensures needed { AreNeeded self.entry.ranks [] result.1.written result.0.events }

        // So where the machine would have made all of them without picks, nothing is picked.
        ensures plain { IsPlain self.entry.ranks result.1.written result.0.events }
    {
        (self.course.into_history(), self.picks)
    }

    /// Whether a rank has ended: it makes no further call. Takes no memory.
    pub fn ended(&self, rank: u8) -> bool
        requires rank { rank < self.now.ranks }
        ensures value { result ≡ has_ended self.now.events rank }
        ensures next { result ≡ not (is_some (call_after (P.next self.now.program) self.now.ranks self.now.events rank)) }
    {
        self.course.ended(rank)
    }

    /// The halt, once there is a Stopped reply. Takes no memory.
    pub fn halt(&self) -> Option<Halt>
        ensures { result ≡ halted self.now.events }
    {
        self.course.halt()
    }
}

/// The last reply to a rank.
fn last_reply(halt: Option<Halt>) -> Reply
    ensures { result ≡ last_reply halt }
{
    match halt {
        Some(halt) => Reply::Stopped(halt),
        None => Reply::Done,
    }
}

/// The event of a completion that took these items, and its reply. When out of memory, they are not taken.
fn took(
    course: &mut Course,
    requests: &mut Requests,
    rank: u8,
    starts: Starts,
    mode: TakeMode,
    items: Items,
) -> Result<Reply, AllocError>
    requires rank { rank < course.old.ranks }
    requires row { rank < length requests.old.table.rows }
    requires live { has_ended course.old.events rank ≡ false }
    requires bound { bound_of course.old.events ≡ None }
    ensures ranks { course.new.ranks ≡ course.old.ranks }
    ensures reply { IfOk result (λ reply. reply ≡ TookReply items) }
    ensures events { OnOk result (course.new.events ≡ course.old.events ++ took_event rank starts mode items ∷ []) }
    ensures kept { OnOk result (course.new.kept ≡ slice_set course.old.kept rank None) }
    ensures known { OnOk result (requests.new ≡ requests.old) }
    ensures same_events { OnErr result (course.new.events ≡ course.old.events) }
    ensures same_kept { OnErr result (course.new.kept ≡ course.old.kept) }
    ensures back { OnErr result ((before : MatchingState) → AreHandedOut before.table rank starts items → requests.old ≡ with_rows (rows_after before.table.rows rank starts (TookItems items)) before → requests.new ≡ before) }
{
    let Ok(copied) = prepare(course, &items) else {
        requests.untake(rank, &starts, &items);
        return Err(AllocError);
    };
    course.append(rank, Call::Take { starts, mode }, Reply::Took(items), None);
    Ok(Reply::Took(copied))
}
