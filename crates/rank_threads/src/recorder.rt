//! A recording machine under the lock. Its entries are its events, and its frame is its program and number of ranks.
ghost use Rattle.std.specs.Prelude.{◌≡◌, ◌<◌, IfOk, OnErr, Some};
ghost use Rattle.mpi_call.specs.declared.reply.Reply.{Reply};
ghost use Rattle.run_model.specs.Program.{MayGive};
ghost use Rattle.run_model.specs.Views.{replies_in, view_of};
ghost use Rattle.rank_threads.specs.inside.Numbered.{AddsEvent};
ghost use Rattle.rank_threads.specs.declared.attempts.Attempt.TheVariants.{Replied};

use crate::attempts::{Attempt, Attempts};
use mpi_call::call;
use mpi_call::call::Call;
use mpi_machine::answer::Answer;
use mpi_machine::machine::Machine;
use run_model::event::Event;
use run_model::program::Program;
use std::alloc::AllocError;
use turn_lock::Ledger;

/// A machine on which ranks make their attempts. Rank k has seat k.
#[derive(Drop)]
pub struct Recorder<'a, P: Program> {
    pub machine: Box<Machine<'a, P>>,
    /// Whether there was no memory, for the machine or for a rank. Then no attempt is made.
    pub is_short: bool,
}

impl<'a, P: Program> Ledger for Recorder<'a, P> {
    ghost use Rattle.rank_threads.specs.inside.Numbered.{numbered};

    type Entry = Event;

    type Frame = (P, u8);

    ghost entries = { λ s. numbered (λ rank. rank) s.machine.value.events };

    ghost frame = { λ s. (s.machine.value.program, s.machine.value.ranks) };
}

impl<'a, P: Program> Attempts<P> for Recorder<'a, P> {
    ghost use Rattle.rank_threads.specs.inside.Readings.{machine_reading};

    ghost reading = { machine_reading };

    fn attempt(&mut self, rank: u8, call: &Call) -> Attempt {
        if self.is_short {
            return Attempt::Short;
        }
        match turn(&mut self.machine, rank, call) {
            Ok(answer) => answer,
            Err(_) => {
                self.is_short = true;
                Attempt::Short
            }
        }
    }

    fn give_up(&mut self) {
        self.is_short = true;
    }
}

/// An attempt at the machine, with a copy of the call, which is not made where the rank would wait again. The error is being out of
/// memory; then the machine is unchanged.
fn turn<P: Program>(
    machine: &mut Machine<'_, P>,
    rank: u8,
    call: &Call,
) -> Result<Attempt, AllocError>
    requires rank { rank < machine.old.ranks }
    requires next { P.next machine.old.program machine.old.ranks rank (replies_in (view_of machine.old.events rank)) ≡ Some call.now }
    ensures program { machine.new.program ≡ machine.old.program }
    ensures ranks { machine.new.ranks ≡ machine.old.ranks }
    ensures events { IfOk result (λ answer. AddsEvent rank machine.old.events machine.new.events answer) }
    ensures shape { IfOk result (λ answer. (reply : Reply) → answer ≡ Replied reply → MayGive (P.next machine.old.program) machine.old.ranks rank (replies_in (view_of machine.old.events rank)) reply) }
    ensures err { OnErr result (machine.new ≡ machine.old) }
{
    if machine.waits_again(rank) {
        return Ok(Attempt::Waits);
    }
    let call = call::copy_of(call)?;
    match machine.attempt(rank, call)? {
        Answer::Replied(reply) => Ok(Attempt::Replied(reply)),
        Answer::Wait => Ok(Attempt::Waits),
    }
}
