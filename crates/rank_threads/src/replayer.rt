//! A replay under the lock. Its entries are its events, and its frame is its program, log and breakpoint.
ghost use Rattle.std.specs.Prelude.{◌≡◌, IfOk, OnErr, Some, true};
ghost use Rattle.mpi_call.specs.Collectives.{is_member};
ghost use Rattle.mpi_call.specs.declared.reply.Reply.{Reply};
ghost use Rattle.run_model.specs.Program.{MayGive};
ghost use Rattle.run_model.specs.Views.{replies_in, view_of};
ghost use Rattle.rank_threads.specs.inside.Numbered.{AddsEvent};
ghost use Rattle.rank_threads.specs.declared.attempts.Attempt.TheVariants.{Replied};

use crate::attempts::{Attempt, Attempts};
use mpi_call::call::Call;
use replay_model::step::Step;
use run_model::event::Event;
use run_model::program::Program;
use srr_entry::log::Log;
use srr_replay::replay::Replay;
use std::alloc::AllocError;
use turn_lock::Ledger;

/// A replay on which the ranks of its group make their attempts. The k-th rank of the group has seat k.
#[derive(Drop)]
pub struct Replayer<'a, P: Program> {
    pub replay: Box<Replay<'a, P>>,
    /// Whether there was no memory, for the replay or for a rank. Then no attempt is made.
    pub is_short: bool,
}

impl<'a, P: Program> Ledger for Replayer<'a, P> {
    ghost use Rattle.rank_threads.specs.inside.Numbered.{numbered, place_in};

    type Entry = Event;

    type Frame = (P, Log, Option<(u8, u32)>);

    ghost entries = { λ s. numbered (place_in s.replay.value.log.group) s.replay.value.events };

    ghost frame = { λ s. (s.replay.value.program, s.replay.value.log, s.replay.value.stop) };
}

impl<'a, P: Program> Attempts<P> for Replayer<'a, P> {
    ghost use Rattle.rank_threads.specs.inside.Readings.{replay_reading};

    ghost reading = { replay_reading };

    fn attempt(&mut self, rank: u8, call: &Call) -> Attempt {
        if self.is_short {
            return Attempt::Short;
        }
        match step(&mut self.replay, rank, call) {
            Ok(answer) => answer,
            Err(_) => {
                self.is_short = true;
                Attempt::Short
            }
        }
    }

    fn give_up(&mut self) {
        self.is_short = true;
    }
}

/// An attempt at the replay. At its breakpoint, at its log's end and where it diverged a rank stops. The error is being out of
/// memory; then the replay is unchanged.
fn step<P: Program>(
    replay: &mut Replay<'_, P>,
    rank: u8,
    call: &Call,
) -> Result<Attempt, AllocError>
    requires member { is_member replay.old.log.group rank ≡ true }
    requires next { P.next replay.old.program replay.old.log.ranks rank (replies_in (view_of replay.old.events rank)) ≡ Some call.now }
    ensures program { replay.new.program ≡ replay.old.program }
    ensures log { replay.new.log ≡ replay.old.log }
    ensures stop { replay.new.stop ≡ replay.old.stop }
    ensures events { IfOk result (λ answer. AddsEvent rank replay.old.events replay.new.events answer) }
    ensures shape { IfOk result (λ answer. (reply : Reply) → answer ≡ Replied reply → MayGive (P.next replay.old.program) replay.old.log.ranks rank (replies_in (view_of replay.old.events rank)) reply) }
    ensures err { OnErr result (replay.new ≡ replay.old) }
{
    match replay.attempt(rank, call)? {
        Step::Replied(reply) => Ok(Attempt::Replied(reply)),
        Step::Wait(_) => Ok(Attempt::Waits),
        _ => Ok(Attempt::Stops),
    }
}
