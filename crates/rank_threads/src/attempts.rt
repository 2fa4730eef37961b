//! What ranks do under the lock: attempts at their next calls, each at most one event.
ghost use Rattle.std.specs.Prelude.{◌≡◌, true};
ghost use Rattle.mpi_call.specs.declared.reply.Reply.{Reply};
ghost use Rattle.run_model.specs.Program.{MayGive};
ghost use Rattle.turn_lock.specs.Entries.{entries_of};
ghost use Rattle.rank_threads.specs.inside.Reading.{FrameReading, AddsReply, replies_of, is_run, seat_of, program_of, ranks_of};
ghost use Rattle.rank_threads.specs.declared.attempts.Attempt.TheVariants.{Replied};

use mpi_call::call::Call;
use mpi_call::reply::Reply;
use run_model::program::Program;
use turn_lock::Ledger;

/// What came of an attempt.
#[derive(Drop)]
pub enum Attempt {
    /// The call has this reply, which is one entry more.
    Replied(Reply),
    /// The call waits for what another rank does.
    Waits,
    /// The rank makes no further entry, whatever the others do.
    Stops,
    /// The attempt was not made, or not to its end: in it, or in an earlier one of any rank, there was no memory.
    Short,
}

/// A locked value on which ranks make their attempts. Its frame tells the program, how many ranks there are, which of them run and
/// the seat of each; an entry tells its reply. So what a seat's own entries say is all that its rank's run has to know.
pub trait Attempts<P: Program>: Ledger {
    ghost reading: { FrameReading P Self.Entry Self.Frame };

    /// One attempt of a rank that runs, with its next call. It adds the reply as one entry of the rank's seat, or nothing.
    fn attempt(&mut self, rank: u8, call: &Call) -> Attempt
        requires runs { is_run reading (Self.frame self.old) rank ≡ true }
        requires next { P.next (program_of reading (Self.frame self.old)) (ranks_of reading (Self.frame self.old)) rank (replies_of reading (entries_of (seat_of reading (Self.frame self.old) rank) (Self.entries self.old))) ≡ Some call.now }
        ensures frame { Self.frame self.new ≡ Self.frame self.old }
        ensures entries { AddsReply reading (seat_of reading (Self.frame self.old) rank) (Self.entries self.old) (Self.entries self.new) result }
        ensures shape { (reply : Reply) → result ≡ Replied reply → MayGive (P.next (program_of reading (Self.frame self.old))) (ranks_of reading (Self.frame self.old)) rank (replies_of reading (entries_of (seat_of reading (Self.frame self.old) rank) (Self.entries self.old))) reply };

    /// There was no memory: from now on every attempt answers `Short`.
    fn give_up(&mut self)
        ensures frame { Self.frame self.new ≡ Self.frame self.old }
        ensures entries { Self.entries self.new ≡ Self.entries self.old };
}
