//! Attempts of ranks on one machine: in the order of turns, and in rounds.
ghost use Rattle.std.specs.Prelude.{◌≡◌, ◌<◌, ◌≤◌, ◌∷◌, [], ℕ, All, false, MatchBool, OnOk, is_some, true};
ghost use Rattle.run_model.specs.Lists.{world};
ghost use Rattle.run_model.specs.Program.{IsAfter};
ghost use Rattle.run_model.specs.Serial.{call_after};
ghost use Rattle.picked_runs.specs.declared.turn.Pick.TheVariants.{Index, Sender};
ghost use Rattle.srr_record.specs.Recordings.{AreRuns};
ghost use Rattle.srr_record.specs.Rounds.{GoesBy, GoesByRounds, GoesByTurns, HaveEnded, IsOnlyOf};

use mpi_call::limits::MOST_RANKS;
use mpi_machine::answer::Answer;
use mpi_machine::machine::Machine;
use picked_runs::turn::{Pick, Turn};
use run_model::program::{Program, RankRun, Want};
use std::alloc::AllocError;

/// One attempt of a rank, where it is live. A rank that would wait again with the same call is not asked for it.
fn try_rank<P: Program, R: RankRun<Of = P>>(
    machine: &mut Machine<'_, P>,
    run: &mut R,
    rank: u8,
) -> Result<(), AllocError>
    requires rank { rank < machine.old.ranks }
    requires run { IsAfter machine.old.program machine.old.ranks rank machine.old.events (R.standing run.old) }
    ensures run { OnOk result (IsAfter machine.old.program machine.old.ranks rank machine.new.events (R.standing run.new)) }
    ensures others { OnOk result (IsOnlyOf rank machine.old.events machine.new.events) }
    ensures goes { OnOk result (GoesBy (P.next machine.old.program) (rank ∷ []) machine.old machine.new) }
{
    if machine.waits_again(rank) {
        return Ok(());
    }
    let call = match run.want()? {
        Want::Ended => return Ok(()),
        Want::Ask(call) => call,
    };
    if let Answer::Replied(reply) = machine.attempt(rank, call)? {
        run.give(&reply)?;
    }
    Ok(())
}

/// One attempt of a rank that takes a message of this sender, where the rank is live and such a message is there.
fn try_from<P: Program, R: RankRun<Of = P>>(
    machine: &mut Machine<'_, P>,
    run: &mut R,
    rank: u8,
    sender: u8,
) -> Result<(), AllocError>
    requires rank { rank < machine.old.ranks }
    requires run { IsAfter machine.old.program machine.old.ranks rank machine.old.events (R.standing run.old) }
    ensures run { OnOk result (IsAfter machine.old.program machine.old.ranks rank machine.new.events (R.standing run.new)) }
    ensures others { OnOk result (IsOnlyOf rank machine.old.events machine.new.events) }
    ensures goes { OnOk result (GoesByTurns (P.next machine.old.program) ((record { rank = rank; pick = Sender sender }) ∷ []) machine.old machine.new) }
{
    let call = match run.want()? {
        Want::Ended => return Ok(()),
        Want::Ask(call) => call,
    };
    if let Some(reply) = machine.attempt_from(rank, call, sender)? {
        run.give(&reply)?;
    }
    Ok(())
}

/// One attempt of a rank that completes the start at this index of its list, where the rank is live and that start is ready.
fn try_at<P: Program, R: RankRun<Of = P>>(
    machine: &mut Machine<'_, P>,
    run: &mut R,
    rank: u8,
    index: u32,
) -> Result<(), AllocError>
    requires rank { rank < machine.old.ranks }
    requires run { IsAfter machine.old.program machine.old.ranks rank machine.old.events (R.standing run.old) }
    ensures run { OnOk result (IsAfter machine.old.program machine.old.ranks rank machine.new.events (R.standing run.new)) }
    ensures others { OnOk result (IsOnlyOf rank machine.old.events machine.new.events) }
    ensures goes { OnOk result (GoesByTurns (P.next machine.old.program) ((record { rank = rank; pick = Index index }) ∷ []) machine.old machine.new) }
{
    let call = match run.want()? {
        Want::Ended => return Ok(()),
        Want::Ask(call) => call,
    };
    if let Some(reply) = machine.attempt_at(rank, call, index)? {
        run.give(&reply)?;
    }
    Ok(())
}

/// A turn, where its rank is live and its pick can be made.
fn try_turn<P: Program, R: RankRun<Of = P>>(
    machine: &mut Machine<'_, P>,
    run: &mut R,
    turn: Turn,
) -> Result<(), AllocError>
    requires rank { turn.rank < machine.old.ranks }
    requires run { IsAfter machine.old.program machine.old.ranks turn.rank machine.old.events (R.standing run.old) }
    ensures run { OnOk result (IsAfter machine.old.program machine.old.ranks turn.rank machine.new.events (R.standing run.new)) }
    ensures others { OnOk result (IsOnlyOf turn.rank machine.old.events machine.new.events) }
    ensures goes { OnOk result (GoesByTurns (P.next machine.old.program) (turn ∷ []) machine.old machine.new) }
{
    match turn.pick {
        Pick::First => try_rank(machine, run, turn.rank),
        Pick::Sender(sender) => try_from(machine, run, turn.rank, sender),
        Pick::Index(index) => try_at(machine, run, turn.rank, index),
    }
}

/// These turns in order.
pub fn take_turns<P: Program, R: RankRun<Of = P>>(
    machine: &mut Machine<'_, P>,
    runs: &mut [R],
    turns: &[Turn],
) -> Result<(), AllocError>
    requires turns { All (λ turn. turn.rank < machine.old.ranks) turns.now }
    requires runs { AreRuns R.standing machine.old.program machine.old.ranks machine.old.events runs.old }
    ensures runs { OnOk result (AreRuns R.standing machine.old.program machine.old.ranks machine.new.events runs.new) }
    ensures goes { OnOk result (GoesByTurns (P.next machine.old.program) turns.now machine.old machine.new) }
{
    for turn in turns {
        try_turn(machine, &mut runs[turn.rank as usize], *turn)?;
    }
    Ok(())
}

/// One attempt of each live rank, rising.
fn round<P: Program, R: RankRun<Of = P>>(
    machine: &mut Machine<'_, P>,
    runs: &mut [R],
) -> Result<(), AllocError>
    requires few { machine.old.ranks ≤ MOST_RANKS }
    requires runs { AreRuns R.standing machine.old.program machine.old.ranks machine.old.events runs.old }
    ensures runs { OnOk result (AreRuns R.standing machine.old.program machine.old.ranks machine.new.events runs.new) }
    ensures goes { OnOk result (GoesBy (P.next machine.old.program) (world machine.old.ranks 0) machine.old machine.new) }
{
    for (rank, run) in runs.iter_mut().enumerate() {
        try_rank(machine, run, rank as u8)?;
    }
    Ok(())
}

/// Whether a rank makes a further call. Takes no memory.
fn is_live<P: Program>(machine: &Machine<'_, P>, ranks: u8) -> bool
    requires { ranks ≡ machine.now.ranks }
    ensures { MatchBool result ((rank : ℕ) × (rank < ranks) × (is_some (call_after (P.next machine.now.program) ranks machine.now.events rank) ≡ true)) (HaveEnded (P.next machine.now.program) ranks machine.now.events) }
{
    for rank in 0..ranks {
        if !machine.ended(rank) {
            return true;
        }
    }
    false
}

/// Rounds over all ranks, rising, until each has ended. In each round with a live rank there is an event.
pub fn make_rounds<P: Program, R: RankRun<Of = P>>(
    machine: &mut Machine<'_, P>,
    runs: &mut [R],
) -> Result<(), AllocError>
    requires few { machine.old.ranks ≤ MOST_RANKS }
    requires runs { AreRuns R.standing machine.old.program machine.old.ranks machine.old.events runs.old }
    ensures runs { OnOk result (AreRuns R.standing machine.old.program machine.old.ranks machine.new.events runs.new) }
    ensures goes { OnOk result (GoesByRounds (P.next machine.old.program) machine.old machine.new) }
    ensures ended { OnOk result (HaveEnded (P.next machine.old.program) machine.old.ranks machine.new.events) }
{
    let ranks = runs.len() as u8;
    // For the proof that the loop ends: the number of events is below 2^32, and each round adds to it.
    let mut count = machine.history().len();
    while is_live(machine, ranks) {
        round(machine, runs)?;
        count = machine.history().len();
    }
    Ok(())
}
