//! A whole replay on one thread, from its beginning or from any event of it.
ghost use Rattle.std.specs.Prelude.{◌≡◌, ◌<◌, ◌++◌, ◌∷◌, [], OnOk, IfOk, length, map, Some, true, false, ℕ, List};
ghost use Rattle.mpi_call.specs.Collectives.{is_distinct, is_member};
ghost use Rattle.run_model.specs.declared.event.Event.{Event};
ghost use Rattle.run_model.specs.Lists.{IsPrefixOf};
ghost use Rattle.run_model.specs.Program.{IsAfter};
ghost use Rattle.run_model.specs.Views.{view_of, replies_in};
ghost use Rattle.replay_model.specs.Laws.{IsReplayOfEveryRun};
ghost use Rattle.replay_model.specs.Replays.{IsExhausted, IsWholeReplay};
ghost use Rattle.srr_replay.specs.inside.Kept.{AreCallsOfRuns, IsKeptCall};
ghost use Rattle.srr_replay.specs.Rounds.{AreReplayedRounds, GrowsBy, HasNoStep, IsReplayable, RunAll, SameReplay, replay_attempt, replay_attempts};
ghost use Rattle.replay_model.specs.Stands.{IsReplayed, stand_of};
ghost use Rattle.srr_entry.specs.Outputs.{printed_of};

use crate::kept::{next_call, no_calls};
use crate::replay::Replay;
use mpi_call::call::Call;
use mpi_call::lists::Ranks;
use replay_model::laws::{begins_every_run, has_all_of_every_run, has_the_cut, replays_agree};
use replay_model::replayed::{Replayed, Stand, Stands};
use replay_model::step::Step;
use run_model::history::History;
use run_model::lists::Outputs;
use run_model::program::{Program, RankRun, Want};
use srr_entry::log::Log;
use std::alloc::{AllocError, Global};
use wiz_base::bytes::Bytes;

/// One attempt of one rank, where it is live. Tells whether it made an event; if not, the rank's call is kept for the next attempt.
fn try_rank<P: Program, R: RankRun<Of = P>>(
    replay: &mut Replay<'_, P>,
    run: &mut R,
    kept: &mut Option<Call>,
    rank: u8,
) -> Result<bool, AllocError>
    requires member { is_member replay.old.log.group rank ≡ true }
    requires run { IsAfter replay.old.program replay.old.log.ranks rank replay.old.events (R.standing run.old) }
    requires kept { IsKeptCall P.next (R.standing run.old) kept.old }
    ensures same { SameReplay replay.old replay.new }
    ensures run { OnOk result (IsAfter replay.old.program replay.old.log.ranks rank replay.new.events (R.standing run.new)) }
    ensures kept { OnOk result (IsKeptCall P.next (R.standing run.new) kept.new) }
    ensures grows { IfOk result (λ moved. GrowsBy rank replay.old.events replay.new.events moved) }
    ensures rests { IfOk result (λ moved. moved ≡ false → HasNoStep (P.next replay.old.program) replay.old.log replay.old.stop replay.old.events rank) }
    ensures goes { OnOk result (replay.new.events ≡ replay_attempt (P.next replay.old.program) replay.old.log replay.old.stop replay.old.events rank) }
{
    let Some(call) = next_call(run, kept)? else {
        return Ok(false);
    };
    let moved = try_call(replay, run, rank, &call)?;
    if !moved {
        *kept = Some(call);
    }
    Ok(moved)
}

/// One attempt of a rank with its next call.
fn try_call<P: Program, R: RankRun<Of = P>>(
    replay: &mut Replay<'_, P>,
    run: &mut R,
    rank: u8,
    call: &Call,
) -> Result<bool, AllocError>
    requires member { is_member replay.old.log.group rank ≡ true }
    requires run { IsAfter replay.old.program replay.old.log.ranks rank replay.old.events (R.standing run.old) }
    requires asked { (R.standing run.old).asked ≡ true }
    requires next { P.next replay.old.program replay.old.log.ranks rank (replies_in (view_of replay.old.events rank)) ≡ Some call.now }
    ensures same { SameReplay replay.old replay.new }
    ensures run { OnOk result (IsAfter replay.old.program replay.old.log.ranks rank replay.new.events (R.standing run.new)) }
    ensures stays { IfOk result (λ moved. moved ≡ false → R.standing run.new ≡ R.standing run.old) }
    ensures grows { IfOk result (λ moved. GrowsBy rank replay.old.events replay.new.events moved) }
    ensures rests { IfOk result (λ moved. moved ≡ false → HasNoStep (P.next replay.old.program) replay.old.log replay.old.stop replay.old.events rank) }
    ensures goes { OnOk result (replay.new.events ≡ replay_attempt (P.next replay.old.program) replay.old.log replay.old.stop replay.old.events rank) }
{
    match replay.attempt(rank, call)? {
        Step::Replied(reply) => {
            run.give(&reply)?;
            Ok(true)
        }
        _ => Ok(false),
    }
}

/// One attempt of each live rank of the group, rising. Tells whether there was an event.
fn round<P: Program, R: RankRun<Of = P>>(
    replay: &mut Replay<'_, P>,
    group: &[u8],
    runs: &mut [R],
    kept: &mut [Option<Call>],
) -> Result<bool, AllocError>
    requires group { group.now ≡ replay.old.log.group }
    requires distinct { is_distinct replay.old.log.group ≡ true }
    requires runs { RunAll R.standing replay.old.program replay.old.log replay.old.events runs.old }
    requires kept { AreCallsOfRuns P.next R.standing runs.old kept.old }
    ensures same { SameReplay replay.old replay.new }
    ensures runs { OnOk result (RunAll R.standing replay.old.program replay.old.log replay.new.events runs.new) }
    ensures kept { OnOk result (AreCallsOfRuns P.next R.standing runs.new kept.new) }
    ensures begins { OnOk result (IsPrefixOf replay.old.events replay.new.events) }
    ensures moved { IfOk result (λ moved. moved ≡ true → length replay.old.events < length replay.new.events) }
    ensures still { IfOk result (λ moved. moved ≡ false → replay.new.events ≡ replay.old.events) }
    ensures rests { IfOk result (λ moved. moved ≡ false → IsExhausted (P.next replay.old.program) replay.old.log replay.old.stop replay.new.events) }
    ensures goes { OnOk result (replay.new.events ≡ replay_attempts (P.next replay.old.program) replay.old.log replay.old.stop replay.old.events replay.old.log.group) }
{
    let mut moved = false;
    for (k, run) in runs.iter_mut().enumerate() {
        if try_rank(replay, run, &mut kept[k], group[k])? {
            moved = true;
        }
    }
    Ok(moved)
}

/// Replays the group on one thread: rounds over its ranks, rising, until a round has no event. Run k is the k-th rank of
/// the group, just started; no rank outside the group is run.
pub fn replay_serial<P: Program, R: RankRun<Of = P>>(
    alloc: Global,
    program: &P,
    log: &Log,
    mut runs: Vec<R>,
    stop: Option<(u8, u32)>,
) -> Result<Replayed, AllocError>
    requires log { IsReplayable log.now }
    requires runs { RunAll R.standing program.now log.now [] runs.items }
    ensures rounds { IfOk result (λ replayed. AreReplayedRounds (P.next program.now) log.now stop [] replayed.events.events) }
    ensures replay { IfOk result (λ replayed. IsReplayed (P.next program.now) (P.output program.now) (P.variables program.now) log.now stop replayed) }
    ensures runs { IfOk result (λ replayed. IsReplayOfEveryRun (P.next program.now) (P.output program.now) log.now stop replayed) }
    ensures alike { IfOk result (λ replayed. (other : List Event) → IsWholeReplay (P.next program.now) log.now stop other → (rank : ℕ) → view_of replayed.events.events rank ≡ view_of other rank) }
{
    let replayed = replay_all(alloc, program, log, runs.as_mut_slice(), stop)?;
    shows_every_run(program, log, &stop, &replayed);
    Ok(replayed)
}

/// Goes on with a replay, whatever the order of its events so far, until no rank of the group has a step: rounds over its ranks, rising.
/// Run k is that of the k-th rank of the group, after its events so far.
pub fn finish_replay<P: Program, R: RankRun<Of = P>>(
    alloc: Global,
    replay: Replay<'_, P>,
    mut runs: Vec<R>,
) -> Result<Replayed, AllocError>
    requires runs { RunAll R.standing replay.program replay.log replay.events runs.items }
    ensures begins { IfOk result (λ replayed. IsPrefixOf replay.entry.events replayed.events.events) }
    ensures rounds { IfOk result (λ replayed. AreReplayedRounds (P.next replay.entry.program) replay.entry.log replay.entry.stop replay.entry.events replayed.events.events) }
    ensures replay { IfOk result (λ replayed. IsReplayed (P.next replay.entry.program) (P.output replay.entry.program) (P.variables replay.entry.program) replay.entry.log replay.entry.stop replayed) }
    ensures runs { IfOk result (λ replayed. IsReplayOfEveryRun (P.next replay.entry.program) (P.output replay.entry.program) replay.entry.log replay.entry.stop replayed) }
    ensures alike { IfOk result (λ replayed. (other : List Event) → IsWholeReplay (P.next replay.entry.program) replay.entry.log replay.entry.stop other → (rank : ℕ) → view_of replayed.events.events rank ≡ view_of other rank) }
{
    let (program, log, stop) = replay.told();
    let replayed = finish(alloc, replay, runs.as_mut_slice())?;
    shows_every_run(program, log, &stop, &replayed);
    Ok(replayed)
}

/// A whole replay shows every run with its log, by the laws of replay.
fn shows_every_run<P: Program>(
    program: &P,
    log: &Log,
    stop: &Option<(u8, u32)>,
    replayed: &Replayed,
)
    requires { IsReplayed (P.next program.now) (P.output program.now) (P.variables program.now) log.now stop.now replayed.now }
    ensures runs { IsReplayOfEveryRun (P.next program.now) (P.output program.now) log.now stop.now replayed.now }
    ensures alike { (other : List Event) → IsWholeReplay (P.next program.now) log.now stop.now other → (rank : ℕ) → view_of replayed.now.events.events rank ≡ view_of other rank }
{
    begins_every_run(program, log, stop, &replayed.events);
    has_the_cut(program, log, stop, &replayed.events);
    has_all_of_every_run(program, log, stop, &replayed.events);
    replays_agree(program, log, stop);
}

/// The rest of a replay, with these runs.
fn finish<P: Program, R: RankRun<Of = P>>(
    alloc: Global,
    mut replay: Replay<'_, P>,
    runs: &mut [R],
) -> Result<Replayed, AllocError>
    requires runs { RunAll R.standing replay.program replay.log replay.events runs.old }
    ensures begins { IfOk result (λ replayed. IsPrefixOf replay.entry.events replayed.events.events) }
    ensures rounds { IfOk result (λ replayed. AreReplayedRounds (P.next replay.entry.program) replay.entry.log replay.entry.stop replay.entry.events replayed.events.events) }
    ensures replay { IfOk result (λ replayed. IsReplayed (P.next replay.entry.program) (P.output replay.entry.program) (P.variables replay.entry.program) replay.entry.log replay.entry.stop replayed) }
{
    let (_, log, _) = replay.told();
    let group = log.group.as_slice();
    let ends = run_all(alloc, &mut replay, group, runs);
    replayed(alloc, group, replay.into_events(), ends?)
}

/// The whole replay of these runs.
fn replay_all<P: Program, R: RankRun<Of = P>>(
    alloc: Global,
    program: &P,
    log: &Log,
    runs: &mut [R],
    stop: Option<(u8, u32)>,
) -> Result<Replayed, AllocError>
    requires log { IsReplayable log.now }
    requires runs { RunAll R.standing program.now log.now [] runs.old }
    ensures rounds { IfOk result (λ replayed. AreReplayedRounds (P.next program.now) log.now stop [] replayed.events.events) }
    ensures replay { IfOk result (λ replayed. IsReplayed (P.next program.now) (P.output program.now) (P.variables program.now) log.now stop replayed) }
{
    let replay = Replay::new(alloc, program, log, stop)?;
    finish(alloc, replay, runs)
}

/// The replay of a group, of its parts.
fn replayed(
    alloc: Global,
    group: &[u8],
    events: History,
    ends: Ends,
) -> Result<Replayed, AllocError>
    ensures { IfOk result (λ replayed. replayed ≡ record { group = group.now; events = events; outputs = ends.outputs; ends = ends.stands }) }
{
    let group = Ranks::from_slice(alloc, group)?;
    Ok(Replayed {
        group,
        events,
        outputs: ends.outputs,
        ends: ends.stands,
    })
}

/// What some ranks printed, and the stand of each, in order.
#[derive(Drop)]
struct Ends {
    outputs: Outputs,
    stands: Stands,
}

/// Replays until no rank has a step. Gives the outputs and stands of the group.
fn run_all<P: Program, R: RankRun<Of = P>>(
    alloc: Global,
    replay: &mut Replay<'_, P>,
    group: &[u8],
    runs: &mut [R],
) -> Result<Ends, AllocError>
    requires group { group.now ≡ replay.old.log.group }
    requires distinct { is_distinct replay.old.log.group ≡ true }
    requires runs { RunAll R.standing replay.old.program replay.old.log replay.old.events runs.old }
    ensures begins { OnOk result (IsPrefixOf replay.old.events replay.new.events) }
    ensures same { SameReplay replay.old replay.new }
    ensures rests { OnOk result (IsExhausted (P.next replay.old.program) replay.old.log replay.old.stop replay.new.events) }
    ensures rounds { OnOk result (AreReplayedRounds (P.next replay.old.program) replay.old.log replay.old.stop replay.old.events replay.new.events) }
    ensures outputs { IfOk result (λ found. found.outputs ≡ map (printed_of (P.output replay.old.program) replay.old.log.ranks replay.new.events) replay.old.log.group) }
    ensures stands { IfOk result (λ found. map Some found.stands ≡ map (stand_of (P.next replay.old.program) (P.variables replay.old.program) replay.old.log replay.old.stop replay.new.events) replay.old.log.group) }
{
    let mut kept = no_calls(alloc, runs.len())?;
    exhaust(replay, group, runs, kept.as_mut_slice())?;
    ends_of(alloc, replay, group, runs)
}

/// Rounds until one has no event.
fn exhaust<P: Program, R: RankRun<Of = P>>(
    replay: &mut Replay<'_, P>,
    group: &[u8],
    runs: &mut [R],
    kept: &mut [Option<Call>],
) -> Result<(), AllocError>
    requires group { group.now ≡ replay.old.log.group }
    requires distinct { is_distinct replay.old.log.group ≡ true }
    requires runs { RunAll R.standing replay.old.program replay.old.log replay.old.events runs.old }
    requires kept { AreCallsOfRuns P.next R.standing runs.old kept.old }
    ensures begins { OnOk result (IsPrefixOf replay.old.events replay.new.events) }
    ensures same { SameReplay replay.old replay.new }
    ensures runs { OnOk result (RunAll R.standing replay.old.program replay.old.log replay.new.events runs.new) }
    ensures rests { OnOk result (IsExhausted (P.next replay.old.program) replay.old.log replay.old.stop replay.new.events) }
    ensures rounds { OnOk result (AreReplayedRounds (P.next replay.old.program) replay.old.log replay.old.stop replay.old.events replay.new.events) }
{
    // For the proof that the loop ends: the number of events is below 2^32, and each round adds to it.
    let mut count = replay.len();
    while round(replay, group, runs, kept)? {
        count = replay.len();
    }
    Ok(())
}

/// The outputs and stands of the group, where no rank has a step.
fn ends_of<P: Program, R: RankRun<Of = P>>(
    alloc: Global,
    replay: &mut Replay<'_, P>,
    group: &[u8],
    runs: &mut [R],
) -> Result<Ends, AllocError>
    requires group { group.now ≡ replay.old.log.group }
    requires runs { RunAll R.standing replay.old.program replay.old.log replay.old.events runs.old }
    requires rests { IsExhausted (P.next replay.old.program) replay.old.log replay.old.stop replay.old.events }
    ensures replay { replay.new ≡ replay.old }
    ensures outputs { IfOk result (λ found. found.outputs ≡ map (printed_of (P.output replay.old.program) replay.old.log.ranks replay.old.events) replay.old.log.group) }
    ensures stands { IfOk result (λ found. map Some found.stands ≡ map (stand_of (P.next replay.old.program) (P.variables replay.old.program) replay.old.log replay.old.stop replay.old.events) replay.old.log.group) }
{
    let mut ends = Ends {
        outputs: Outputs::new(alloc),
        stands: Stands::new(alloc),
    };
    for (k, run) in runs.iter_mut().enumerate() {
        add_end(alloc, &mut ends, replay, run, group[k])?;
    }
    Ok(ends)
}

/// Adds what a rank printed, and its stand.
fn add_end<P: Program, R: RankRun<Of = P>>(
    alloc: Global,
    ends: &mut Ends,
    replay: &mut Replay<'_, P>,
    run: &mut R,
    rank: u8,
) -> Result<(), AllocError>
    requires member { is_member replay.old.log.group rank ≡ true }
    requires run { IsAfter replay.old.program replay.old.log.ranks rank replay.old.events (R.standing run.old) }
    requires rests { HasNoStep (P.next replay.old.program) replay.old.log replay.old.stop replay.old.events rank }
    ensures replay { replay.new ≡ replay.old }
    ensures run { OnOk result (IsAfter replay.old.program replay.old.log.ranks rank replay.old.events (R.standing run.new)) }
    ensures outputs { OnOk result (ends.new.outputs ≡ ends.old.outputs ++ printed_of (P.output replay.old.program) replay.old.log.ranks replay.old.events rank ∷ []) }
    ensures stands { OnOk result (map Some ends.new.stands ≡ map Some ends.old.stands ++ stand_of (P.next replay.old.program) (P.variables replay.old.program) replay.old.log replay.old.stop replay.old.events rank ∷ []) }
{
    let stand = stand_of_rank(replay, run, rank)?;
    ends.stands.push(stand)?;
    let printed = Bytes::from_slice(alloc, run.printed())?;
    ends.outputs.push(printed)?;
    Ok(())
}

/// A rank's stand where it has no step.
fn stand_of_rank<P: Program, R: RankRun<Of = P>>(
    replay: &mut Replay<'_, P>,
    run: &mut R,
    rank: u8,
) -> Result<Stand, AllocError>
    requires member { is_member replay.old.log.group rank ≡ true }
    requires run { IsAfter replay.old.program replay.old.log.ranks rank replay.old.events (R.standing run.old) }
    requires rests { HasNoStep (P.next replay.old.program) replay.old.log replay.old.stop replay.old.events rank }
    ensures replay { replay.new ≡ replay.old }
    ensures asked { OnOk result (R.standing run.new ≡ record (R.standing run.old) { asked = true }) }
    ensures stand { IfOk result (λ stand. Some stand ≡ stand_of (P.next replay.old.program) (P.variables replay.old.program) replay.old.log replay.old.stop replay.old.events rank) }
{
    match run.want()? {
        Want::Ended => Ok(Stand::Ended),
        Want::Ask(call) => stand_at(replay, run, rank, &call),
    }
}

/// A rank's stand at its next call, which makes no event.
fn stand_at<P: Program, R: RankRun<Of = P>>(
    replay: &mut Replay<'_, P>,
    run: &R,
    rank: u8,
    call: &Call,
) -> Result<Stand, AllocError>
    requires member { is_member replay.old.log.group rank ≡ true }
    requires run { IsAfter replay.old.program replay.old.log.ranks rank replay.old.events (R.standing run.now) }
    requires asked { (R.standing run.now).asked ≡ true }
    requires next { P.next replay.old.program replay.old.log.ranks rank (replies_in (view_of replay.old.events rank)) ≡ Some call.now }
    requires rests { HasNoStep (P.next replay.old.program) replay.old.log replay.old.stop replay.old.events rank }
    ensures replay { replay.new ≡ replay.old }
    ensures stand { IfOk result (λ stand. Some stand ≡ stand_of (P.next replay.old.program) (P.variables replay.old.program) replay.old.log replay.old.stop replay.old.events rank) }
{
    match replay.attempt(rank, call)? {
        Step::AtBreak => {
            let variables = run.variables()?;
            Ok(Stand::AtBreak { variables })
        }
        Step::LogEnded => Ok(Stand::LogEnded),
        Step::Wait(missing) => Ok(Stand::Starved(missing)),
        Step::Diverged(divergence) => Ok(Stand::Diverged(divergence)),
        Step::Replied(_) => unreachable!(),
    }
}
