//! The laws of replay: what holds of every replay of a log, whatever the order of its ranks. Their bodies are empty; a
//! caller's clause follows from theirs.
ghost use Rattle.std.specs.Prelude.{◌≡◌, ℕ, List, Option, None};
ghost use Rattle.run_model.specs.declared.event.Event.{Event};
ghost use Rattle.run_model.specs.Views.{view_of};
ghost use Rattle.replay_model.specs.Laws.{BeginsRun, EachStand, HasAllOf, HasNotDiverged, HasTheCut, IsStandAtEnd, IsRunWith, ReplaysInEveryOrder, ShowsInEveryOrder, StarvesBehindABreak};
ghost use Rattle.replay_model.specs.Replays.{IsWholeReplay, Replays};
ghost use Rattle.replay_model.specs.Stands.{stand_of};
ghost use Rattle.srr_entry.specs.Outputs.{printed_of};

use run_model::history::History;
use run_model::program::Program;
use srr_entry::log::Log;

/// The prefix law: at every moment of a replay each rank of the group has a prefix of what it has in each run with this
/// log, no other rank has a step, and no stand is Diverged.
pub fn begins_every_run<P: Program>(
    program: &P,
    log: &Log,
    stop: &Option<(u8, u32)>,
    events: &History,
)
    requires { Replays (P.next program.now) log.now stop.now events.now.events }
    ensures begins { (run : List Event) → IsRunWith (P.next program.now) log.now run → BeginsRun (P.output program.now) log.now events.now.events run }
    ensures stands { (run : List Event) → IsRunWith (P.next program.now) log.now run → EachStand HasNotDiverged (P.next program.now) (P.variables program.now) log.now stop.now events.now.events }
{}

/// No starvation: a replay without a breakpoint that can go no further has all of each run with this log, and each rank has
/// come to the end of its program or of its entries.
pub fn has_all_of_every_run<P: Program>(
    program: &P,
    log: &Log,
    stop: &Option<(u8, u32)>,
    events: &History,
)
    requires { IsWholeReplay (P.next program.now) log.now stop.now events.now.events }
    ensures all { stop.now ≡ None → (run : List Event) → IsRunWith (P.next program.now) log.now run → HasAllOf (P.output program.now) log.now events.now.events run }
    ensures stands { stop.now ≡ None → (run : List Event) → IsRunWith (P.next program.now) log.now run → EachStand IsStandAtEnd (P.next program.now) (P.variables program.now) log.now stop.now events.now.events }
{}

/// Replay in any order: steps of the group's ranks, each the next call of its program and what the log's next entry stands for,
/// show each run with this log, whatever their order, at every moment a prefix and in the end all of it. Beside such a run they are
/// the replays of the log without a breakpoint.
pub fn every_order_shows_every_run<P: Program>(program: &P, log: &Log)
    ensures shows { (run : List Event) → IsRunWith (P.next program.now) log.now run → ShowsInEveryOrder (P.next program.now) (P.output program.now) log.now run }
    ensures replays { (run : List Event) → IsRunWith (P.next program.now) log.now run → ReplaysInEveryOrder (P.next program.now) log.now }
{}

/// The exact cut: a replay that can go no further has exactly the places of each run with this log that its breakpoint does
/// not cut off; and where a rank is starved, the rank of the breakpoint stands at it.
pub fn has_the_cut<P: Program>(program: &P, log: &Log, stop: &Option<(u8, u32)>, events: &History)
    requires { IsWholeReplay (P.next program.now) log.now stop.now events.now.events }
    ensures places { (run : List Event) → IsRunWith (P.next program.now) log.now run → HasTheCut log.now stop.now events.now.events run }
    ensures stands { (run : List Event) → IsRunWith (P.next program.now) log.now run → StarvesBehindABreak (P.next program.now) (P.variables program.now) log.now stop.now events.now.events }
{}

/// Confluence: any two replays of one log that can go no further give each rank the same view, the same output and the
/// same stand, also for a log that no run has.
pub fn replays_agree<P: Program>(program: &P, log: &Log, stop: &Option<(u8, u32)>)
    ensures views { (one other : List Event)
        → IsWholeReplay (P.next program.now) log.now stop.now one → IsWholeReplay (P.next program.now) log.now stop.now other
        → (rank : ℕ) → view_of one rank ≡ view_of other rank }
    ensures outputs { (one other : List Event)
        → IsWholeReplay (P.next program.now) log.now stop.now one → IsWholeReplay (P.next program.now) log.now stop.now other
        → (rank : ℕ) → printed_of (P.output program.now) log.now.ranks one rank ≡ printed_of (P.output program.now) log.now.ranks other rank }
    ensures stands { (one other : List Event)
        → IsWholeReplay (P.next program.now) log.now stop.now one → IsWholeReplay (P.next program.now) log.now stop.now other
        → (rank : ℕ) → stand_of (P.next program.now) (P.variables program.now) log.now stop.now one rank ≡ stand_of (P.next program.now) (P.variables program.now) log.now stop.now other rank }
{}
