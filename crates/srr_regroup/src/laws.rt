//! The laws of regrouping: the logs that are made are those of the run. Their bodies are empty; a caller's clause follows
//! from theirs.
ghost use Rattle.std.specs.Prelude.{◌≡◌, List, None};
ghost use Rattle.run_model.specs.declared.event.Event.{Event};
ghost use Rattle.srr_entry.specs.Entries.{log_of};
ghost use Rattle.replay_model.specs.Laws.{IsRunWith};
ghost use Rattle.replay_model.specs.Replays.{IsWholeReplay};
ghost use Rattle.srr_regroup.specs.Joining.{CanJoin};
ghost use Rattle.srr_regroup.specs.Regrouping.{IsPartOf, IsReplayOfAProgram, both_groups, joined_log, refined};

use mpi_call::lists::Ranks;
use run_model::history::History;
use run_model::program::Program;
use srr_entry::log::Log;

/// The log of a part, made from a replay of a run's log, is the run's log of this part.
pub fn refined_log_is_of_the_run<P: Program>(program: &P, log: &Log, events: &History, part: &Ranks)
    requires replay { IsWholeReplay (P.next program.now) log.now None events.now.events }
    requires part { IsPartOf log.now.group part.now }
    ensures { (run : List Event) → IsRunWith (P.next program.now) log.now run
        → refined log.now events.now.events part.now ≡ log_of log.now.program log.now.ranks run part.now }
{}

/// The log of both groups, made from a replay of each of two logs of one run, is the run's log of both groups.
pub fn joined_log_is_of_the_run<P: Program>(
    program: &P,
    one: &Log,
    first: &History,
    two: &Log,
    second: &History,
)
    requires can_join { CanJoin one.now two.now }
    requires replay { IsWholeReplay (P.next program.now) one.now None first.now.events }
    requires other_replay { IsWholeReplay (P.next program.now) two.now None second.now.events }
    ensures { (run : List Event) → IsRunWith (P.next program.now) one.now run → IsRunWith (P.next program.now) two.now run
        → joined_log one.now first.now.events two.now second.now.events ≡ log_of one.now.program one.now.ranks run (both_groups one.now two.now) }
{}

/// A whole replay with a program that keeps its laws is what regrouping asks for.
pub fn whole_replay_is_of_a_program<P: Program>(program: &P, log: &Log, events: &History)
    requires { IsWholeReplay (P.next program.now) log.now None events.now.events }
    ensures { IsReplayOfAProgram log.now events.now.events }
{}
