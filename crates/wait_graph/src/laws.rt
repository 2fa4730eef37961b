//! What holds of the runs that are stuck. The bodies are empty; a caller's clause follows from theirs.
ghost use Rattle.std.specs.Prelude.{List, ℕ};
ghost use Rattle.run_model.specs.declared.event.Event.{Event};
ghost use Rattle.wait_graph.specs.Opens.{NoneFits, NoneFound};
ghost use Rattle.wait_graph.specs.Laws.{BlockedExactly, BlockedWait, HasCause, OpensDiffer, StuckExactly};

use run_model::program::Program;

/// A run is halted as stuck if and only if no call could go before, and its blocked ranks are then those that were live.
pub fn stuck_exactly<P: Program>(program: &P, n: u8)
    ensures stuck { StuckExactly (P.next program.now) n }
    ensures blocked { BlockedExactly (P.next program.now) n }
{}

/// Each blocked rank waits for something, and there is a cycle, or a rank that waits in vain.
pub fn has_cause<P: Program>(program: &P, n: u8)
    ensures waits { BlockedWait (P.next program.now) n }
    ensures cause { HasCause (P.next program.now) n }
{}

/// Where no pair can meet, no message that nobody has received fits a receive that waits.
pub fn none_fits()
    ensures { (events : List Event) → NoneFits events }
{}

/// Nor a probe that finds nothing.
pub fn none_found()
    ensures { (n : ℕ) (events : List Event) → NoneFound n events }
{}

/// What is open to a blocked rank differs from all that it waits for.
pub fn opens_differ<P: Program>(program: &P, n: u8)
    ensures { OpensDiffer (P.next program.now) n }
{}
