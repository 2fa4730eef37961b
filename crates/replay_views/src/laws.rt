//! What a step back is. Its bodies are empty; a caller's clause follows from theirs.
ghost use Rattle.std.specs.Prelude.{ℕ, List};
ghost use Rattle.replay_model.specs.Laws.{IsRunWith};
ghost use Rattle.replay_views.specs.Cuts.{IsStepBack, ReplaysStepBack};
ghost use Rattle.run_model.specs.declared.event.Event.{Event};
ghost use Rattle.run_model.specs.Views.{View};

use run_model::program::Program;
use srr_entry::log::Log;

/// The cut of an earlier place of a rank is within that of a later one, whatever the ranks have seen.
pub fn a_step_back_is_a_part()
    ensures { (n : ℕ) (group : List ℕ) (V : ℕ → View) → IsStepBack n group V }
{}

/// So, beside each run with a log, a whole replay up to an earlier place has no call that one up to a later place has not.
pub fn replays_step_back<P: Program>(program: &P, log: &Log)
    ensures { (run : List Event) → IsRunWith (P.next program.now) log.now run → ReplaysStepBack (P.next program.now) log.now run }
{}
