//! The laws of other picks.
ghost use Rattle.other_picks.specs.OtherLaws.{OthersAreTaken, OthersAreTurns};

use picked_runs::laws::{other_pick_is_taken, picks_are_turns};
use run_model::program::Program;

/// Each other pick of a run is recorded by its turns, which can be written down and read again.
pub fn others_are_taken<P: Program>(program: &P, n: u8)
    ensures taken { OthersAreTaken (P.next program.now) n }
    ensures turns { OthersAreTurns (P.next program.now) n }
{
    other_pick_is_taken(program, n);
    picks_are_turns(program, n);
}
