//! The laws of picked runs. Their bodies are empty; a caller's clause follows from theirs.
ghost use Rattle.picked_runs.specs.PickLaws.{EveryRunIsPicked, EveryRunIsRecorded, FirstPicksAreChosen, OtherPickIsTaken, PicksAreTurns, PicksBeginRun, PicksCanGo, PicksFixRun, PicksGoOn, PicksNumberInOrder, TurnsEnd, TurnsFixRun};

use run_model::program::Program;

/// Every run that the matching rules allow is made by picks, and, where no rank is stuck, recorded by turns.
pub fn every_run_is_picked<P: Program>(program: &P, n: u8)
    ensures picked { EveryRunIsPicked (P.next program.now) n }
    ensures recorded { EveryRunIsRecorded (P.next program.now) n }
{}

/// Picks and an order fix a run.
pub fn picks_fix_run<P: Program>(program: &P, n: u8)
    ensures { PicksFixRun (P.next program.now) n }
{}

/// Turns make one run, in which each rank has ended.
pub fn turns_fix_run<P: Program>(program: &P, n: u8)
    ensures one { TurnsFixRun (P.next program.now) n }
    ensures ends { TurnsEnd (P.next program.now) n }
{}

/// A run that picks make, without a Stuck reply, begins the run of its turns.
pub fn picks_begin_run<P: Program>(program: &P, n: u8)
    ensures { PicksBeginRun (P.next program.now) n }
{}

/// Another pick than the run's own, where it can be made, is recorded by a turn behind those of the run.
pub fn other_pick_is_taken<P: Program>(program: &P, n: u8)
    ensures { OtherPickIsTaken (P.next program.now) n }
{}

/// A picked event makes a run longer, and numbers communicators as a recording machine does.
pub fn picks_go_on<P: Program>(program: &P, n: u8)
    ensures more { PicksGoOn (P.next program.now) n }
    ensures goes { PicksCanGo (P.next program.now) n }
    ensures numbered { PicksNumberInOrder (P.next program.now) n }
{}

/// Where nothing is picked, the runs are a recording machine's.
pub fn first_picks_are_chosen<P: Program>(program: &P, n: u8)
    ensures { FirstPicksAreChosen (P.next program.now) n }
{}

/// Each turn of a run that picks make can be written down and read again.
pub fn picks_are_turns<P: Program>(program: &P, n: u8)
    ensures { PicksAreTurns (P.next program.now) n }
{}
