//! The laws of histories that leave the same to their future. Their bodies are empty; a caller's clause follows from theirs.
ghost use Rattle.run_states.specs.Codes.{CodesFixKeys};
ghost use Rattle.run_states.specs.Keys.{FuturesFixKeys, KeysFixFutures};
ghost use Rattle.run_states.specs.StateLaws.{EveryOutcomeIsMet, EveryPatientOutcomeIsMet, EveryPatientRunIsMet, EveryRunIsMet, EveryStepIsMade, FuturesAnswerAlike, FuturesAreSame, FuturesGoOnAlike, HaltsDecideOutcomes};

use run_model::program::Program;

/// Runs that leave the same to their future answer alike.
pub fn futures_answer_alike<P: Program>(program: &P, n: u8)
    ensures { FuturesAnswerAlike (P.next program.now) n }
{}

/// They go on alike, and then leave the same.
pub fn futures_go_on_alike<P: Program>(program: &P, n: u8)
    ensures { FuturesGoOnAlike (P.next program.now) n }
{}

/// So each run that goes on from one has its like, which goes on from the other and comes to the same.
pub fn futures_are_same<P: Program>(program: &P, n: u8)
    ensures { FuturesAreSame (P.next program.now) (P.output program.now) n }
{}

/// Each step of a run is a move, or a call that is answered by a halt.
pub fn every_step_is_made<P: Program>(program: &P, n: u8)
    ensures { EveryStepIsMade (P.next program.now) n }
{}

/// Histories that their moves do not lead out of have met every run.
pub fn every_run_is_met<P: Program>(program: &P, n: u8)
    ensures all { EveryRunIsMet (P.next program.now) n }
    ensures patient { EveryPatientRunIsMet (P.next program.now) n }
{}

/// So they come to what each whole run comes to.
pub fn every_outcome_is_met<P: Program>(program: &P, n: u8)
    ensures all { EveryOutcomeIsMet (P.next program.now) (P.output program.now) n }
    ensures patient { EveryPatientOutcomeIsMet (P.next program.now) (P.output program.now) n }
{}

/// What a run comes to that is halted is decided by what was before, and by the halt.
pub fn halts_decide_outcomes<P: Program>(program: &P, n: u8)
    ensures { HaltsDecideOutcomes (P.next program.now) (P.output program.now) n }
{}

/// Runs of one key leave the same to their future, and what leaves the same has one key.
pub fn keys_fix_futures<P: Program>(program: &P, n: u8)
    ensures same { KeysFixFutures (P.next program.now) n }
    ensures one { FuturesFixKeys n }
{}

/// Keys of one code are the same.
pub fn codes_fix_keys()
    ensures { CodesFixKeys }
{}
