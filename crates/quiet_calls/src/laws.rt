//! The laws of calls that can go first. Their bodies call those of histories; a caller's clause follows from theirs.
ghost use Rattle.quiet_calls.specs.Closure.{QuietCallsMissNothing, QuietCallsMissNothingPatient, SteadyCallsMissNothing, SteadyCallsMissNothingPatient};
ghost use Rattle.quiet_calls.specs.Quiet.{QuietCallsGoAhead, QuietCallsGoFirst};

use run_model::program::Program;
use run_states::laws::{every_step_is_made, futures_are_same, halts_decide_outcomes};

/// A quiet call can go first: nothing that whole runs come to is missed.
pub fn quiet_calls_go_first<P: Program>(program: &P, n: u8)
    ensures { QuietCallsGoFirst (P.next program.now) (P.output program.now) n }
{
    futures_are_same(program, n);
    halts_decide_outcomes(program, n);
}

/// Nor is anything missed that runs come by on their way.
pub fn quiet_calls_go_ahead<P: Program>(program: &P, n: u8)
    ensures { QuietCallsGoAhead (P.next program.now) n }
{
    futures_are_same(program, n);
}

/// So a search that follows one quiet call alone misses nothing.
pub fn quiet_calls_miss_nothing<P: Program>(program: &P, n: u8)
    ensures all { QuietCallsMissNothing (P.next program.now) (P.output program.now) n }
    ensures patient { QuietCallsMissNothingPatient (P.next program.now) (P.output program.now) n }
{
    futures_are_same(program, n);
    every_step_is_made(program, n);
    halts_decide_outcomes(program, n);
}

/// If the steady calls alone are quiet, it asks nothing of the calls that ranks make.
pub fn steady_calls_miss_nothing<P: Program>(program: &P, n: u8)
    ensures all { SteadyCallsMissNothing (P.next program.now) (P.output program.now) n }
    ensures patient { SteadyCallsMissNothingPatient (P.next program.now) (P.output program.now) n }
{
    futures_are_same(program, n);
    every_step_is_made(program, n);
    halts_decide_outcomes(program, n);
}
