//! The laws of searches. Their bodies call those of histories; a caller's clause follows from theirs.
ghost use Rattle.explore.specs.QuietFirst.{AllRunsAreListedQuietly, PatientRunsAreListedQuietly};
ghost use Rattle.explore.specs.SearchLaws.{AllRunsAreListed, PatientRunsAreListed};

use quiet_calls::laws::quiet_calls_miss_nothing;
use run_model::program::Program;
use run_states::laws::every_outcome_is_met;

/// Where a search has looked at every state that it met, nothing is missed.
pub fn nothing_is_missed<P: Program>(program: &P, n: u8)
    ensures patient { PatientRunsAreListed (P.next program.now) (P.output program.now) n }
    ensures all { AllRunsAreListed (P.next program.now) (P.output program.now) n }
{
    every_outcome_is_met(program, n);
}

/// Nor where it has looked at every state with quiet calls first.
pub fn nothing_is_missed_quietly<P: Program>(program: &P, n: u8)
    ensures patient { PatientRunsAreListedQuietly (P.next program.now) (P.output program.now) n }
    ensures all { AllRunsAreListedQuietly (P.next program.now) (P.output program.now) n }
{
    quiet_calls_miss_nothing(program, n);
}
