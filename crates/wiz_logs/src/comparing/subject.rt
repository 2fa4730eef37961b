//! What is compared.
ghost use Rattle.std.specs.Prelude.{◌≡◌, ◌≤◌, ◌∷◌, [], List, ℕ, IfErr, IfOk, length};
ghost use Rattle.srr_log.specs.declared.limits.TheConstants.{MOST_LOG_BYTES};
ghost use Rattle.wiz_task.specs.Tasks.{IsRefusedBy};
ghost use Rattle.wiz_logs.specs.Logs.{diff_requirements, join_inputs};
ghost use Rattle.wiz_tool.specs.Inputs.{AreHeld};
ghost use Rattle.wiz_logs.specs.inside.Comparing.{AreTwoRunsOf};
ghost use Rattle.wiz_task.specs.inside.Refusals.{IsUnmetIn};
ghost use Rattle.wiz_tool.specs.inside.Told.{IsFailureBy};

use c_program::CProgram;
use srr_entry::log::Log;
use srr_log::limits::MOST_LOG_BYTES;
use std::alloc::Global;
use wiz_io::Store;
use wiz_task::accept::{check_comparison, log_in, program_in};
use wiz_tool::failure::Failure;
use wiz_tool::inputs::read_input;

/// Two logs of one group, and the program of both.
#[derive(Drop)]
pub struct TwoRuns {
    pub one: Log,
    pub other: Log,
    pub program: CProgram,
}

/// Reads the input files in order: both logs; and then what they hold, in the same order, and their program.
pub fn read_runs<'a, S: Store>(
    alloc: Global,
    one: &'a str,
    other: &'a str,
    store: &mut S,
) -> Result<TwoRuns, Failure<'a>>
    ensures runs { IfOk result (λ runs. (texts : List (List ℕ)) × AreHeld (S.observed store.old).files (join_inputs one.now other.now) texts × AreTwoRunsOf texts runs) }
    ensures refused { IfErr result (IsFailureBy (IsRefusedBy (S.observed store.old) (S.observed store.new) (join_inputs one.now other.now) diff_requirements)) }
    ensures files { (S.observed store.new).files ≡ (S.observed store.old).files }
    ensures writes { (S.observed store.new).writes ≡ (S.observed store.old).writes }
{
    let bytes = read_input(one, MOST_LOG_BYTES, store)?;
    let others = read_input(other, MOST_LOG_BYTES, store)?;
    let runs = accept_runs(alloc, bytes.as_slice(), others.as_slice())?;
    Ok(runs)
}

/// The logs of these bytes, where they can be compared.
fn accept_runs(alloc: Global, bytes: &[u8], others: &[u8]) -> Result<TwoRuns, Failure<'static>>
    requires bytes { length bytes.now ≤ MOST_LOG_BYTES }
    requires others { length others.now ≤ MOST_LOG_BYTES }
    ensures runs { IfOk result (AreTwoRunsOf (bytes.now ∷ others.now ∷ [])) }
    ensures refused { IfErr result (IsFailureBy (IsUnmetIn (diff_requirements (bytes.now ∷ others.now ∷ [])))) }
{
    let one = log_in(alloc, bytes)?;
    let other = log_in(alloc, others)?;
    check_comparison(&one, &other)?;
    let program = program_in(alloc, one.program.as_slice())?;
    Ok(TwoRuns {
        one,
        other,
        program,
    })
}
