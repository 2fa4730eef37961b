//! What is refined, and what is joined.
ghost use Rattle.std.specs.Prelude.{◌≡◌, ◌≤◌, ◌∷◌, [], List, ℕ, IfErr, IfOk, length};
ghost use Rattle.srr_log.specs.declared.limits.TheConstants.{MOST_LOG_BYTES};
ghost use Rattle.wiz_task.specs.Tasks.{IsRefusedBy};
ghost use Rattle.wiz_logs.specs.Logs.{join_inputs, join_requirements, refine_inputs, refine_requirements};
ghost use Rattle.wiz_tool.specs.Inputs.{AreHeld};
ghost use Rattle.wiz_task.specs.inside.Refusals.{IsUnmetIn};
ghost use Rattle.wiz_logs.specs.inside.Regrouping.{ArePairOf, IsRefinementOf};
ghost use Rattle.wiz_tool.specs.inside.Told.{IsFailureBy};

use c_program::CProgram;
use group_plan::Plan;
use srr_entry::log::Log;
use srr_log::limits::MOST_LOG_BYTES;
use std::alloc::Global;
use wiz_io::Store;
use wiz_task::accept::{check_join, check_refinement, log_in, plan_in, program_in};
use wiz_tool::failure::Failure;
use wiz_tool::inputs::{TEXT_LIMIT, read_input};

/// What is refined: a log by a plan, and the log's program.
#[derive(Drop)]
pub struct Refinement {
    pub log: Log,
    pub plan: Plan,
    pub program: CProgram,
}

/// What is joined: two logs, and the program of both.
#[derive(Drop)]
pub struct Pair {
    pub one: Log,
    pub other: Log,
    pub program: CProgram,
}

/// Reads the input files in order: the log and the plan; and then what they hold, in the same order, and the log's program.
pub fn read_refinement<'a, S: Store>(
    alloc: Global,
    log: &'a str,
    plan: &'a str,
    store: &mut S,
) -> Result<Refinement, Failure<'a>>
    ensures refinement { IfOk result (λ refinement. (texts : List (List ℕ)) × AreHeld (S.observed store.old).files (refine_inputs log.now plan.now) texts × IsRefinementOf texts refinement) }
    ensures refused { IfErr result (IsFailureBy (IsRefusedBy (S.observed store.old) (S.observed store.new) (refine_inputs log.now plan.now) refine_requirements)) }
    ensures files { (S.observed store.new).files ≡ (S.observed store.old).files }
    ensures writes { (S.observed store.new).writes ≡ (S.observed store.old).writes }
{
    let bytes = read_input(log, MOST_LOG_BYTES, store)?;
    let text = read_input(plan, TEXT_LIMIT, store)?;
    let refinement = accept_refinement(alloc, bytes.as_slice(), text.as_slice())?;
    Ok(refinement)
}

/// The log of these bytes and the plan of this text, where the log can be refined by the plan.
fn accept_refinement(
    alloc: Global,
    bytes: &[u8],
    text: &[u8],
) -> Result<Refinement, Failure<'static>>
    requires { length bytes.now ≤ MOST_LOG_BYTES }
    ensures refinement { IfOk result (IsRefinementOf (bytes.now ∷ text.now ∷ [])) }
    ensures refused { IfErr result (IsFailureBy (IsUnmetIn (refine_requirements (bytes.now ∷ text.now ∷ [])))) }
{
    let log = log_in(alloc, bytes)?;
    let plan = plan_in(alloc, text)?;
    check_refinement(&log, &plan)?;
    let program = program_in(alloc, log.program.as_slice())?;
    Ok(Refinement { log, plan, program })
}

/// Reads the input files in order: both logs; and then what they hold, in the same order, and their program.
pub fn read_pair<'a, S: Store>(
    alloc: Global,
    one: &'a str,
    other: &'a str,
    store: &mut S,
) -> Result<Pair, Failure<'a>>
    ensures pair { IfOk result (λ pair. (texts : List (List ℕ)) × AreHeld (S.observed store.old).files (join_inputs one.now other.now) texts × ArePairOf texts pair) }
    ensures refused { IfErr result (IsFailureBy (IsRefusedBy (S.observed store.old) (S.observed store.new) (join_inputs one.now other.now) join_requirements)) }
    ensures files { (S.observed store.new).files ≡ (S.observed store.old).files }
    ensures writes { (S.observed store.new).writes ≡ (S.observed store.old).writes }
{
    let bytes = read_input(one, MOST_LOG_BYTES, store)?;
    let others = read_input(other, MOST_LOG_BYTES, store)?;
    let pair = accept_pair(alloc, bytes.as_slice(), others.as_slice())?;
    Ok(pair)
}

/// The logs of these bytes, where they can be joined.
fn accept_pair(alloc: Global, bytes: &[u8], others: &[u8]) -> Result<Pair, Failure<'static>>
    requires bytes { length bytes.now ≤ MOST_LOG_BYTES }
    requires others { length others.now ≤ MOST_LOG_BYTES }
    ensures pair { IfOk result (ArePairOf (bytes.now ∷ others.now ∷ [])) }
    ensures refused { IfErr result (IsFailureBy (IsUnmetIn (join_requirements (bytes.now ∷ others.now ∷ [])))) }
{
    let one = log_in(alloc, bytes)?;
    let other = log_in(alloc, others)?;
    check_join(&one, &other)?;
    let program = program_in(alloc, one.program.as_slice())?;
    Ok(Pair {
        one,
        other,
        program,
    })
}
