//! What texts hold: a program, a plan, an order, a log; or why they are refused. Whether logs can be regrouped.
ghost use Rattle.std.specs.Prelude.{◌≡◌, ◌∷◌, ◌≤◌, [], IfErr, IfOk, OnOk, length};
ghost use Rattle.c_program.specs.View.{pure_program};
ghost use Rattle.c_types.specs.Checks.{IsProgramOf};
ghost use Rattle.group_plan.specs.PlanText.{IsPlanText};
ghost use Rattle.srr_log.specs.declared.limits.TheConstants.{MOST_LOG_BYTES};
ghost use Rattle.srr_log2.specs.Formats.{IsTextOfLog};
ghost use Rattle.srr_regroup.specs.Joining.{CanJoin};
ghost use Rattle.view_diff.specs.Comparing.{CanCompare};
ghost use Rattle.srr_regroup.specs.Refining.{CanRefine};
ghost use Rattle.wiz_tool.specs.Inputs.{text_limit};
ghost use Rattle.wiz_task.specs.Recordings.{AreTurns};
ghost use Rattle.wiz_task.specs.Requirements.{a_log, a_plan, a_program};
ghost use Rattle.wiz_task.specs.inside.Refusals.{AreRefusedTurns, IsRefusedComparison, IsRefusedJoin, IsRefusedRefinement, IsUnmetIn};
ghost use Rattle.wiz_tool.specs.inside.Told.{IsFailureBy};

use c_lex::Why;
use c_program::CProgram;
use c_types::read_program;
use group_plan::{OrderFault, Plan, PlanFault, read_order, read_plan};
use picked_runs::turn::Turns;
use srr_entry::log::Log;
use srr_log::fault::LogWhy;
use srr_log2::read_either::read_either;
use srr_regroup::{can_join, can_refine};
use std::alloc::Global;
use view_diff::comparing::can_compare;
use wiz_base::Bytes;
use wiz_tool::failure::Failure;
use wiz_tool::refusal::Refusal;

/// A text is refused.
fn refused(refusal: Refusal) -> Failure<'static>
    ensures { IsFailureBy (λ refused. refused ≡ record { refusal = refusal; name = [] }) result }
{
    Failure::Refused { refusal, name: "" }
}

/// The program with this text.
pub fn program_in(alloc: Global, text: &[u8]) -> Result<CProgram, Failure<'static>>
    requires { length text.now ≤ text_limit }
    ensures program { IfOk result (λ program. IsProgramOf text.now (pure_program program)) }
    ensures refused { IfErr result (IsFailureBy (IsUnmetIn (a_program text.now ∷ []))) }
{
    match read_program(alloc, text) {
        Ok(program) => Ok(program),
        Err(fault) => match fault.why {
            Why::NoMemory => Err(Failure::OutOfMemory),
            _ => Err(refused(Refusal::Program(fault))),
        },
    }
}

/// The plan with this text.
pub fn plan_in(alloc: Global, text: &[u8]) -> Result<Plan, Failure<'static>>
    ensures plan { IfOk result (λ plan. IsPlanText text.now plan) }
    ensures refused { IfErr result (IsFailureBy (IsUnmetIn (a_plan text.now ∷ []))) }
{
    match read_plan(alloc, text) {
        Ok(plan) => Ok(plan),
        Err(PlanFault::NoMemory) => Err(Failure::OutOfMemory),
        Err(fault) => Err(refused(Refusal::Plan(fault))),
    }
}

/// The turns that come before the rounds: those of an order of `n` ranks, or none.
pub fn turns_in(alloc: Global, text: &Option<Bytes>, n: u8) -> Result<Turns, Failure<'static>>
    ensures turns { IfOk result (λ turns. AreTurns n text.now turns) }
    ensures refused { IfErr result (IsFailureBy (AreRefusedTurns n text.now)) }
{
    let Some(text) = text else {
        return Ok(Turns::new(alloc));
    };
    match read_order(alloc, text.as_slice(), n) {
        Ok(turns) => Ok(turns),
        Err(OrderFault::NoMemory) => Err(Failure::OutOfMemory),
        Err(fault) => Err(refused(Refusal::Order(fault))),
    }
}

/// The log with these bytes, in either format.
pub fn log_in(alloc: Global, bytes: &[u8]) -> Result<Log, Failure<'static>>
    requires { length bytes.now ≤ MOST_LOG_BYTES }
    ensures log { IfOk result (λ log. IsTextOfLog bytes.now log) }
    ensures within { IfOk result (λ log. length log.program ≤ text_limit) }
    ensures refused { IfErr result (IsFailureBy (IsUnmetIn (a_log bytes.now ∷ []))) }
{
    match read_either(alloc, bytes) {
        Ok(log) => Ok(log),
        Err(fault) => match fault.why {
            LogWhy::NoMemory => Err(Failure::OutOfMemory),
            _ => Err(refused(Refusal::Log(fault))),
        },
    }
}

/// Whether a log can be refined by a plan.
pub fn check_refinement(log: &Log, plan: &Plan) -> Result<(), Failure<'static>>
    ensures refinable { OnOk result (CanRefine log.now plan.now) }
    ensures refused { IfErr result (IsFailureBy (IsRefusedRefinement log.now plan.now)) }
{
    match can_refine(log, plan) {
        Ok(()) => Ok(()),
        Err(fault) => Err(refused(Refusal::Refine(fault))),
    }
}

/// Whether two logs can be joined.
pub fn check_join(one: &Log, other: &Log) -> Result<(), Failure<'static>>
    ensures joinable { OnOk result (CanJoin one.now other.now) }
    ensures refused { IfErr result (IsFailureBy (IsRefusedJoin one.now other.now)) }
{
    match can_join(one, other) {
        Ok(()) => Ok(()),
        Err(fault) => Err(refused(Refusal::Join(fault))),
    }
}

/// Whether two logs can be compared.
pub fn check_comparison(one: &Log, other: &Log) -> Result<(), Failure<'static>>
    ensures comparable { OnOk result (CanCompare one.now other.now) }
    ensures refused { IfErr result (IsFailureBy (IsRefusedComparison one.now other.now)) }
{
    match can_compare(one, other) {
        Ok(()) => Ok(()),
        Err(fault) => Err(refused(Refusal::Compare(fault))),
    }
}
