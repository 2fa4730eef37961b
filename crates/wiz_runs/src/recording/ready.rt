//! What is run, read from files.
ghost use Rattle.std.specs.Prelude.{◌≡◌, ◌≤◌, ◌∷◌, List, ℕ, IfErr, IfOk, length};
ghost use Rattle.std.specs.Option.{option_to_list};
ghost use Rattle.wiz_task.specs.Tasks.{IsRefusedBy};
ghost use Rattle.wiz_runs.specs.Runs.{run_inputs, run_requirements, run_texts};
ghost use Rattle.wiz_tool.specs.Inputs.{AreHeld, text_limit};
ghost use Rattle.wiz_task.specs.inside.Recording.{IsReadyToRecord};
ghost use Rattle.wiz_task.specs.inside.Refusals.{IsUnmetIn};
ghost use Rattle.wiz_tool.specs.inside.Told.{IsFailureBy};
ghost use Rattle.wiz_words.specs.Texts.{run_with_texts};

use std::alloc::Global;
use wiz_base::Bytes;
use wiz_io::Store;
use wiz_task::accept::{plan_in, program_in, turns_in};
use wiz_task::ready::Ready;
use wiz_tool::failure::Failure;
use wiz_tool::inputs::{ORDER_LIMIT, TEXT_LIMIT, read_input, read_option};
use wiz_words::command::RunWords;

/// Reads the input files in order: the program, the plan and the order; and then what they hold, in the same order.
pub fn read_run<'a, S: Store>(
    alloc: Global,
    run: &RunWords<&'a str>,
    store: &mut S,
) -> Result<Ready, Failure<'a>>
    ensures ready { IfOk result (λ ready. (texts : List (List ℕ)) × AreHeld (S.observed store.old).files (run_inputs (run_with_texts run.now)) texts × IsReadyToRecord (run_texts texts) ready) }
    ensures refused { IfErr result (IsFailureBy (IsRefusedBy (S.observed store.old) (S.observed store.new) (run_inputs (run_with_texts run.now)) run_requirements)) }
    ensures files { (S.observed store.new).files ≡ (S.observed store.old).files }
    ensures writes { (S.observed store.new).writes ≡ (S.observed store.old).writes }
{
    let text = read_input(run.program, TEXT_LIMIT, store)?;
    let plan = read_input(run.plan, TEXT_LIMIT, store)?;
    let order = read_option(run.order, ORDER_LIMIT, store)?;
    let ready = accept_run(alloc, text, plan.as_slice(), &order)?;
    Ok(ready)
}

/// What the texts of a run hold.
pub fn accept_run(
    alloc: Global,
    text: Bytes,
    plan: &[u8],
    order: &Option<Bytes>,
) -> Result<Ready, Failure<'static>>
    requires { length text ≤ text_limit }
    ensures ready { IfOk result (IsReadyToRecord (record { program = text; plan = plan.now; order = order.now })) }
    ensures refused { IfErr result (IsFailureBy (IsUnmetIn (run_requirements (text ∷ plan.now ∷ option_to_list order.now)))) }
{
    let program = program_in(alloc, text.as_slice())?;
    let plan = plan_in(alloc, plan)?;
    let turns = turns_in(alloc, order, plan.n())?;
    Ok(Ready {
        text,
        program,
        plan,
        turns,
    })
}
