//! The completion of requests.
ghost use Rattle.std.specs.Prelude.{◌≡◌, option_map};
ghost use Rattle.c_program.specs.Tree as t;
ghost use Rattle.c_program.specs.Effects.{answers, completes_some, completion_effect};
ghost use Rattle.c_program.specs.View.{pure_completion, pure_expr, pure_reference, pure_several};

use crate::checks::{cell, handles_of, optional_first, status};
use crate::results::{all_three, both};
use c_program::effect::{AnswerCells, Effect};
use c_program::expr::{Reference, TypedExpr};
use c_program::mpi::{CompletionCall, SomeRequests};
use c_program::range::Range;
use c_run_cells::state::RankState;
use mpi_call::call::{Fault, TakeMode};

/// Nothing but statuses.
fn answers(statuses: Option<Range>) -> AnswerCells
    ensures { result ≡ record answers { statuses = statuses } }
{
    AnswerCells {
        flag: None,
        index: None,
        outcount: None,
        indices: None,
        statuses,
    }
}

/// `MPI_Wait`.
fn wait(requests: &Reference, kept: &Option<Reference>, state: &RankState) -> Result<Effect, Fault>
    ensures { result ≡ completion_effect (t.wait (pure_reference requests.now) (option_map pure_reference kept.now)) state.now }
{
    let (requests, kept) = both(state.range(requests), status(kept, state))?;
    let (requests, statuses) = both(requests.first(1), optional_first(1, kept))?;
    Ok(Effect::Completes {
        requests,
        mode: TakeMode::All,
        answer: answers(statuses),
    })
}

/// `MPI_Test`.
fn test(
    requests: &Reference,
    flag: &Reference,
    kept: &Option<Reference>,
    state: &RankState,
) -> Result<Effect, Fault>
    ensures { result ≡ completion_effect (t.test (pure_reference requests.now) (pure_reference flag.now) (option_map pure_reference kept.now)) state.now }
{
    let (requests, flag, kept) = all_three(
        state.range(requests),
        state.range(flag),
        status(kept, state),
    )?;
    let (requests, flag, statuses) = all_three(
        requests.first(1),
        cell(flag),
        optional_first(1, kept),
    )?;
    Ok(Effect::Completes {
        requests,
        mode: TakeMode::TestAll,
        answer: AnswerCells {
            flag: Some(flag),
            ..answers(statuses)
        },
    })
}

/// `MPI_Waitany`.
fn waitany(
    count: &TypedExpr,
    requests: &Reference,
    index: &Reference,
    kept: &Option<Reference>,
    state: &RankState,
) -> Result<Effect, Fault>
    ensures { result ≡ completion_effect (t.waitany (pure_expr count.now) (pure_reference requests.now) (pure_reference index.now) (option_map pure_reference kept.now)) state.now }
{
    let handles = both(state.value(count), state.range(requests));
    let ((count, requests), index, kept) = all_three(
        handles,
        state.range(index),
        status(kept, state),
    )?;
    let count = handles_of(count)?;
    let (requests, index, statuses) = all_three(
        requests.first(count),
        cell(index),
        optional_first(1, kept),
    )?;
    Ok(Effect::Completes {
        requests,
        mode: TakeMode::Any,
        answer: AnswerCells {
            index: Some(index),
            ..answers(statuses)
        },
    })
}

/// `MPI_Testany`.
fn testany(
    count: &TypedExpr,
    requests: &Reference,
    index: &Reference,
    flag: &Reference,
    kept: &Option<Reference>,
    state: &RankState,
) -> Result<Effect, Fault>
    ensures { result ≡ completion_effect (t.testany (pure_expr count.now) (pure_reference requests.now) (pure_reference index.now) (pure_reference flag.now) (option_map pure_reference kept.now)) state.now }
{
    let handles = both(state.value(count), state.range(requests));
    let cells = both(state.range(index), state.range(flag));
    let ((count, requests), (index, flag), kept) = all_three(handles, cells, status(kept, state))?;
    let count = handles_of(count)?;
    let cells = both(cell(index), cell(flag));
    let (requests, (index, flag), statuses) = all_three(
        requests.first(count),
        cells,
        optional_first(1, kept),
    )?;
    Ok(Effect::Completes {
        requests,
        mode: TakeMode::TestAny,
        answer: AnswerCells {
            index: Some(index),
            flag: Some(flag),
            ..answers(statuses)
        },
    })
}

/// `MPI_Waitall`.
fn waitall(
    count: &TypedExpr,
    requests: &Reference,
    kept: &Option<Reference>,
    state: &RankState,
) -> Result<Effect, Fault>
    ensures { result ≡ completion_effect (t.waitall (pure_expr count.now) (pure_reference requests.now) (option_map pure_reference kept.now)) state.now }
{
    let (count, requests, kept) = all_three(
        state.value(count),
        state.range(requests),
        status(kept, state),
    )?;
    let count = handles_of(count)?;
    let (requests, statuses) = both(requests.first(count), optional_first(count, kept))?;
    Ok(Effect::Completes {
        requests,
        mode: TakeMode::All,
        answer: answers(statuses),
    })
}

/// `MPI_Testall`.
fn testall(
    count: &TypedExpr,
    requests: &Reference,
    flag: &Reference,
    kept: &Option<Reference>,
    state: &RankState,
) -> Result<Effect, Fault>
    ensures { result ≡ completion_effect (t.testall (pure_expr count.now) (pure_reference requests.now) (pure_reference flag.now) (option_map pure_reference kept.now)) state.now }
{
    let handles = both(state.value(count), state.range(requests));
    let ((count, requests), flag, kept) = all_three(
        handles,
        state.range(flag),
        status(kept, state),
    )?;
    let count = handles_of(count)?;
    let (requests, flag, statuses) = all_three(
        requests.first(count),
        cell(flag),
        optional_first(count, kept),
    )?;
    Ok(Effect::Completes {
        requests,
        mode: TakeMode::TestAll,
        answer: AnswerCells {
            flag: Some(flag),
            ..answers(statuses)
        },
    })
}

/// `MPI_Waitsome` and `MPI_Testsome`.
fn completes_some(
    mode: TakeMode,
    several: &SomeRequests,
    state: &RankState,
) -> Result<Effect, Fault>
    ensures { result ≡ completes_some mode (pure_several several.now) state.now }
{
    let handles = both(state.value(&several.count), state.range(&several.requests));
    let cells = both(
        state.range(&several.outcount),
        state.range(&several.indices),
    );
    let ((count, requests), (outcount, indices), kept) = all_three(
        handles,
        cells,
        status(&several.statuses, state),
    )?;
    let count = handles_of(count)?;
    let cells = both(cell(outcount), indices.first(count));
    let (requests, (outcount, indices), statuses) = all_three(
        requests.first(count),
        cells,
        optional_first(count, kept),
    )?;
    Ok(Effect::Completes {
        requests,
        mode,
        answer: AnswerCells {
            outcount: Some(outcount),
            indices: Some(indices),
            ..answers(statuses)
        },
    })
}

/// The effect of a completion of requests, or its fault.
pub fn completion_effect(call: &CompletionCall, state: &RankState) -> Result<Effect, Fault>
    ensures { result ≡ completion_effect (pure_completion call.now) state.now }
{
    match call {
        CompletionCall::Wait { request, status } => wait(request, status, state),
        CompletionCall::Test {
            request,
            flag,
            status,
        } => test(request, flag, status, state),
        CompletionCall::Waitany {
            count,
            requests,
            index,
            status,
        } => waitany(count, requests, index, status, state),
        CompletionCall::Testany {
            count,
            requests,
            index,
            flag,
            status,
        } => testany(count, requests, index, flag, status, state),
        CompletionCall::Waitall {
            count,
            requests,
            statuses,
        } => waitall(count, requests, statuses, state),
        CompletionCall::Testall {
            count,
            requests,
            flag,
            statuses,
        } => testall(count, requests, flag, statuses, state),
        CompletionCall::Waitsome(several) => completes_some(TakeMode::Several, several, state),
        CompletionCall::Testsome(several) => completes_some(TakeMode::TestSeveral, several, state),
    }
}
