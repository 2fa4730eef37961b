//! The evaluation of statements.
ghost use Rattle.std.specs.Prelude.{◌≡◌, ◌≤◌, ◌<◌, OnOk, map, option_copied, option_map};
ghost use Rattle.c_program.specs.Meaning.{act, act_parts, act_part, declare_variable, declare_all, for_start, for_update, invoke, loop, loop_after, return, right, simple, started};
ghost use Rattle.c_program.specs.View.{pure_call, pure_expr, pure_item, pure_part, pure_parts, pure_place, pure_right, pure_simple, pure_start, pure_stmt};
ghost use Rattle.c_eval.specs.Evaluated.{Evaluated, EvaluatesTo, Passes};
ghost use Rattle.c_eval.specs.inside.Leaving.{Leaves};
ghost use Rattle.c_eval.specs.inside.Parts.{blocked, calls_of, for_block, turn, returned_value, way};
ghost use Rattle.c_eval.specs.inside.Statements.{assigns, branch, else_meaning};

use crate::calls::CallContext;
use crate::flow::Flow;
use crate::outcome::{Replies, Stop};
use crate::perform::call_mpi;
use c_names::operator::Operator;
use c_program::expr::{FunctionCall, TypedExpr, TypedPlace, TypedRight};
use c_program::state::Passed;
use c_program::statement::{
    TypedForStart, TypedInitDeclarator, TypedInitializer, TypedPart, TypedSimple, TypedStmt,
};
use c_run_cells::parts::{
    add, arguments_of, enter, function_at, print, put_assigned, put_values_of, take_step,
};
use c_run_cells::state::RankState;
use mpi_call::call::Fault;
use mpi_call::limits::MOST_RANKS;

// ---- what has one way out

/// A call of a function of the text, which takes a step.
#[cycle(statements)]
fn invoke<'p>(
    calls: &CallContext<'p>,
    call: &'p FunctionCall,
    state: &mut RankState<'p>,
    replies: &mut Replies,
) -> Result<i32, Stop>
    requires { calls.now.rank.ranks ≤ MOST_RANKS }
    ensures { EvaluatesTo (invoke (calls_of calls.now) (pure_call call.now)) state.old replies.old result state.new replies.new }
{
    take_step(state)?;
    let arguments = arguments_of(calls.alloc, &call.arguments, state)?;
    call_function(calls, call.function, &arguments, state, replies)
}

/// The call of a function by its number, once its arguments are evaluated.
#[cycle(statements)]
pub fn call_function<'p>(
    calls: &CallContext<'p>,
    number: usize,
    arguments: &[Passed],
    state: &mut RankState<'p>,
    replies: &mut Replies,
) -> Result<i32, Stop>
    requires { calls.now.rank.ranks ≤ MOST_RANKS }
    ensures { EvaluatesTo (calls_of calls.now number arguments.now) state.old replies.old result state.new replies.new }
{
    if calls.depth == 0 {
        return Err(Stop::Trapped(Fault::Depth));
    }
    let Some(function) = function_at(calls.functions, number) else {
        return Err(Stop::Trapped(Fault::Depth));
    };
    let mark = state.mark();
    enter(function, arguments, state)?;
    let inner = CallContext {
        alloc: calls.alloc,
        rank: calls.rank,
        functions: calls.functions,
        depth: calls.depth - 1,
    };
    let flow = run_list(&inner, &function.body, state, replies)?;
    state.leave(mark);
    Ok(value_in(flow))
}

/// What a function gives back.
fn value_in(flow: Flow) -> i32
    ensures { result ≡ returned_value flow }
{
    match flow {
        Flow::Back(value) => value,
        _ => 0,
    }
}

/// A right side.
#[cycle(statements)]
fn value_of<'p>(
    calls: &CallContext<'p>,
    one: &'p TypedRight,
    state: &mut RankState<'p>,
    replies: &mut Replies,
) -> Result<i32, Stop>
    requires { calls.now.rank.ranks ≤ MOST_RANKS }
    ensures { EvaluatesTo (right (calls_of calls.now) (pure_right one.now)) state.old replies.old result state.new replies.new }
{
    match one {
        TypedRight::Value(expression) => Ok(state.value(expression)?),
        TypedRight::Call(call) => invoke(calls, call, state, replies),
    }
}

/// An assignment, by an operator or plain.
#[cycle(statements)]
fn assign<'p>(
    calls: &CallContext<'p>,
    place: &'p TypedPlace,
    operator: Option<Operator>,
    right: &'p TypedRight,
    state: &mut RankState<'p>,
    replies: &mut Replies,
) -> Result<(), Stop>
    requires { calls.now.rank.ranks ≤ MOST_RANKS }
    ensures { Passes (assigns (calls_of calls.now) (pure_place place.now) operator (pure_right right.now)) state.old replies.old result state.new replies.new }
{
    let cell = state.cell_of(place)?;
    let value = value_of(calls, right, state, replies)?;
    Ok(put_assigned(operator, cell, value, state)?)
}

/// A statement that stands before a `;`.
#[cycle(statements)]
fn run_simple<'p>(
    calls: &CallContext<'p>,
    one: &'p TypedSimple,
    state: &mut RankState<'p>,
    replies: &mut Replies,
) -> Result<(), Stop>
    requires { calls.now.rank.ranks ≤ MOST_RANKS }
    ensures { Passes (simple calls.now.rank (calls_of calls.now) (pure_simple one.now)) state.old replies.old result state.new replies.new }
{
    match one {
        TypedSimple::Set { place, right } => assign(calls, place, None, right, state, replies),
        TypedSimple::Update {
            place,
            operator,
            right,
        } => assign(calls, place, Some(*operator), right, state, replies),
        TypedSimple::Call(call) => {
            invoke(calls, call, state, replies)?;
            Ok(())
        }
        TypedSimple::Mpi(call) => call_mpi(calls.alloc, calls.rank, call, state, replies),
        TypedSimple::Print { format, arguments } => Ok(print(
            calls.alloc,
            format,
            arguments,
            state,
        )?),
        TypedSimple::Flush => Ok(()),
    }
}

/// A variable, with its initial value.
#[cycle(statements)]
fn declare<'p>(
    calls: &CallContext<'p>,
    item: &'p TypedInitDeclarator,
    state: &mut RankState<'p>,
    replies: &mut Replies,
) -> Result<(), Stop>
    requires { calls.now.rank.ranks ≤ MOST_RANKS }
    ensures { Passes (declare_variable (calls_of calls.now) (pure_item item.now)) state.old replies.old result state.new replies.new }
{
    let cell = add(item, state)?;
    match &item.initial {
        TypedInitializer::Nothing => Ok(()),
        TypedInitializer::Right(right) => {
            let value = value_of(calls, right, state, replies)?;
            state.put(cell, value);
            Ok(())
        }
        TypedInitializer::Values(expressions) => Ok(put_values_of(expressions, cell, state)?),
    }
}

/// Variables, in order.
#[cycle(statements)]
fn declare_all<'p>(
    calls: &CallContext<'p>,
    items: &'p [TypedInitDeclarator],
    state: &mut RankState<'p>,
    replies: &mut Replies,
) -> Result<(), Stop>
    requires { calls.now.rank.ranks ≤ MOST_RANKS }
    ensures { Passes (declare_all (calls_of calls.now) (map pure_item items.now)) state.old replies.old result state.new replies.new }
{
    for item in items {
        declare(calls, item, state, replies)?;
    }
    Ok(())
}

// ---- loops

/// What stands before the first `;` of a `for`.
#[cycle(statements)]
fn start_for<'p>(
    calls: &CallContext<'p>,
    start: &'p TypedForStart,
    state: &mut RankState<'p>,
    replies: &mut Replies,
) -> Result<(), Stop>
    requires { calls.now.rank.ranks ≤ MOST_RANKS }
    ensures { Passes (for_start calls.now.rank (calls_of calls.now) (pure_start start.now)) state.old replies.old result state.new replies.new }
{
    match start {
        TypedForStart::Nothing => Ok(()),
        TypedForStart::Declaration(declaration) => {
            take_step(state)?;
            declare_all(calls, &declaration.items, state, replies)
        }
        TypedForStart::Simple(one) => run_simple(calls, one, state, replies),
    }
}

/// What stands behind the second `;` of a `for`.
#[cycle(statements)]
fn run_update<'p>(
    calls: &CallContext<'p>,
    update: Option<&'p TypedSimple>,
    state: &mut RankState<'p>,
    replies: &mut Replies,
) -> Result<(), Stop>
    requires { calls.now.rank.ranks ≤ MOST_RANKS }
    ensures { Passes (for_update calls.now.rank (calls_of calls.now) (option_map pure_simple (option_copied update.entry))) state.old replies.old result state.new replies.new }
{
    match update {
        None => Ok(()),
        Some(one) => run_simple(calls, one, state, replies),
    }
}

/// A turn of a loop. `None` where the loop goes on.
#[cycle(statements)]
fn take_turn<'p>(
    calls: &CallContext<'p>,
    update: Option<&'p TypedSimple>,
    body: &'p TypedStmt,
    state: &mut RankState<'p>,
    replies: &mut Replies,
) -> Result<Option<Flow>, Stop>
    requires { calls.now.rank.ranks ≤ MOST_RANKS }
    ensures evaluated { Evaluated way (turn (for_update calls.now.rank (calls_of calls.now) (option_map pure_simple (option_copied update.entry))) (started (act calls.now.rank (calls_of calls.now) (pure_stmt body.now)))) state.old replies.old result state.new replies.new }
    ensures fewer { OnOk result (state.new.left < state.old.left) }
{
    take_step(state)?;
    match run(calls, body, state, replies)? {
        Flow::Broke => return Ok(Some(Flow::Next)),
        Flow::Back(value) => return Ok(Some(Flow::Back(value))),
        _ => {}
    }
    run_update(calls, update, state, replies)?;
    Ok(None)
}

/// A loop with its test before each turn.
#[cycle(statements)]
fn repeat<'p>(
    calls: &CallContext<'p>,
    test: Option<&'p TypedExpr>,
    update: Option<&'p TypedSimple>,
    body: &'p TypedStmt,
    state: &mut RankState<'p>,
    replies: &mut Replies,
) -> Result<Flow, Stop>
    requires { calls.now.rank.ranks ≤ MOST_RANKS }
    ensures { Leaves (loop (option_map pure_expr (option_copied test.entry)) (for_update calls.now.rank (calls_of calls.now) (option_map pure_simple (option_copied update.entry))) (started (act calls.now.rank (calls_of calls.now) (pure_stmt body.now)))) state.old replies.old result state.new replies.new }
{
    loop {
        if !state.test(test)? {
            return Ok(Flow::Next);
        }
        match take_turn(calls, update, body, state, replies)? {
            Some(flow) => return Ok(flow),
            None => {}
        }
    }
}

/// A loop with a turn before its first test.
#[cycle(statements)]
fn repeat_after<'p>(
    calls: &CallContext<'p>,
    test: &'p TypedExpr,
    body: &'p TypedStmt,
    state: &mut RankState<'p>,
    replies: &mut Replies,
) -> Result<Flow, Stop>
    requires { calls.now.rank.ranks ≤ MOST_RANKS }
    ensures { Leaves (loop_after (pure_expr test.now) (started (act calls.now.rank (calls_of calls.now) (pure_stmt body.now)))) state.old replies.old result state.new replies.new }
{
    match take_turn(calls, None, body, state, replies)? {
        Some(flow) => Ok(flow),
        None => repeat(calls, Some(test), None, body, state, replies),
    }
}

/// A `for`, which is a block of its own.
#[cycle(statements)]
fn run_for<'p>(
    calls: &CallContext<'p>,
    start: &'p TypedForStart,
    test: Option<&'p TypedExpr>,
    update: Option<&'p TypedSimple>,
    body: &'p TypedStmt,
    state: &mut RankState<'p>,
    replies: &mut Replies,
) -> Result<Flow, Stop>
    requires { calls.now.rank.ranks ≤ MOST_RANKS }
    ensures { Leaves (for_block calls.now.rank (calls_of calls.now) (pure_start start.now) (option_map pure_expr (option_copied test.entry)) (option_map pure_simple (option_copied update.entry)) (started (act calls.now.rank (calls_of calls.now) (pure_stmt body.now)))) state.old replies.old result state.new replies.new }
{
    let mark = state.mark();
    start_for(calls, start, state, replies)?;
    let flow = repeat(calls, test, update, body, state, replies)?;
    state.leave(mark);
    Ok(flow)
}

// ---- statements

/// A statement.
#[cycle(statements)]
fn run<'p>(
    calls: &CallContext<'p>,
    stmt: &'p TypedStmt,
    state: &mut RankState<'p>,
    replies: &mut Replies,
) -> Result<Flow, Stop>
    requires { calls.now.rank.ranks ≤ MOST_RANKS }
    ensures { Leaves (started (act calls.now.rank (calls_of calls.now) (pure_stmt stmt.now))) state.old replies.old result state.new replies.new }
{
    take_step(state)?;
    act(calls, stmt, state, replies)
}

/// A statement whose step is taken.
#[cycle(statements)]
#[tactic(auto, using(c_program::proofs::StmtViewed::stmt_views))]
fn act<'p>(
    calls: &CallContext<'p>,
    stmt: &'p TypedStmt,
    state: &mut RankState<'p>,
    replies: &mut Replies,
) -> Result<Flow, Stop>
    requires { calls.now.rank.ranks ≤ MOST_RANKS }
    ensures { Leaves (act calls.now.rank (calls_of calls.now) (pure_stmt stmt.now)) state.old replies.old result state.new replies.new }
{
    match stmt {
        TypedStmt::Block(parts) => run_block(calls, parts, state, replies),
        TypedStmt::Empty => Ok(Flow::Next),
        TypedStmt::Simple(one) => {
            run_simple(calls, one, state, replies)?;
            Ok(Flow::Next)
        }
        TypedStmt::Break => Ok(Flow::Broke),
        TypedStmt::Continue => Ok(Flow::Again),
        TypedStmt::Return(value) => run_return(calls, value, state, replies),
        TypedStmt::If { test, then } => run_if(calls, test, then, None, state, replies),
        TypedStmt::IfElse { test, then, other } => {
            run_if(calls, test, then, Some(other), state, replies)
        }
        TypedStmt::While { test, body } => repeat(calls, Some(test), None, body, state, replies),
        TypedStmt::Do { body, test } => repeat_after(calls, test, body, state, replies),
        TypedStmt::For {
            start,
            test,
            step,
            body,
        } => run_for(
            calls,
            start,
            test.as_ref(),
            step.as_ref(),
            body,
            state,
            replies,
        ),
    }
}

/// An `if`, with an `else` or without.
#[cycle(statements)]
fn run_if<'p>(
    calls: &CallContext<'p>,
    test: &'p TypedExpr,
    then: &'p TypedStmt,
    other: Option<&'p TypedStmt>,
    state: &mut RankState<'p>,
    replies: &mut Replies,
) -> Result<Flow, Stop>
    requires { calls.now.rank.ranks ≤ MOST_RANKS }
    ensures { Leaves (branch (pure_expr test.now) (started (act calls.now.rank (calls_of calls.now) (pure_stmt then.now))) (else_meaning calls.now.rank (calls_of calls.now) (option_map pure_stmt (option_copied other.entry)))) state.old replies.old result state.new replies.new }
{
    if state.test(Some(test))? {
        return run(calls, then, state, replies);
    }
    match other {
        None => Ok(Flow::Next),
        Some(stmt) => run(calls, stmt, state, replies),
    }
}

/// A `return`.
#[cycle(statements)]
fn run_return<'p>(
    calls: &CallContext<'p>,
    value: &'p Option<TypedRight>,
    state: &mut RankState<'p>,
    replies: &mut Replies,
) -> Result<Flow, Stop>
    requires { calls.now.rank.ranks ≤ MOST_RANKS }
    ensures { Leaves (return (calls_of calls.now) (option_map pure_right value.now)) state.old replies.old result state.new replies.new }
{
    match value {
        None => Ok(Flow::Back(0)),
        Some(right) => {
            let given = value_of(calls, right, state, replies)?;
            Ok(Flow::Back(given))
        }
    }
}

/// What stands in a block, which takes a step.
#[cycle(statements)]
#[tactic(auto, using(c_program::proofs::StmtViewed::stmt_views))]
fn run_part<'p>(
    calls: &CallContext<'p>,
    part: &'p TypedPart,
    state: &mut RankState<'p>,
    replies: &mut Replies,
) -> Result<Flow, Stop>
    requires { calls.now.rank.ranks ≤ MOST_RANKS }
    ensures { Leaves (started (act_part calls.now.rank (calls_of calls.now) (pure_part part.now))) state.old replies.old result state.new replies.new }
{
    take_step(state)?;
    match part {
        TypedPart::Declaration(declaration) => {
            declare_all(calls, &declaration.items, state, replies)?;
            Ok(Flow::Next)
        }
        TypedPart::Stmt(stmt) => act(calls, stmt, state, replies),
    }
}

/// Parts one after another.
#[cycle(statements)]
fn run_list<'p>(
    calls: &CallContext<'p>,
    parts: &'p [TypedPart],
    state: &mut RankState<'p>,
    replies: &mut Replies,
) -> Result<Flow, Stop>
    requires { calls.now.rank.ranks ≤ MOST_RANKS }
    ensures { Leaves (act_parts calls.now.rank (calls_of calls.now) (pure_parts parts.now)) state.old replies.old result state.new replies.new }
{
    for part in parts {
        match run_part(calls, part, state, replies)? {
            Flow::Next => {}
            flow => return Ok(flow),
        }
    }
    Ok(Flow::Next)
}

/// A block, behind which its variables are gone.
#[cycle(statements)]
fn run_block<'p>(
    calls: &CallContext<'p>,
    parts: &'p [TypedPart],
    state: &mut RankState<'p>,
    replies: &mut Replies,
) -> Result<Flow, Stop>
    requires { calls.now.rank.ranks ≤ MOST_RANKS }
    ensures { Leaves (blocked (act_parts calls.now.rank (calls_of calls.now) (pure_parts parts.now))) state.old replies.old result state.new replies.new }
{
    let mark = state.mark();
    let flow = run_list(calls, parts, state, replies)?;
    state.leave(mark);
    Ok(flow)
}
