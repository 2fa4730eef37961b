//! Parts of evaluation in which no function of the text is called and nothing is asked.
ghost use Rattle.std.specs.Prelude.{◌≡◌, ◌<◌, List, IfSome, IfNone, OnOk, map, slice_get, true};
ghost use Rattle.c_program.specs.declared.state.Passed.{Passed};
ghost use Rattle.c_program.specs.Meaning.{has_room, length_or_one, parameter_cells, passed_all, print as print_of, put_values, step, trying, with_parameters};
ghost use Rattle.c_program.specs.Performing.{Onward};
ghost use Rattle.c_program.specs.Prints.{text_of};
ghost use Rattle.c_program.specs.Values.{values};
ghost use Rattle.c_program.specs.View.{pure_argument, pure_expr, pure_function, pure_item};
ghost use Rattle.c_run_cells.specs.Comes.{Comes, ComesOut, ComesToValue};
ghost use Rattle.c_run_cells.specs.Parts.{added, assigned, entered};

use crate::fail::Fail;
use crate::print::text_of;
use crate::state::{RankState, width_of};
use crate::values::operated;
use c_names::operator::Operator;
use c_program::constants::MOST_PRINTED;
use c_program::expr::{TypedArgument, TypedExpr};
use c_program::format::FormatPiece;
use c_program::program::{Function, ParameterKind, TypedParameter};
use c_program::state::Passed;
use c_program::statement::TypedInitDeclarator;
use mpi_call::call::Fault;
use mpi_call::lists::Ints;
use std::alloc::{AllocError, Global};

/// Takes a step.
pub fn take_step(state: &mut RankState) -> Result<(), Fail>
    ensures evaluated { ComesOut step state.old result state.new }
    ensures fewer { OnOk result (state.new.left < state.old.left) }
{
    if state.step() {
        Ok(())
    } else {
        Err(Fail::Trapped(Fault::Budget))
    }
}

/// Prints a format with the values of its arguments. At most `MOST_PRINTED` bytes are printed.
pub fn print(
    alloc: Global,
    format: &[FormatPiece],
    arguments: &[TypedExpr],
    state: &mut RankState,
) -> Result<(), Fail>
    ensures { ComesOut (λ s go. trying (values (map pure_expr arguments.now) s) s (λ vs. print_of (text_of format.now vs) s go)) state.old result state.new }
{
    let ints = values_of(alloc, arguments, state)?;
    let text = text_of(alloc, format, ints.as_slice())?;
    if state.printed().len() + text.len() <= MOST_PRINTED as usize {
        state.print(&text)?;
        Ok(())
    } else {
        Err(Fail::Trapped(Fault::OutputFull))
    }
}

/// The values of expressions, in order.
fn values_of(alloc: Global, expressions: &[TypedExpr], state: &RankState) -> Result<Ints, Fail>
    ensures { ComesToValue (λ s go. trying (values (map pure_expr expressions.now) s) s (λ vs. go vs s)) state.now result state.now }
{
    let mut ints = Ints::new(alloc);
    for expression in expressions {
        let value = state.value(expression)?;
        ints.push(value)?;
    }
    Ok(ints)
}

/// The arguments of a function of the text.
pub fn arguments_of(
    alloc: Global,
    arguments: &[TypedArgument],
    state: &RankState,
) -> Result<Vec<Passed>, Fail>
    ensures { Comes (λ (go : List Passed → Onward) passed. go passed.items) (λ s go. trying (passed_all (map pure_argument arguments.now) s) s (λ passed. go passed s)) state.now result state.now }
{
    let mut passed = Vec::new(alloc);
    for argument in arguments {
        let one = state.passed(argument)?;
        passed.push(one)?;
    }
    Ok(passed)
}

/// Puts the values of expressions from a cell on. Out of memory also where a cell's number would be 2^32.
pub fn put_values_of(
    expressions: &[TypedExpr],
    first: u32,
    state: &mut RankState,
) -> Result<(), Fail>
    ensures { ComesOut (put_values (map pure_expr expressions.now) first) state.old result state.new }
{
    let mut cell = first;
    for expression in expressions {
        let value = state.value(expression)?;
        state.put(cell, value);
        if cell == u32::MAX {
            return Err(Fail::Memory);
        }
        cell += 1;
    }
    Ok(())
}

/// Puts a value into a cell, or what an operator makes of the cell and the value.
pub fn put_assigned(
    operator: Option<Operator>,
    cell: u32,
    value: i32,
    state: &mut RankState,
) -> Result<(), Fail>
    ensures { ComesOut (assigned operator cell value) state.old result state.new }
{
    match operator {
        None => {
            state.put(cell, value);
            Ok(())
        }
        Some(operator) => {
            let made = operated(operator, state.cell(cell), value)?;
            state.put(cell, made);
            Ok(())
        }
    }
}

/// The variable of an item, not yet begun; gives its first cell.
#[tactic(auto, using(crate::proofs::StateLaws::cells_counted))]
pub fn add<'p>(item: &'p TypedInitDeclarator, state: &mut RankState<'p>) -> Result<u32, Fail>
    ensures { ComesToValue (added (pure_item item.now)) state.old result state.new }
{
    let elements = elements_of(item);
    let cell = state.height() as u32;
    if !state.has_room(elements as usize * width_of(item.kind) as usize) {
        return Err(Fail::Trapped(Fault::Cells));
    }
    state.declare(&item.name, item.kind, elements)?;
    Ok(cell)
}

/// How many elements the variable of an item has.
fn elements_of(item: &TypedInitDeclarator) -> u32
    ensures { result ≡ length_or_one item.now.length }
{
    match item.length {
        None => 1,
        Some(length) => length,
    }
}

/// A function by its number.
pub fn function_at(functions: &[Function], function: usize) -> Option<&Function>
    ensures some { IfSome result (λ found. slice_get functions.now function ≡ Some found.now) }
    ensures none { IfNone result (slice_get functions.now function ≡ None) }
{
    functions.get(function)
}

/// Opens a call of a function, and adds its parameters.
pub fn enter<'p>(
    function: &'p Function,
    arguments: &[Passed],
    state: &mut RankState<'p>,
) -> Result<(), Fail>
    ensures { ComesOut (entered (pure_function function.now) arguments.now) state.old result state.new }
{
    if !state.has_room(cells_for(&function.parameters)) {
        return Err(Fail::Trapped(Fault::Cells));
    }
    state.open()?;
    add_parameters(&function.parameters, arguments, state)?;
    Ok(())
}

/// How many cells parameters take.
fn cells_for(parameters: &[TypedParameter]) -> usize
    ensures { result ≡ parameter_cells parameters.now }
{
    let mut cells = 0;
    for parameter in parameters {
        match parameter.kind {
            ParameterKind::Texts => {}
            _ => cells += 1,
        }
    }
    cells
}

/// Adds parameters. An argument that is not there is none.
fn add_parameters<'p>(
    parameters: &'p [TypedParameter],
    arguments: &[Passed],
    state: &mut RankState<'p>,
) -> Result<(), AllocError>
    requires { has_room (parameter_cells parameters.now) state.old ≡ true }
    ensures { OnOk result (state.new ≡ with_parameters parameters.now arguments.now state.old) }
{
    for i in 0..parameters.len() {
        state.add_parameter(&parameters[i], arguments.get(i).copied())?;
    }
    Ok(())
}
