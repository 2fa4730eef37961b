//! Typing of arguments, and of calls of the text's functions, in one walk.
ghost use Rattle.std.specs.Prelude.{◌≡◌, IfOk, map, option_map, slice_get};
ghost use Rattle.c_grammar.specs.StmtView.{argument_view, comma_list_view, head_view, parameter_view};
ghost use Rattle.c_grammar.specs.Tree as tree;
ghost use Rattle.c_grammar.specs.View.{links_from, piece, place_view, view};
ghost use Rattle.c_program.specs.Tree as pure;
ghost use Rattle.c_program.specs.View.{pure_argument, pure_call, pure_expr, pure_reference};
ghost use Rattle.c_scope.specs.Scopes.{meaning};
ghost use Rattle.c_scope.specs.Signatures.{listed, parameter_takes, signature_of};
ghost use Rattle.c_scope.specs.Typing.{refused, unfit};
ghost use Rattle.c_scope.specs.Walks.{Gives, Walked, mapped};
ghost use Rattle.c_type_expr.specs.Calls.{signature_takes};
ghost use Rattle.c_type_expr.specs.ExprTyping.{address_typing, alone_typing, argument_typing, arguments_typing, array_typing, buf_typing, cells_typing, counted_typing, function_typing, misfit_typing, null_or_array, reference_typing, value_typing};
ghost use Rattle.c_type_expr.specs.Shapes.{array_sum, name_alone, name_given, sum_base};

use crate::expression::{expr_of, int_of, wanted_of};
use c_grammar::statement::{Argument, CommaList, Head, Parameter, Parameters};
use c_grammar::terminal::{Span, Symbol};
use c_grammar::tree::{Expr, Link, Place};
use c_lex::Why;
use c_names::function::ArgumentKind;
use c_names::kind::VariableKind;
use c_names::predefined::Predefined;
use c_program::expr::{FunctionCall, Reference, TypedArgument, TypedExpr};
use c_scope::fault::TypingFault;
use c_scope::joins::{all, both, keep};
use c_scope::kind::{first_token, is_same_kind};
use c_scope::meaning::{Entity, ExprKind, Meaning};
use c_scope::refusals::{refused, unfit};
use c_scope::scope::Scope;
use std::alloc::{AllocError, Global};

// ---- faults

/// An expression that is not what is wanted.
fn misfit<T: Drop>(
    alloc: Global,
    scope: &Scope,
    best: &mut Option<TypingFault>,
    e: &Expr,
) -> Result<Option<T>, AllocError>
    ensures { Walked (λ form. form) best.old best.new result (misfit_typing scope.now (tree.value (view e.now))) }
{
    expr_of(alloc, scope, best, e)?;
    Ok(refused(best, first_token(e), Why::WrongType))
}

/// An argument that is not what is wanted.
pub fn misfit_of<T: Drop>(
    alloc: Global,
    scope: &Scope,
    best: &mut Option<TypingFault>,
    given: &Argument,
) -> Result<Option<T>, AllocError>
    ensures { Walked (λ form. form) best.old best.new result (misfit_typing scope.now (argument_view given.now)) }
{
    match given {
        Argument::Text(at) => Ok(refused(best, *at, Why::WrongType)),
        Argument::Address { mark, .. } => Ok(refused(best, *mark, Why::WrongType)),
        Argument::Value(e) => misfit(alloc, scope, best, e),
    }
}

// ---- values

/// An expression of a kind.
pub fn value_of(
    alloc: Global,
    scope: &Scope,
    best: &mut Option<TypingFault>,
    wanted: ExprKind,
    given: &Argument,
) -> Result<Option<TypedExpr>, AllocError>
    ensures { Walked pure_expr best.old best.new result (value_typing scope.now wanted (argument_view given.now)) }
{
    match given {
        Argument::Value(e) => wanted_of(alloc, scope, best, wanted, e),
        Argument::Text(_) => misfit_of(alloc, scope, best, given),
        Argument::Address { .. } => misfit_of(alloc, scope, best, given),
    }
}

// ---- names of cells

/// The variable of a name that has cells of a kind where cells of another are wanted.
fn cells_of(
    scope: &Scope,
    best: &mut Option<TypingFault>,
    wanted: VariableKind,
    kind: VariableKind,
    at: Span,
    name: Span,
) -> Option<usize>
    ensures { Gives best.old best.new result (cells_typing scope.now wanted kind at name) }
{
    if is_same_kind(wanted, kind) {
        Some(scope.variable(name))
    } else {
        refused(best, at, Why::WrongType)
    }
}

/// The array of a name, with cells of a kind.
fn array_of(
    scope: &Scope,
    best: &mut Option<TypingFault>,
    wanted: VariableKind,
    at: Span,
    name: Span,
    meant: Meaning,
) -> Option<usize>
    ensures { Gives best.old best.new result (array_typing scope.now wanted at name meant) }
{
    match meant {
        Meaning::Declared(Entity::Array(kind, _)) => cells_of(scope, best, wanted, kind, at, name),
        Meaning::Declared(Entity::ArrayParameter) => {
            cells_of(scope, best, wanted, VariableKind::Int, at, name)
        }
        _ => unfit(best, at, name, meant),
    }
}

/// The variable of a name after `&`, with cells of a kind.
fn address_of(
    scope: &Scope,
    best: &mut Option<TypingFault>,
    wanted: VariableKind,
    mark: Span,
    name: Span,
    meant: Meaning,
) -> Option<usize>
    ensures { Gives best.old best.new result (address_typing scope.now wanted mark name meant) }
{
    match meant {
        Meaning::Declared(Entity::Variable(kind)) => {
            cells_of(scope, best, wanted, kind, mark, name)
        }
        Meaning::Declared(Entity::ArgumentCount) => {
            cells_of(scope, best, wanted, VariableKind::Int, mark, name)
        }
        _ => array_of(scope, best, wanted, mark, name, meant),
    }
}

// ---- references

/// All cells of a variable.
fn all_of(variable: Option<usize>) -> Option<Reference>
    ensures { option_map pure_reference result ≡ option_map pure.all_of variable }
{
    match variable {
        Some(variable) => Some(Reference::Whole(variable)),
        None => None,
    }
}

/// The elements of a variable from one on.
fn cells_from(
    parts: Result<Option<(usize, TypedExpr)>, AllocError>,
) -> Result<Option<Reference>, AllocError>
    ensures { mapped pure_reference result ≡ mapped (λ both. pure.from both.0 (pure_expr both.1)) parts }
{
    match parts? {
        Some((variable, index)) => Ok(Some(Reference::From { variable, index })),
        None => Ok(None),
    }
}

/// The name of an array alone.
fn alone_of(
    scope: &Scope,
    best: &mut Option<TypingFault>,
    wanted: VariableKind,
    name: Span,
    meant: Meaning,
) -> Option<Reference>
    ensures { Gives best.old best.new (option_map pure_reference result) (alone_typing scope.now wanted name meant) }
{
    all_of(array_of(scope, best, wanted, name, name, meant))
}

/// `NULL`, or an array of ints.
fn null_or_array(
    scope: &Scope,
    best: &mut Option<TypingFault>,
    name: Span,
    meant: Meaning,
) -> Option<Reference>
    ensures { Gives best.old best.new (option_map pure_reference result) (null_or_array scope.now name meant) }
{
    match meant {
        Meaning::Known(Predefined::NoReference) => Some(Reference::Nothing),
        _ => alone_of(scope, best, VariableKind::Int, name, meant),
    }
}

/// The name that an expression is.
#[tactic(auto, using(c_grammar::proofs::Viewed::views))]
pub fn name_alone(e: &Expr) -> Option<Span>
    ensures { result ≡ name_alone (view e.now) }
{
    match e {
        Expr::Read(place) => match place {
            Place::Whole(name) => Some(*name),
            Place::Cell { .. } => None,
        },
        Expr::Number(_) => None,
        Expr::Field { .. } => None,
        Expr::Paren { .. } => None,
        Expr::Unary { .. } => None,
        Expr::Chain { .. } => None,
        Expr::Choice { .. } => None,
    }
}

/// The name that an argument is.
pub fn name_given(given: &Argument) -> Option<Span>
    ensures { result ≡ name_given (argument_view given.now) }
{
    match given {
        Argument::Value(e) => name_alone(e),
        Argument::Text(_) => None,
        Argument::Address { .. } => None,
    }
}

/// A name, and the one operand that is added to it.
fn sum_base(name: Option<Span>, links: &[Link]) -> Option<(Span, &Expr)>
    ensures { option_map (λ sum. (sum.0, view sum.1.now)) result ≡ sum_base name (links_from (map piece links.now)) }
{
    match name {
        None => None,
        Some(name) => match links {
            [] => None,
            [link] => match link.operator {
                Symbol::Plus => Some((name, &link.operand)),
                _ => None,
            },
            [_, _, ..] => None,
        },
    }
}

/// The name and the operand of a sum of two.
#[tactic(auto, using(c_grammar::proofs::Viewed::views))]
fn array_sum(e: &Expr) -> Option<(Span, &Expr)>
    ensures { option_map (λ sum. (sum.0, view sum.1.now)) result ≡ array_sum (view e.now) }
{
    match e {
        Expr::Chain { first, links, .. } => sum_base(name_alone(first), links),
        Expr::Number(_) => None,
        Expr::Read(_) => None,
        Expr::Field { .. } => None,
        Expr::Paren { .. } => None,
        Expr::Unary { .. } => None,
        Expr::Choice { .. } => None,
    }
}

/// `&NAME`, `&NAME[e]`.
fn marked_of(
    alloc: Global,
    scope: &Scope,
    best: &mut Option<TypingFault>,
    wanted: VariableKind,
    mark: Span,
    place: &Place,
) -> Result<Option<Reference>, AllocError>
    ensures { Walked pure_reference best.old best.new result (reference_typing scope.now wanted (tree.address mark (place_view place.now))) }
{
    match place {
        Place::Whole(name) => {
            let meant = scope.meaning(*name);
            Ok(all_of(address_of(scope, best, wanted, mark, *name, meant)))
        }
        Place::Cell { name, index, .. } => {
            let meant = scope.meaning(*name);
            cells_from(both(
                Ok(array_of(scope, best, wanted, mark, *name, meant)),
                int_of(alloc, scope, best, index),
            ))
        }
    }
}

/// `NAME`, `NAME + e`, or what is no reference.
fn unmarked_of(
    alloc: Global,
    scope: &Scope,
    best: &mut Option<TypingFault>,
    wanted: VariableKind,
    e: &Expr,
) -> Result<Option<Reference>, AllocError>
    ensures { Walked pure_reference best.old best.new result (reference_typing scope.now wanted (tree.value (view e.now))) }
{
    if let Some(name) = name_alone(e) {
        return Ok(alone_of(scope, best, wanted, name, scope.meaning(name)));
    }
    match array_sum(e) {
        Some((name, operand)) => {
            let meant = scope.meaning(name);
            cells_from(both(
                Ok(array_of(scope, best, wanted, name, name, meant)),
                int_of(alloc, scope, best, operand),
            ))
        }
        None => misfit(alloc, scope, best, e),
    }
}

/// A reference to cells of a kind.
pub fn reference_of(
    alloc: Global,
    scope: &Scope,
    best: &mut Option<TypingFault>,
    wanted: VariableKind,
    given: &Argument,
) -> Result<Option<Reference>, AllocError>
    ensures { Walked pure_reference best.old best.new result (reference_typing scope.now wanted (argument_view given.now)) }
{
    match given {
        Argument::Text(_) => misfit_of(alloc, scope, best, given),
        Argument::Address { mark, place } => { marked_of(alloc, scope, best, wanted, *mark, place) }
        Argument::Value(e) => unmarked_of(alloc, scope, best, wanted, e),
    }
}

/// The ints of a message.
pub fn buf_of(
    alloc: Global,
    scope: &Scope,
    best: &mut Option<TypingFault>,
    given: &Argument,
) -> Result<Option<Reference>, AllocError>
    ensures { Walked pure_reference best.old best.new result (buf_typing scope.now (argument_view given.now)) }
{
    match name_given(given) {
        Some(name) => Ok(null_or_array(scope, best, name, scope.meaning(name))),
        None => reference_of(alloc, scope, best, VariableKind::Int, given),
    }
}

// ---- calls of the text's functions

/// What a parameter takes.
fn parameter_takes(parameter: &Parameter) -> ArgumentKind
    ensures { result ≡ parameter_takes (parameter_view parameter.now) }
{
    match parameter {
        Parameter::Int { .. } => ArgumentKind::Number,
        Parameter::Array { .. } => ArgumentKind::Buffer,
        Parameter::Pointer { .. } => ArgumentKind::Buffer,
        Parameter::Communicator { .. } => ArgumentKind::Communicator,
        Parameter::TextPointers { .. } => ArgumentKind::Nothing,
        Parameter::TextArray { .. } => ArgumentKind::Nothing,
    }
}

/// What parameters take.
fn parameters_take(
    alloc: Global,
    list: &CommaList<Parameter>,
) -> Result<Vec<ArgumentKind>, AllocError>
    ensures { IfOk result (λ kinds. kinds.items ≡ map parameter_takes (listed (comma_list_view parameter_view list.now))) }
{
    let mut kinds = Vec::new(alloc);
    kinds.push(parameter_takes(&list.first))?;
    for behind in &list.more {
        kinds.push(parameter_takes(&behind.item))?;
    }
    Ok(kinds)
}

/// What a function of the text takes.
fn head_takes(alloc: Global, head: &Head) -> Result<Vec<ArgumentKind>, AllocError>
    ensures { IfOk result (λ kinds. kinds.items ≡ (signature_of (head_view head.now)).takes) }
{
    match &head.parameters {
        Parameters::Nothing => Ok(Vec::new(alloc)),
        Parameters::Void(_) => Ok(Vec::new(alloc)),
        Parameters::Listed(list) => parameters_take(alloc, list),
    }
}

/// The same, by the function's number.
fn function_takes(
    alloc: Global,
    scope: &Scope,
    number: usize,
) -> Result<Vec<ArgumentKind>, AllocError>
    ensures { IfOk result (λ kinds. kinds.items ≡ signature_takes (slice_get scope.now.functions number)) }
{
    match scope.head(number) {
        Some(head) => head_takes(alloc, head),
        None => Ok(Vec::new(alloc)),
    }
}

fn by_value(
    found: Result<Option<TypedExpr>, AllocError>,
) -> Result<Option<TypedArgument>, AllocError>
    ensures { mapped pure_argument result ≡ mapped (λ one. pure.by_value (pure_expr one)) found }
{
    match found? {
        Some(value) => Ok(Some(TypedArgument::Value(value))),
        None => Ok(None),
    }
}

fn by_reference(
    found: Result<Option<Reference>, AllocError>,
) -> Result<Option<TypedArgument>, AllocError>
    ensures { mapped pure_argument result ≡ mapped (λ one. pure.by_reference (pure_reference one)) found }
{
    match found? {
        Some(reference) => Ok(Some(TypedArgument::Reference(reference))),
        None => Ok(None),
    }
}

/// An argument, by what it has to be.
fn argument_of(
    alloc: Global,
    scope: &Scope,
    best: &mut Option<TypingFault>,
    kind: ArgumentKind,
    given: &Argument,
) -> Result<Option<TypedArgument>, AllocError>
    ensures { Walked pure_argument best.old best.new result (argument_typing scope.now kind (argument_view given.now)) }
{
    match kind {
        ArgumentKind::Number => {
            let wanted = ExprKind::Of(VariableKind::Int);
            by_value(value_of(alloc, scope, best, wanted, given))
        }
        ArgumentKind::Communicator => {
            let wanted = ExprKind::Of(VariableKind::Communicator);
            by_value(value_of(alloc, scope, best, wanted, given))
        }
        ArgumentKind::Buffer => by_reference(buf_of(alloc, scope, best, given)),
        _ => misfit_of(alloc, scope, best, given),
    }
}

/// As many arguments as are taken.
fn arguments_of(
    alloc: Global,
    scope: &Scope,
    best: &mut Option<TypingFault>,
    takes: &[ArgumentKind],
    given: &[&Argument],
) -> Result<Option<Vec<TypedArgument>>, AllocError>
    ensures { Walked (λ all. map pure_argument all.items) best.old best.new result (arguments_typing scope.now takes.now (map (λ one. argument_view one.now) given.now)) }
{
    let mut forms = Vec::new(alloc);
    let mut faulty = false;
    for place in 0..takes.len().min(given.len()) {
        let found = argument_of(alloc, scope, best, takes[place], given[place])?;
        keep(&mut forms, &mut faulty, found)?;
    }
    Ok(all(forms, faulty))
}

/// The arguments of a call; of a wrong number the number alone is told.
fn counted_of(
    alloc: Global,
    scope: &Scope,
    best: &mut Option<TypingFault>,
    name: Span,
    takes: &[ArgumentKind],
    given: &[&Argument],
) -> Result<Option<Vec<TypedArgument>>, AllocError>
    ensures { Walked (λ all. map pure_argument all.items) best.old best.new result (counted_typing scope.now name takes.now (map (λ one. argument_view one.now) given.now)) }
{
    if given.len() == takes.len() {
        arguments_of(alloc, scope, best, takes, given)
    } else {
        Ok(refused(best, name, Why::WrongCount))
    }
}

/// A call, from its arguments.
fn called(
    function: usize,
    arguments: Result<Option<Vec<TypedArgument>>, AllocError>,
) -> Result<Option<FunctionCall>, AllocError>
    ensures { mapped pure_call result ≡ mapped (λ all. record { function = function; arguments = map pure_argument all.items }) arguments }
{
    match arguments? {
        Some(arguments) => Ok(Some(FunctionCall {
            function,
            arguments,
        })),
        None => Ok(None),
    }
}

/// A call of a function of the text, by its number.
pub fn function_of(
    alloc: Global,
    scope: &Scope,
    best: &mut Option<TypingFault>,
    name: Span,
    number: usize,
    given: &[&Argument],
) -> Result<Option<FunctionCall>, AllocError>
    ensures { Walked pure_call best.old best.new result (function_typing scope.now name number (map (λ one. argument_view one.now) given.now)) }
{
    let takes = function_takes(alloc, scope, number)?;
    called(number, counted_of(alloc, scope, best, name, &takes, given))
}
