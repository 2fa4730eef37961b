//! Typing of calls that stand alone, and of right sides, in one walk.
ghost use Rattle.std.specs.Prelude.{◌≡◌, ◌∷◌, IfOk, map, slice_get};
ghost use Rattle.c_grammar.specs.StmtView.{argument_view, call_view, comma_list_view, right_view};
ghost use Rattle.c_scope.specs.Signatures.{is_int_keyword, listed};
ghost use Rattle.c_grammar.specs.declared.terminal.Span.{Span};
ghost use Rattle.c_program.specs.Tree as pure;
ghost use Rattle.c_program.specs.View.{pure_call, pure_expr, pure_mpi, pure_right, pure_simple};
ghost use Rattle.c_scope.specs.Scopes.{meaning};
ghost use Rattle.c_lex.specs.declared.fault.Why.TheVariants.{LeftOut};
ghost use Rattle.c_scope.specs.Typing.{behind, refused};
ghost use Rattle.c_scope.specs.Walks.{Gives, Walked, mapped};
ghost use Rattle.c_type_expr.specs.inside.FormatTests.{takes_ints};
ghost use Rattle.c_type_expr.specs.Calls.{arguments_of, gives_int, right_first_token, without_quotes};
ghost use Rattle.c_type_expr.specs.CallTyping.{call_typing, called_typing, flush_typing, format_typing, gives_typing, numbers_typing, print_typing, result_typing, right_typing, spelled_pieces, stream_meant, stream_typing};
ghost use Rattle.c_type_expr.specs.MpiTyping.{mpi_typing};

use crate::argument::{function_of, misfit_of, name_given, value_of};
use crate::expression::wanted_of;
use crate::mpi::mpi_of;
use c_grammar::statement::{Argument, CommaList, Right, WrittenCall};
use c_grammar::terminal::{Span, Symbol};
use c_lex::Why;
use c_names::function::MpiFunction;
use c_names::kind::VariableKind;
use c_names::predefined::Predefined;
use c_program::expr::{FunctionCall, TypedExpr, TypedRight};
use c_program::format::{FormatPiece, count_ints, pieces};
use c_program::mpi::MpiCall;
use c_program::statement::TypedSimple;
use c_scope::fault::{TypingFault, note_at};
use c_scope::joins::{all, both, if_well, keep};
use c_scope::kind::first_token;
use c_scope::meaning::{Entity, ExprKind, Meaning};
use c_scope::refusals::{of_kind, refused, unfit};
use c_scope::scope::{Scope, token_bytes};
use std::alloc::{AllocError, Global};

const INT: ExprKind = ExprKind::Of(VariableKind::Int);

// ---- the arguments of a call

/// What stands between the commas.
fn items_of<'a>(
    alloc: Global,
    list: &'a CommaList<Argument>,
) -> Result<Vec<&'a Argument>, AllocError>
    ensures { IfOk result (λ given. map (λ one. argument_view one.now) given.items ≡ listed (comma_list_view argument_view list.now)) }
{
    let mut given = Vec::new(alloc);
    given.push(&list.first)?;
    for behind in &list.more {
        given.push(&behind.item)?;
    }
    Ok(given)
}

/// The arguments of a call.
fn arguments_of(alloc: Global, call: &WrittenCall) -> Result<Vec<&Argument>, AllocError>
    ensures { IfOk result (λ given. map (λ one. argument_view one.now) given.items ≡ arguments_of (call_view call.now)) }
{
    match &call.arguments {
        Some(list) => items_of(alloc, list),
        None => Ok(Vec::new(alloc)),
    }
}

// ---- printf and fflush

/// What stands between the quotes of a text.
fn without_quotes(quoted: &[u8]) -> &[u8]
    ensures { result.now ≡ without_quotes quoted.now }
{
    if quoted.len() < 2 {
        return &[];
    }
    &quoted[1..quoted.len() - 1]
}

/// Whether a format is one of so many ints.
#[tactic(auto, using(crate::proofs::SpelledFormats::pieces_are_spelled))]
fn takes_ints(format: &[u8], count: usize) -> bool
    ensures { result ≡ takes_ints count (spelled_pieces format.now) }
{
    match count_ints(format) {
        Some(ints) => ints == count,
        None => false,
    }
}

/// A text that is a format for so many ints.
fn format_of(
    alloc: Global,
    scope: &Scope,
    best: &mut Option<TypingFault>,
    at: Span,
    count: usize,
) -> Result<Option<Vec<FormatPiece>>, AllocError>
    ensures { Walked (λ format. format.items) best.old best.new result (format_typing scope.now at count) }
{
    let format = without_quotes(token_bytes(scope.text(), at));
    let found = pieces(alloc, format)?;
    let well = takes_ints(format, count);
    if !well {
        note_at(best, at, Why::BadFormat);
    }
    Ok(if_well(well, found))
}

/// Ints.
fn numbers_of(
    alloc: Global,
    scope: &Scope,
    best: &mut Option<TypingFault>,
    given: &[&Argument],
) -> Result<Option<Vec<TypedExpr>>, AllocError>
    ensures { Walked (λ all. map pure_expr all.items) best.old best.new result (numbers_typing scope.now (map (λ one. argument_view one.now) given.now)) }
{
    let mut numbers = Vec::new(alloc);
    let mut faulty = false;
    for one in given {
        let number = value_of(alloc, scope, best, INT, one)?;
        keep(&mut numbers, &mut faulty, number)?;
    }
    Ok(all(numbers, faulty))
}

/// A format and ints, printed.
fn print(
    parts: Result<Option<(Vec<FormatPiece>, Vec<TypedExpr>)>, AllocError>,
) -> Result<Option<TypedSimple>, AllocError>
    ensures { mapped pure_simple result ≡ mapped (λ both. pure.print both.0.items (map pure_expr both.1.items)) parts }
{
    match parts? {
        Some((format, arguments)) => Ok(Some(TypedSimple::Print { format, arguments })),
        None => Ok(None),
    }
}

/// A format and its ints, where the first argument is a text.
fn format_and_numbers(
    alloc: Global,
    scope: &Scope,
    best: &mut Option<TypingFault>,
    first: &Argument,
    others: &[&Argument],
) -> Result<Option<TypedSimple>, AllocError>
    ensures { (name : Span) → Walked pure_simple best.old best.new result (print_typing scope.now name (argument_view first.now ∷ map (λ one. argument_view one.now) others.now)) }
{
    match first {
        Argument::Text(at) => print(both(
            format_of(alloc, scope, best, *at, others.len()),
            numbers_of(alloc, scope, best, others),
        )),
        _ => misfit_of(alloc, scope, best, first),
    }
}

/// A call of `printf`.
fn print_of(
    alloc: Global,
    scope: &Scope,
    best: &mut Option<TypingFault>,
    name: Span,
    given: &[&Argument],
) -> Result<Option<TypedSimple>, AllocError>
    ensures { Walked pure_simple best.old best.new result (print_typing scope.now name (map (λ one. argument_view one.now) given.now)) }
{
    match given {
        [] => Ok(refused(best, name, Why::WrongCount)),
        [first, others @ ..] => format_and_numbers(alloc, scope, best, first, others),
    }
}

/// `stdout`.
fn stream_of(
    alloc: Global,
    scope: &Scope,
    best: &mut Option<TypingFault>,
    stream: &Argument,
) -> Result<Option<()>, AllocError>
    ensures { Walked (λ trace. trace) best.old best.new result (stream_typing scope.now (argument_view stream.now)) }
{
    match name_given(stream) {
        None => misfit_of(alloc, scope, best, stream),
        Some(name) => Ok(stream_meant(best, name, scope.meaning(name))),
    }
}

fn stream_meant(best: &mut Option<TypingFault>, name: Span, meant: Meaning) -> Option<()>
    ensures { Gives best.old best.new result (stream_meant name meant) }
{
    match meant {
        Meaning::Known(Predefined::Output) => Some(()),
        _ => unfit(best, name, name, meant),
    }
}

fn flush(stream: Result<Option<()>, AllocError>) -> Result<Option<TypedSimple>, AllocError>
    ensures { mapped pure_simple result ≡ mapped (λ trace. pure.flush) stream }
{
    match stream? {
        Some(_) => Ok(Some(TypedSimple::Flush)),
        None => Ok(None),
    }
}

fn flush_of(
    alloc: Global,
    scope: &Scope,
    best: &mut Option<TypingFault>,
    name: Span,
    given: &[&Argument],
) -> Result<Option<TypedSimple>, AllocError>
    ensures { Walked pure_simple best.old best.new result (flush_typing scope.now name (map (λ one. argument_view one.now) given.now)) }
{
    match given {
        [stream] => flush(stream_of(alloc, scope, best, stream)),
        _ => Ok(refused(best, name, Why::WrongCount)),
    }
}

// ---- calls

fn function_call(
    call: Result<Option<FunctionCall>, AllocError>,
) -> Result<Option<TypedSimple>, AllocError>
    ensures { mapped pure_simple result ≡ mapped (λ one. pure.call (pure_call one)) call }
{
    match call? {
        Some(call) => Ok(Some(TypedSimple::Call(call))),
        None => Ok(None),
    }
}

fn mpi_call(
    call: Result<Option<Box<MpiCall>>, AllocError>,
) -> Result<Option<TypedSimple>, AllocError>
    ensures { mapped pure_simple result ≡ mapped (λ held. pure.mpi (pure_mpi held.value)) call }
{
    match call? {
        Some(call) => Ok(Some(TypedSimple::Mpi(call))),
        None => Ok(None),
    }
}

/// A call of what a name means.
fn called_of(
    alloc: Global,
    scope: &Scope,
    best: &mut Option<TypingFault>,
    name: Span,
    given: &[&Argument],
) -> Result<Option<TypedSimple>, AllocError>
    ensures { Walked pure_simple best.old best.new result (called_typing scope.now name (meaning scope.now name) (map (λ one. argument_view one.now) given.now)) }
{
    match scope.meaning(name) {
        Meaning::Declared(Entity::Function(number)) => {
            function_call(function_of(alloc, scope, best, name, number, given))
        }
        Meaning::Known(Predefined::Mpi(function)) => {
            mpi_call(mpi_of(alloc, scope, best, name, function, given))
        }
        Meaning::Known(Predefined::Printf) => print_of(alloc, scope, best, name, given),
        Meaning::Known(Predefined::Fflush) => flush_of(alloc, scope, best, name, given),
        meant => Ok(unfit(best, name, name, meant)),
    }
}

/// A call that stands alone.
pub fn call_of(
    alloc: Global,
    scope: &Scope,
    best: &mut Option<TypingFault>,
    call: &WrittenCall,
) -> Result<Option<TypedSimple>, AllocError>
    ensures { Walked pure_simple best.old best.new result (call_typing scope.now (call_view call.now)) }
{
    let given = arguments_of(alloc, call)?;
    called_of(alloc, scope, best, call.name, &given)
}

// ---- right sides

/// Whether a function of the text gives an int.
fn gives_int(scope: &Scope, number: usize) -> bool
    ensures { result ≡ gives_int (slice_get scope.now.functions number) }
{
    match scope.head(number) {
        Some(head) => is_int(head.result),
        None => false,
    }
}

fn is_int(symbol: Symbol) -> bool
    ensures { result ≡ is_int_keyword symbol }
{
    match symbol {
        Symbol::Int => true,
        _ => false,
    }
}

fn called(call: Result<Option<FunctionCall>, AllocError>) -> Result<Option<TypedRight>, AllocError>
    ensures { mapped pure_right result ≡ mapped (λ one. pure.called (pure_call one)) call }
{
    match call? {
        Some(call) => Ok(Some(TypedRight::Call(call))),
        None => Ok(None),
    }
}

fn value(e: Result<Option<TypedExpr>, AllocError>) -> Result<Option<TypedRight>, AllocError>
    ensures { mapped pure_right result ≡ mapped (λ one. pure.value (pure_expr one)) e }
{
    match e? {
        Some(e) => Ok(Some(TypedRight::Value(e))),
        None => Ok(None),
    }
}

/// What a function of the text gives, by its number, where a kind is wanted.
fn given_by(
    alloc: Global,
    scope: &Scope,
    best: &mut Option<TypingFault>,
    wanted: ExprKind,
    name: Span,
    number: usize,
    given: &[&Argument],
) -> Result<Option<TypedRight>, AllocError>
    ensures { Walked pure_right best.old best.new result (gives_typing scope.now wanted name number (map (λ one. argument_view one.now) given.now)) }
{
    if !gives_int(scope, number) {
        function_of(alloc, scope, best, name, number, given)?;
        return Ok(refused(best, name, Why::WrongType));
    }
    let found = called(function_of(alloc, scope, best, name, number, given))?;
    Ok(of_kind(best, wanted, INT, name, found))
}

/// A call of an MPI function gives no value.
fn no_mpi_value(
    alloc: Global,
    scope: &Scope,
    best: &mut Option<TypingFault>,
    name: Span,
    function: MpiFunction,
    given: &[&Argument],
) -> Result<Option<TypedRight>, AllocError>
    ensures { Walked pure_right best.old best.new result (behind (mpi_typing scope.now name function (map (λ one. argument_view one.now) given.now)) (refused name LeftOut)) }
{
    mpi_of(alloc, scope, best, name, function, given)?;
    Ok(refused(best, name, Why::LeftOut))
}

/// A call of what a name means; functions of the text alone give a value here.
fn result_of(
    alloc: Global,
    scope: &Scope,
    best: &mut Option<TypingFault>,
    wanted: ExprKind,
    name: Span,
    given: &[&Argument],
) -> Result<Option<TypedRight>, AllocError>
    ensures { Walked pure_right best.old best.new result (result_typing scope.now wanted name (meaning scope.now name) (map (λ one. argument_view one.now) given.now)) }
{
    match scope.meaning(name) {
        Meaning::Declared(Entity::Function(number)) => {
            given_by(alloc, scope, best, wanted, name, number, given)
        }
        Meaning::Known(Predefined::Mpi(function)) => {
            no_mpi_value(alloc, scope, best, name, function, given)
        }
        Meaning::Known(Predefined::Printf) => {
            print_of(alloc, scope, best, name, given)?;
            Ok(refused(best, name, Why::LeftOut))
        }
        Meaning::Known(Predefined::Fflush) => {
            flush_of(alloc, scope, best, name, given)?;
            Ok(refused(best, name, Why::WrongType))
        }
        meant => Ok(unfit(best, name, name, meant)),
    }
}

/// A right side where a kind is wanted.
pub fn right_of(
    alloc: Global,
    scope: &Scope,
    best: &mut Option<TypingFault>,
    wanted: ExprKind,
    right: &Right,
) -> Result<Option<TypedRight>, AllocError>
    ensures { Walked pure_right best.old best.new result (right_typing scope.now wanted (right_view right.now)) }
{
    match right {
        Right::Call(call) => {
            let given = arguments_of(alloc, call)?;
            result_of(alloc, scope, best, wanted, call.name, &given)
        }
        Right::Value(e) => value(wanted_of(alloc, scope, best, wanted, e)),
    }
}

/// The first token of a right side.
pub fn right_first_token(right: &Right) -> Span
    ensures { result ≡ right_first_token (right_view right.now) }
{
    match right {
        Right::Call(call) => call.name,
        Right::Value(e) => first_token(e),
    }
}
