//! Typing of functions and of the whole text.
ghost use Rattle.std.specs.Prelude.{◌≡◌, ◌≤◌, ◌++◌, [], IfOk, List, OnOk, Some, length, map, option_map};
ghost use Rattle.c_grammar.specs.StmtView.{external_view, head_view, parts_view, tree_view, value_view};
ghost use Rattle.c_lex.specs.declared.limits.TheConstants.{MOST_BYTES};
ghost use Rattle.c_program.specs.Tree as pure;
ghost use Rattle.c_program.specs.View.{pure_function, pure_parts, pure_program};
ghost use Rattle.c_lex.specs.declared.fault.Why.TheVariants.{NoMain};
ghost use Rattle.c_scope.specs.Least.{least_fault_from, take_less};
ghost use Rattle.c_scope.specs.Typing.{Typing, both};
ghost use Rattle.c_scope.specs.Walks.{Walked, if_both};
ghost use Rattle.c_types.specs.ProgramTyping.{definition_typing, external_typing, functions_typing, main_typing, program_typing};
ghost use Rattle.c_types.specs.Programs.{after_external, define_value, external_twice_faults, seen_after};
ghost use Rattle.c_types.specs.inside.Seen.{HaveSameNames};
ghost use Rattle.c_types.specs.inside.Settled.{Settles, found_functions};

use crate::heads::{heads_of, is_int, is_main, main_number};
use crate::parameters::{check_prototype, parameters_of};
use crate::seen::SeenNames;
use c_grammar::statement::{ExternalDeclaration, Head, Part, Tree, Value};
use c_grammar::terminal::Span;
use c_lex::Why;
use c_names::predefined::meaning_of;
use c_program::program::{CProgram, Function, TypedParameter};
use c_program::statement::TypedPart;
use c_scope::fault::{TypingFault, note, note_unless};
use c_scope::joins::unless_told;
use c_scope::meaning::Entity;
use c_scope::scope::{Scope, number_at, token_bytes};
use c_type_stmt::statement::parts_of;
use std::alloc::{AllocError, Global};

// ---- functions

/// A function of its parameters and its body.
fn function(
    parameters: Option<Vec<TypedParameter>>,
    body: Option<Vec<TypedPart>>,
) -> Option<Function>
    ensures { option_map pure_function result ≡ if_both (λ parameters body. record { parameters = parameters; body = body }) (option_map (λ all. all.items) parameters) (option_map (λ all. pure_parts all.items) body) }
{
    Function::of(parameters, body)
}

/// A function as it is defined; the scope is then as before.
#[tactic(auto, using(crate::proofs::Definitions::closed_function))]
fn definition_of(
    alloc: Global,
    scope: &mut Scope,
    best: &mut Option<TypingFault>,
    head: &Head,
    parts: &[Part],
) -> Result<Option<Function>, AllocError>
    ensures typed { Walked pure_function best.old best.new result (definition_typing scope.old (head_view head.now) (parts_view parts.now)) }
    ensures scope { OnOk result (scope.new ≡ scope.old) }
{
    let main = is_main(scope.text(), head);
    scope.open()?;
    let parameters = parameters_of(alloc, scope, best, main, &head.parameters)?;
    let body = parts_of(alloc, scope, best, is_int(head.result), false, parts)?;
    scope.close();
    Ok(function(parameters, body))
}

// ---- the text

/// A name that is free in the text.
fn want_new(best: &mut Option<TypingFault>, text: &[u8], seen: &SeenNames, span: Span)
    ensures { best.new ≡ least_fault_from best.old (external_twice_faults text.now seen.now span) }
{
    let name = token_bytes(text, span);
    let taken = meaning_of(name).is_some() || seen.has(name);
    note_unless(best, !taken, span, Why::Twice);
}

/// The value of a define.
fn define_value(text: &[u8], value: &Value) -> i32
    ensures { result ≡ define_value text.now (value_view value.now) }
{
    let number = number_at(text, value.number).cast_signed();
    if value.minus.is_some() {
        number.wrapping_neg()
    } else {
        number
    }
}

/// The function that stands at a place of the text, or nothing. A name is then seen, and a define declared.
fn external_of<'a>(
    alloc: Global,
    scope: &mut Scope<'a>,
    seen: &mut SeenNames<'a>,
    best: &mut Option<TypingFault>,
    external: &ExternalDeclaration,
) -> Result<Option<Option<Function>>, AllocError>
    ensures typed { Walked (λ one. option_map pure_function one) best.old best.new result (external_typing scope.old seen.old (external_view external.now)) }
    ensures scope { OnOk result (scope.new ≡ after_external scope.old (external_view external.now)) }
    ensures seen { OnOk result (HaveSameNames seen.new (seen_after scope.old.text seen.old (external_view external.now))) }
{
    let text = scope.text();
    let mut own = None;
    match external {
        ExternalDeclaration::Define { name, value, .. } => {
            want_new(&mut own, text, seen, *name);
            seen.add(token_bytes(text, *name))?;
            scope.declare(*name, Entity::Define(define_value(text, value)))?;
            Ok(unless_told(best, own, Some(None)))
        }
        ExternalDeclaration::Function { head, parts, .. } => {
            want_new(&mut own, text, seen, head.name);
            seen.add(token_bytes(text, head.name))?;
            let function = definition_of(alloc, scope, best, head, parts)?;
            Ok(unless_told(best, own, function.map(Some)))
        }
        ExternalDeclaration::Prototype { head, .. } => {
            check_prototype(&mut own, scope, is_main(text, head), &head.parameters);
            Ok(unless_told(best, own, Some(None)))
        }
    }
}

/// One function more, where there is one.
fn add(functions: &mut Vec<Function>, one: Option<Option<Function>>) -> Result<(), AllocError>
    ensures { OnOk result (map pure_function functions.new.items ≡ map pure_function functions.old.items ++ found_functions (option_map (option_map pure_function) one)) }
{
    if let Some(Some(function)) = one {
        functions.push(function)?;
    }
    Ok(())
}

/// The functions of the text, in its order, or the first fault. After a fault the others are walked as well.
fn functions_of(
    alloc: Global,
    scope: &mut Scope,
    externals: &[ExternalDeclaration],
) -> Result<Result<Vec<Function>, TypingFault>, AllocError>
    ensures { IfOk result (λ found. Settles (λ all. map pure_function all.items) found (functions_typing scope.old [] (map external_view externals.now))) }
{
    let mut best = None;
    let mut seen = SeenNames::new(alloc);
    let mut functions = Vec::new(alloc);
    for external in externals {
        let one = external_of(alloc, scope, &mut seen, &mut best, external)?;
        add(&mut functions, one)?;
    }
    match best {
        None => Ok(Ok(functions)),
        Some(fault) => Ok(Err(fault)),
    }
}

/// The first of the faults that were found and another.
fn first_of(found: Option<TypingFault>, other: TypingFault) -> TypingFault
    ensures { Some result ≡ take_less found other }
{
    let mut first = found;
    note(&mut first, other);
    first.unwrap_or(other)
}

/// A text without main, at its end.
fn no_main(text: &[u8]) -> TypingFault
    requires { length text.now ≤ MOST_BYTES }
    ensures { result ≡ record { at = length text.now; why = NoMain } }
{
    TypingFault {
        at: text.len() as u32,
        why: Why::NoMain,
    }
}

/// A program of its functions and the number of main; no main is a fault.
fn program(
    text: &[u8],
    functions: Result<Vec<Function>, TypingFault>,
    main: Option<usize>,
) -> Result<CProgram, TypingFault>
    requires { length text.now ≤ MOST_BYTES }
    ensures { (t : Typing (List pure.Function)) → Settles (λ all. map pure_function all.items) functions t
        → Settles pure_program result (both (λ functions main. record { functions = functions; main = main }) t (main_typing text.now main)) }
{
    match main {
        Some(main) => Ok(CProgram {
            functions: functions?,
            main,
        }),
        None => Err(first_of(functions.err(), no_main(text))),
    }
}

/// The typed program of a tree, or its first fault.
pub fn program_of(
    alloc: Global,
    text: &[u8],
    tree: &Tree,
) -> Result<Result<CProgram, TypingFault>, AllocError>
    requires { length text.now ≤ MOST_BYTES }
    ensures { IfOk result (λ found. Settles pure_program found (program_typing text.now (tree_view tree.now))) }
{
    let heads = heads_of(alloc, &tree.externals)?;
    let main = main_number(text, &heads);
    let mut scope = Scope::of_functions(alloc, text, heads)?;
    let functions = functions_of(alloc, &mut scope, &tree.externals)?;
    Ok(program(text, functions, main))
}
