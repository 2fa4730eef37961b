//! Typing of parameters.
ghost use Rattle.std.specs.Prelude.{◌≡◌, IfOk, OnOk};
ghost use Rattle.c_grammar.specs.StmtView.{comma_list_view, parameter_view, parameters_view};
ghost use Rattle.c_scope.specs.Least.{least_fault_from};
ghost use Rattle.c_scope.specs.Signatures.{listed, parameters_listed};
ghost use Rattle.c_scope.specs.Walks.{Gives, Walked};
ghost use Rattle.c_types.specs.ProgramTyping.{named_typing, parameter_first_token, parameter_typing, parameters_typing};
ghost use Rattle.c_types.specs.Programs.{after_parameter, after_parameters, declare_optional, parameter_faults, parameter_kind, parameter_name, prototype_faults};

use crate::heads::{parameter_entity, parameter_first_token, parameter_kind, parameter_name};
use c_grammar::statement::{CommaList, Parameter, Parameters};
use c_grammar::terminal::Span;
use c_lex::Why;
use c_program::program::TypedParameter;
use c_scope::constant::want_length;
use c_scope::fault::{TypingFault, note_at, note_unless};
use c_scope::joins::{all, keep, unless_told};
use c_scope::meaning::Entity;
use c_scope::scope::{Scope, token_bytes};
use std::alloc::{AllocError, Global};
use wiz_base::Bytes;

/// A bad length, and a `char` outside main.
fn check_parameter(best: &mut Option<TypingFault>, scope: &Scope, main: bool, parameter: &Parameter)
    ensures { best.new ≡ least_fault_from best.old (parameter_faults scope.now main (parameter_view parameter.now)) }
{
    match parameter {
        Parameter::Array { length, .. } => {
            if let Some(length) = length {
                want_length(best, scope, length);
            }
        }
        Parameter::TextPointers { keyword, .. } => note_unless(best, main, *keyword, Why::LeftOut),
        Parameter::TextArray { keyword, .. } => note_unless(best, main, *keyword, Why::LeftOut),
        _ => {}
    }
}

/// The parameters of a prototype, which declares nothing.
pub fn check_prototype(
    best: &mut Option<TypingFault>,
    scope: &Scope,
    main: bool,
    parameters: &Parameters,
)
    ensures { best.new ≡ least_fault_from best.old (prototype_faults scope.now main (parameters_listed (parameters_view parameters.now))) }
{
    if let Parameters::Listed(list) = parameters {
        check_parameter(best, scope, main, &list.first);
        for behind in &list.more {
            check_parameter(best, scope, main, &behind.item);
        }
    }
}

fn declare(scope: &mut Scope, name: Option<Span>, entity: Entity) -> Result<(), AllocError>
    ensures { OnOk result (scope.new ≡ declare_optional scope.old name entity) }
{
    match name {
        Some(name) => scope.declare(name, entity),
        None => Ok(()),
    }
}

/// A parameter of a function, whose name has to be there and new.
fn named_of(
    alloc: Global,
    scope: &Scope,
    best: &mut Option<TypingFault>,
    parameter: &Parameter,
) -> Result<Option<TypedParameter>, AllocError>
    ensures { IfOk result (λ found. Gives best.old best.new found (named_typing scope.now (parameter_first_token (parameter_view parameter.now)) (parameter_kind (parameter_view parameter.now)) (parameter_name (parameter_view parameter.now)))) }
{
    match parameter_name(parameter) {
        None => {
            note_at(best, parameter_first_token(parameter), Why::Unexpected);
            Ok(None)
        }
        Some(span) => {
            let name = Bytes::from_slice(alloc, token_bytes(scope.text(), span))?;
            let kind = parameter_kind(parameter);
            let mut own = None;
            scope.want_free(&mut own, span);
            Ok(unless_told(best, own, Some(TypedParameter { name, kind })))
        }
    }
}

/// A parameter of a function, which is then declared.
fn parameter_of(
    alloc: Global,
    scope: &mut Scope,
    best: &mut Option<TypingFault>,
    main: bool,
    parameter: &Parameter,
) -> Result<Option<TypedParameter>, AllocError>
    ensures typed { IfOk result (λ found. Gives best.old best.new found (parameter_typing scope.old main (parameter_view parameter.now))) }
    ensures scope { OnOk result (scope.new ≡ after_parameter scope.old main (parameter_view parameter.now)) }
{
    let mut own = None;
    check_parameter(&mut own, scope, main, parameter);
    let named = named_of(alloc, scope, best, parameter);
    declare(
        scope,
        parameter_name(parameter),
        parameter_entity(main, parameter),
    )?;
    Ok(unless_told(best, own, named?))
}

/// Parameters, each visible in those behind it.
fn listed_of(
    alloc: Global,
    scope: &mut Scope,
    best: &mut Option<TypingFault>,
    main: bool,
    list: &CommaList<Parameter>,
) -> Result<Option<Vec<TypedParameter>>, AllocError>
    ensures typed { Walked (λ all. all.items) best.old best.new result (parameters_typing scope.old main (listed (comma_list_view parameter_view list.now))) }
    ensures scope { OnOk result (scope.new ≡ after_parameters scope.old main (listed (comma_list_view parameter_view list.now))) }
{
    let mut parameters = Vec::new(alloc);
    let mut faulty = false;
    let first = parameter_of(alloc, scope, best, main, &list.first)?;
    keep(&mut parameters, &mut faulty, first)?;
    for behind in &list.more {
        let one = parameter_of(alloc, scope, best, main, &behind.item)?;
        keep(&mut parameters, &mut faulty, one)?;
    }
    Ok(all(parameters, faulty))
}

/// The parameters of a function.
pub fn parameters_of(
    alloc: Global,
    scope: &mut Scope,
    best: &mut Option<TypingFault>,
    main: bool,
    parameters: &Parameters,
) -> Result<Option<Vec<TypedParameter>>, AllocError>
    ensures typed { Walked (λ all. all.items) best.old best.new result (parameters_typing scope.old main (parameters_listed (parameters_view parameters.now))) }
    ensures scope { OnOk result (scope.new ≡ after_parameters scope.old main (parameters_listed (parameters_view parameters.now))) }
{
    match parameters {
        Parameters::Nothing => Ok(Some(Vec::new(alloc))),
        Parameters::Void(_) => Ok(Some(Vec::new(alloc))),
        Parameters::Listed(list) => listed_of(alloc, scope, best, main, list),
    }
}
