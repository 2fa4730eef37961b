//! What the heads of functions say: which is main, and what their parameters are.
ghost use Rattle.std.specs.Prelude.{◌≡◌, ◌++◌, [], IfOk, OnOk, map};
ghost use Rattle.std.specs.List.{position};
ghost use Rattle.c_grammar.specs.StmtView.{external_view, head_view, parameter_view, parameters_view};
ghost use Rattle.c_scope.specs.Signatures.{is_int_keyword, parameters_listed};
ghost use Rattle.c_types.specs.ProgramTyping.{parameter_first_token};
ghost use Rattle.c_types.specs.Programs.{are_main_parameters, heads_of, is_main, is_one_int, is_text, parameter_entity, parameter_kind, parameter_name, with_head};

use c_grammar::statement::{ExternalDeclaration, Head, Parameter, Parameters};
use c_grammar::terminal::{Span, Symbol};
use c_names::kind::VariableKind;
use c_program::program::ParameterKind;
use c_scope::meaning::Entity;
use c_scope::scope::{is_same, token_bytes};
use std::alloc::{AllocError, Global};

// ---- main

/// The word of an int.
pub fn is_int(symbol: Symbol) -> bool
    ensures { result ≡ is_int_keyword symbol }
{
    match symbol {
        Symbol::Int => true,
        _ => false,
    }
}

fn is_text(parameter: &Parameter) -> bool
    ensures { result ≡ is_text (parameter_view parameter.now) }
{
    match parameter {
        Parameter::TextPointers { .. } | Parameter::TextArray { .. } => true,
        _ => false,
    }
}

fn is_one_int(parameter: &Parameter) -> bool
    ensures { result ≡ is_one_int (parameter_view parameter.now) }
{
    match parameter {
        Parameter::Int { .. } => true,
        _ => false,
    }
}

fn are_main_parameters(parameters: &Parameters) -> bool
    ensures { result ≡ are_main_parameters (parameters_listed (parameters_view parameters.now)) }
{
    match parameters {
        Parameters::Nothing => true,
        Parameters::Void(_) => true,
        Parameters::Listed(list) => match list.more.as_slice() {
            [texts] => is_one_int(&list.first) && is_text(&texts.item),
            _ => false,
        },
    }
}

/// Whether a head is that of main.
pub fn is_main(text: &[u8], head: &Head) -> bool
    ensures { result ≡ is_main text.now (head_view head.now) }
{
    is_int(head.result)
        && is_same(token_bytes(text, head.name), b"main")
        && are_main_parameters(&head.parameters)
}

// ---- heads

/// What a parameter is, in a head that is that of main or in another.
pub fn parameter_entity(main: bool, parameter: &Parameter) -> Entity
    ensures { result ≡ parameter_entity main (parameter_view parameter.now) }
{
    match parameter {
        Parameter::Int { .. } => {
            if main {
                Entity::ArgumentCount
            } else {
                Entity::Variable(VariableKind::Int)
            }
        }
        Parameter::Array { .. } => Entity::ArrayParameter,
        Parameter::Pointer { .. } => Entity::ArrayParameter,
        Parameter::Communicator { .. } => Entity::Variable(VariableKind::Communicator),
        Parameter::TextPointers { .. } => Entity::ArgumentTexts,
        Parameter::TextArray { .. } => Entity::ArgumentTexts,
    }
}

/// The name of a parameter, where it has one.
pub fn parameter_name(parameter: &Parameter) -> Option<Span>
    ensures { result ≡ parameter_name (parameter_view parameter.now) }
{
    match parameter {
        Parameter::Int { name, .. } => *name,
        Parameter::Array { name, .. } => *name,
        Parameter::Pointer { name, .. } => *name,
        Parameter::Communicator { name, .. } => *name,
        Parameter::TextPointers { name, .. } => *name,
        Parameter::TextArray { name, .. } => *name,
    }
}

/// What a parameter holds.
pub fn parameter_kind(parameter: &Parameter) -> ParameterKind
    ensures { result ≡ parameter_kind (parameter_view parameter.now) }
{
    match parameter {
        Parameter::Int { .. } => ParameterKind::Int,
        Parameter::Array { .. } => ParameterKind::Array,
        Parameter::Pointer { .. } => ParameterKind::Array,
        Parameter::Communicator { .. } => ParameterKind::Communicator,
        Parameter::TextPointers { .. } => ParameterKind::Texts,
        Parameter::TextArray { .. } => ParameterKind::Texts,
    }
}

/// A parameter's first token.
pub fn parameter_first_token(parameter: &Parameter) -> Span
    ensures { result ≡ parameter_first_token (parameter_view parameter.now) }
{
    match parameter {
        Parameter::Int { keyword, .. } => *keyword,
        Parameter::Array { keyword, .. } => *keyword,
        Parameter::Pointer { keyword, .. } => *keyword,
        Parameter::Communicator { keyword, .. } => *keyword,
        Parameter::TextPointers { keyword, .. } => *keyword,
        Parameter::TextArray { keyword, .. } => *keyword,
    }
}

// ---- the text

fn push_head<'a>(
    heads: &mut Vec<&'a Head>,
    external: &'a ExternalDeclaration,
) -> Result<(), AllocError>
    ensures { OnOk result (map (λ head. head_view head.now) heads.new.items ≡ map (λ head. head_view head.now) heads.old.items ++ with_head (external_view external.now) []) }
{
    if let ExternalDeclaration::Function { head, .. } = external {
        heads.push(head)?;
    }
    Ok(())
}

/// The heads of the text's functions, in order.
pub fn heads_of(alloc: Global, externals: &[ExternalDeclaration]) -> Result<Vec<&Head>, AllocError>
    ensures { IfOk result (λ heads. map (λ head. head_view head.now) heads.items ≡ heads_of (map external_view externals.now)) }
{
    let mut heads = Vec::new(alloc);
    for external in externals {
        push_head(&mut heads, external)?;
    }
    Ok(heads)
}

/// The number of the first head that is that of main.
pub fn main_number(text: &[u8], heads: &[&Head]) -> Option<usize>
    ensures { result ≡ position (is_main text.now) (map (λ head. head_view head.now) heads.now) }
{
    heads.iter().position(|head| is_main(text, head))
}
