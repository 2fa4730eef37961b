//! The readers of defines, functions and whole programs.
ghost use Rattle.std.specs.Prelude.{◌≡◌, [], true, map};
ghost use Rattle.c_grammar.specs.StmtView.{head_view, parameter_view, parameters_view, external_view, tree_view, value_view};
ghost use Rattle.c_grammar.specs.StmtGrammar.{are_named, has, all_named, name_of_parameter};
ghost use Rattle.c_grammar.specs.Symbols.{is};
ghost use Rattle.c_grammar.specs.declared.limits.TheConstants.{MOST_DEPTHS};
ghost use Rattle.c_grammar.specs.declared.terminal.Symbol.TheVariants as w;
ghost use Rattle.c_grammar.specs.Reading.{expect, many, read_times};
ghost use Rattle.c_grammar.specs.StmtReading.{read_body, read_define, head_tail, part_at, read_whole_text, read_external, read_value};
ghost use Rattle.c_parse.specs.inside.Gives.{AgreesWithReading};

use crate::function_head::head;
use crate::read::{ParseError, both, ended, expected, heads, optional, push, read};
use crate::statement::block;
use crate::symbols::Class;
use c_grammar::limits::MOST_DEPTHS;
use c_grammar::statement::{
    AfterComma, ExternalDeclaration, Head, Parameter, Parameters, Tree, Value,
};
use c_grammar::terminal::{Span, Symbol, Terminal};
use c_lex::Why;
use std::alloc::Global;

/// A program and no more.
#[tactic(auto, unfolding(c_grammar::specs::StmtReading::read_whole_text))]
pub fn program(alloc: Global, terminals: &[Terminal]) -> Result<Tree, ParseError>
    ensures { AgreesWithReading (λ tree. (tree_view tree, [])) result (read_whole_text terminals.now) }
{
    let mut externals = Vec::new(alloc);
    let mut rest = terminals;
    while !rest.is_empty() {
        let (one, after) = read!(external(alloc, rest));
        push(&mut externals, one)?;
        rest = after;
    }
    Ok(Tree { externals })
}

/// A define, a function or a prototype.
#[tactic(auto, unfolding(c_grammar::specs::StmtReading::external_with))]
fn external(
    alloc: Global,
    terminals: &[Terminal],
) -> Result<(ExternalDeclaration, &[Terminal]), ParseError>
    ensures { AgreesWithReading (λ x. (external_view x.0, x.1.now)) result (read_external terminals.now) }
{
    if heads(terminals, Class::Is(Symbol::Define)) {
        define(alloc, terminals)
    } else {
        let (head, rest) = read!(head(alloc, MOST_DEPTHS, terminals));
        function(alloc, head, rest)
    }
}

fn define(
    alloc: Global,
    terminals: &[Terminal],
) -> Result<(ExternalDeclaration, &[Terminal]), ParseError>
    ensures { AgreesWithReading (λ x. (external_view x.0, x.1.now)) result (read_define terminals.now) }
{
    let ((directive, name), rest) = read!(ended(expected(terminals, Symbol::Define), Symbol::Name));
    let ((value, end), rest) = read!(ended(value(alloc, rest), Symbol::EndLine));
    let define = ExternalDeclaration::Define {
        directive,
        name,
        value,
        end,
    };
    Ok((define, rest))
}

/// The value of a define.
#[tactic(auto, unfolding(c_grammar::specs::StmtReading::read_value))]
fn value(alloc: Global, terminals: &[Terminal]) -> Result<(Value, &[Terminal]), ParseError>
    ensures { AgreesWithReading (λ x. (value_view x.0, x.1.now)) result (read_value terminals.now) }
{
    let (opens, rest) = read!(opens(alloc, terminals));
    let (minus, rest) = optional(rest, Symbol::Minus);
    let (number, rest) = read!(expected(rest, Symbol::Number));
    let (closes, rest) = read!(closes(alloc, opens.len(), rest));
    let value = Value {
        opens,
        minus,
        number,
        closes,
    };
    Ok((value, rest))
}

fn opens(alloc: Global, terminals: &[Terminal]) -> Result<(Vec<Span>, &[Terminal]), ParseError>
    ensures { AgreesWithReading (λ x. (x.0.items, x.1.now)) result (many (is w.OpenParen) (expect w.OpenParen) terminals.now) }
{
    let mut found = Vec::new(alloc);
    let mut rest = terminals;
    while heads(rest, Class::Is(Symbol::OpenParen)) {
        let (one, after) = read!(expected(rest, Symbol::OpenParen));
        push(&mut found, one)?;
        rest = after;
    }
    Ok((found, rest))
}

/// As many `)` as were opened.
fn closes(
    alloc: Global,
    count: usize,
    terminals: &[Terminal],
) -> Result<(Vec<Span>, &[Terminal]), ParseError>
    ensures { AgreesWithReading (λ x. (x.0.items, x.1.now)) result (read_times (expect w.CloseParen) count terminals.now) }
{
    let mut found = Vec::new(alloc);
    let mut rest = terminals;
    for _ in 0..count {
        let (one, after) = read!(expected(rest, Symbol::CloseParen));
        push(&mut found, one)?;
        rest = after;
    }
    Ok((found, rest))
}

/// What is after a head: a block or `;`.
fn function(
    alloc: Global,
    head: Head,
    terminals: &[Terminal],
) -> Result<(ExternalDeclaration, &[Terminal]), ParseError>
    ensures { AgreesWithReading (λ x. (external_view x.0, x.1.now)) result (head_tail (part_at MOST_DEPTHS) (head_view head) terminals.now) }
{
    if heads(terminals, Class::Is(Symbol::OpenBrace)) {
        if is_named(&head.parameters) {
            body(alloc, head, terminals)
        } else {
            Err(ParseError::At(Why::Unexpected, terminals))
        }
    } else {
        let ((head, end), rest) = read!(both(head, expected(terminals, Symbol::Semicolon)));
        Ok((ExternalDeclaration::Prototype { head, end }, rest))
    }
}

/// A head and its block.
#[tactic(auto, using(crate::proofs::ByHead::body_by_braces))]
fn body(
    alloc: Global,
    head: Head,
    terminals: &[Terminal],
) -> Result<(ExternalDeclaration, &[Terminal]), ParseError>
    ensures { AgreesWithReading (λ x. (external_view x.0, x.1.now)) result (read_body (part_at MOST_DEPTHS) (head_view head) true terminals.now) }
{
    let ((head, block), rest) = read!(both(head, block(alloc, MOST_DEPTHS, terminals)));
    let function = ExternalDeclaration::Function {
        head,
        opening: block.opening,
        parts: block.parts,
        closing: block.closing,
    };
    Ok((function, rest))
}

/// Whether each parameter has a name.
fn is_named(parameters: &Parameters) -> bool
    ensures { result ≡ all_named (parameters_view parameters.now) }
{
    match parameters {
        Parameters::Listed(list) => has_name(&list.first) && are_named(&list.more),
        _ => true,
    }
}

fn are_named(parameters: &[AfterComma<Parameter>]) -> bool
    ensures { result ≡ are_named (map (λ one. (one.comma, parameter_view one.item)) parameters.now) }
{
    let mut left = parameters;
    while let [one, after @ ..] = left {
        if !has_name(&one.item) {
            return false;
        }
        left = after;
    }
    true
}

fn has_name(parameter: &Parameter) -> bool
    ensures { result ≡ has (name_of_parameter (parameter_view parameter.now)) }
{
    match parameter {
        Parameter::Int { name, .. }
        | Parameter::Array { name, .. }
        | Parameter::Pointer { name, .. }
        | Parameter::Communicator { name, .. }
        | Parameter::TextPointers { name, .. }
        | Parameter::TextArray { name, .. } => name.is_some(),
    }
}
