//! The readers of the heads of functions.
ghost use Rattle.std.specs.Prelude.{◌<◌, ◌-◌, true, option_map};
ghost use Rattle.c_grammar.specs.Tree as t;
ghost use Rattle.c_grammar.specs.View.{view};
ghost use Rattle.c_grammar.specs.StmtView.{head_view, parameter_view, parameters_view};
ghost use Rattle.c_grammar.specs.Symbols.{isnt};
ghost use Rattle.c_grammar.specs.declared.terminal.Symbol.TheVariants as w;
ghost use Rattle.c_grammar.specs.Reading.{expr_at, first_of, maybe};
ghost use Rattle.c_grammar.specs.StmtReading.{array_tail, char_tail, read_head, int_tail, read_parameter, parameters_by};
ghost use Rattle.c_parse.specs.inside.Gives.{AgreesWithReading};

use crate::comma_list::{InCommaList, comma_list};
use crate::expression::expr;
use crate::read::{ParseError, ended, expected, first_of, heads, one_of, optional, read, taken};
use crate::symbols::Class;
use c_grammar::statement::{Head, Parameter, Parameters};
use c_grammar::terminal::{Span, Symbol, Terminal};
use c_grammar::tree::Expr;
use std::alloc::Global;

/// A function's head with `left` depths left; the lengths of its arrays are one deeper.
#[tactic(auto, unfolding(c_grammar::specs::StmtReading::read_head))]
pub fn head(
    alloc: Global,
    left: u8,
    terminals: &[Terminal],
) -> Result<(Head, &[Terminal]), ParseError>
    requires { 0 < left }
    ensures { AgreesWithReading (λ x. (head_view x.0, x.1.now)) result (read_head (expr_at (left - 1) true) terminals.now) }
{
    let (result, rest) = read!(one_of(terminals, Class::Outcome));
    let ((name, opening), rest) = read!(ended(expected(rest, Symbol::Name), Symbol::OpenParen));
    let ((parameters, closing), rest) = read!(ended(
        parameters(alloc, left, rest),
        Symbol::CloseParen
    ));
    let head = Head {
        result: result.symbol,
        at: result.span,
        name,
        opening,
        parameters,
        closing,
    };
    Ok((head, rest))
}

fn parameters(
    alloc: Global,
    left: u8,
    terminals: &[Terminal],
) -> Result<(Parameters, &[Terminal]), ParseError>
    requires { 0 < left }
    ensures { AgreesWithReading (λ x. (parameters_view x.0, x.1.now)) result (parameters_by (expr_at (left - 1) true) terminals.now (first_of terminals.now)) }
{
    match first_of(terminals) {
        Some(Symbol::CloseParen) => Ok((Parameters::Nothing, terminals)),
        Some(Symbol::Void) => {
            let (at, rest) = read!(expected(terminals, Symbol::Void));
            Ok((Parameters::Void(at), rest))
        }
        _ => {
            let (list, rest) = read!(comma_list(alloc, left, terminals));
            Ok((Parameters::Listed(list), rest))
        }
    }
}

impl InCommaList for Parameter {
    ghost use Rattle.c_grammar.proofs.Shorter.{parameter_shorter};

    ghost Tree = { t.Parameter };

    ghost view = { parameter_view };

    ghost reading = { λ left. read_parameter (expr_at (left - 1) true) };

    ghost shorter = { parameter_shorter };

    #[tactic(auto, unfolding(c_grammar::specs::StmtReading::read_parameter))]
    fn read<'a>(
        alloc: Global,
        left: u8,
        terminals: &'a [Terminal],
    ) -> Result<(Self, &'a [Terminal]), ParseError<'a>> {
        match first_of(terminals) {
            Some(Symbol::Int) => {
                let (keyword, rest) = read!(expected(terminals, Symbol::Int));
                int_parameter(alloc, left, keyword, rest)
            }
            Some(Symbol::Communicator) => {
                let (keyword, rest) = read!(expected(terminals, Symbol::Communicator));
                let (name, rest) = optional(rest, Symbol::Name);
                Ok((Parameter::Communicator { keyword, name }, rest))
            }
            _ => {
                let ((keyword, star), rest) = read!(ended(
                    expected(terminals, Symbol::Char),
                    Symbol::Times
                ));
                char_parameter(keyword, star, rest)
            }
        }
    }
}

/// A parameter after its `int`.
fn int_parameter(
    alloc: Global,
    left: u8,
    keyword: Span,
    terminals: &[Terminal],
) -> Result<(Parameter, &[Terminal]), ParseError>
    requires { 0 < left }
    ensures { AgreesWithReading (λ x. (parameter_view x.0, x.1.now)) result (int_tail (expr_at (left - 1) true) keyword terminals.now) }
{
    if let Some((star, rest)) = taken(terminals, Symbol::Times) {
        let (name, rest) = optional(rest, Symbol::Name);
        Ok((
            Parameter::Pointer {
                keyword,
                star,
                name,
            },
            rest,
        ))
    } else {
        let (name, rest) = optional(terminals, Symbol::Name);
        array_parameter(alloc, left, keyword, name, rest)
    }
}

/// A parameter after `int` and its name: an array, or an int.
fn array_parameter(
    alloc: Global,
    left: u8,
    keyword: Span,
    name: Option<Span>,
    terminals: &[Terminal],
) -> Result<(Parameter, &[Terminal]), ParseError>
    requires { 0 < left }
    ensures { AgreesWithReading (λ x. (parameter_view x.0, x.1.now)) result (array_tail (expr_at (left - 1) true) keyword name terminals.now) }
{
    if let Some((opening, rest)) = taken(terminals, Symbol::OpenBracket) {
        let ((length, closing), rest) = read!(ended(
            length(alloc, left, rest),
            Symbol::CloseBracket
        ));
        let array = Parameter::Array {
            keyword,
            name,
            opening,
            length,
            closing,
        };
        Ok((array, rest))
    } else {
        Ok((Parameter::Int { keyword, name }, terminals))
    }
}

/// The length of an array in a head, if any.
fn length(
    alloc: Global,
    left: u8,
    terminals: &[Terminal],
) -> Result<(Option<Expr>, &[Terminal]), ParseError>
    requires { 0 < left }
    ensures { AgreesWithReading (λ x. (option_map view x.0, x.1.now)) result (maybe (isnt w.CloseBracket) (expr_at (left - 1) true) terminals.now) }
{
    if heads(terminals, Class::Isnt(Symbol::CloseBracket)) {
        let (length, rest) = read!(expr(alloc, left - 1, true, terminals));
        Ok((Some(length), rest))
    } else {
        Ok((None, terminals))
    }
}

/// A parameter after `char *`.
fn char_parameter(
    keyword: Span,
    star: Span,
    terminals: &[Terminal],
) -> Result<(Parameter, &[Terminal]), ParseError>
    ensures { AgreesWithReading (λ x. (parameter_view x.0, x.1.now)) result (char_tail keyword star terminals.now) }
{
    if let Some((second, rest)) = taken(terminals, Symbol::Times) {
        let (name, rest) = optional(rest, Symbol::Name);
        let texts = Parameter::TextPointers {
            keyword,
            star,
            second,
            name,
        };
        Ok((texts, rest))
    } else {
        let (name, rest) = optional(terminals, Symbol::Name);
        let ((opening, closing), rest) = read!(ended(
            expected(rest, Symbol::OpenBracket),
            Symbol::CloseBracket
        ));
        let array = Parameter::TextArray {
            keyword,
            star,
            name,
            opening,
            closing,
        };
        Ok((array, rest))
    }
}
