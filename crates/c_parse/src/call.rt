//! The readers of calls and right sides.
ghost use Rattle.std.specs.Prelude.{◌≡◌, ◌<◌, ◌-◌, true, option_map};
ghost use Rattle.c_grammar.specs.Tree as t;
ghost use Rattle.c_grammar.specs.StmtView.{argument_view, call_view, comma_list_view, right_view};
ghost use Rattle.c_grammar.specs.Symbols.{isnt};
ghost use Rattle.c_grammar.specs.declared.terminal.Symbol.TheVariants as w;
ghost use Rattle.c_grammar.specs.Reading.{expr_at, maybe};
ghost use Rattle.c_grammar.specs.StmtReading.{read_argument, read_call, calls, read_comma_list, read_right};
ghost use Rattle.c_parse.specs.inside.Gives.{AgreesWithReading};

use crate::comma_list::{InCommaList, comma_list};
use crate::expression::{expr, place};
use crate::read::{ParseError, ended, expected, first_of, heads, read};
use crate::symbols::{Class, is_in};
use c_grammar::statement::{Argument, CommaList, Right, WrittenCall};
use c_grammar::terminal::{Symbol, Terminal};
use std::alloc::Global;

impl InCommaList for Argument {
    ghost use Rattle.c_grammar.proofs.Shorter.{argument_shorter};

    ghost Tree = { t.Argument };

    ghost view = { argument_view };

    ghost reading = { λ left. read_argument (expr_at left true) (expr_at (left - 1) true) };

    ghost shorter = { argument_shorter };

    #[tactic(auto, unfolding(c_grammar::specs::StmtReading::read_argument))]
    fn read<'a>(
        alloc: Global,
        left: u8,
        terminals: &'a [Terminal],
    ) -> Result<(Self, &'a [Terminal]), ParseError<'a>> {
        match first_of(terminals) {
            Some(Symbol::Text) => {
                let (text, rest) = read!(expected(terminals, Symbol::Text));
                Ok((Argument::Text(text), rest))
            }
            Some(Symbol::And) => {
                let (mark, rest) = read!(expected(terminals, Symbol::And));
                let (place, rest) = read!(place(alloc, left, rest));
                Ok((Argument::Address { mark, place }, rest))
            }
            _ => {
                let (value, rest) = read!(expr(alloc, left, true, terminals));
                Ok((Argument::Value(value), rest))
            }
        }
    }
}

/// Whether a name and `(` come first.
pub fn calls(terminals: &[Terminal]) -> bool
    ensures { result ≡ calls terminals.now }
{
    match terminals {
        [first, rest @ ..] => {
            is_in(Class::Is(Symbol::Name), first.symbol)
                && heads(rest, Class::Is(Symbol::OpenParen))
        }
        [] => false,
    }
}

#[tactic(auto, unfolding(c_grammar::specs::StmtReading::read_call))]
pub fn call(
    alloc: Global,
    left: u8,
    terminals: &[Terminal],
) -> Result<(WrittenCall, &[Terminal]), ParseError>
    requires { 0 < left }
    ensures { AgreesWithReading (λ x. (call_view x.0, x.1.now)) result (read_call (expr_at left true) (expr_at (left - 1) true) terminals.now) }
{
    let ((name, opening), rest) = read!(ended(
        expected(terminals, Symbol::Name),
        Symbol::OpenParen
    ));
    let ((arguments, closing), rest) = read!(ended(
        arguments(alloc, left, rest),
        Symbol::CloseParen
    ));
    let call = WrittenCall {
        name,
        opening,
        arguments,
        closing,
    };
    Ok((call, rest))
}

fn arguments(
    alloc: Global,
    left: u8,
    terminals: &[Terminal],
) -> Result<(Option<CommaList<Argument>>, &[Terminal]), ParseError>
    requires { 0 < left }
    ensures { AgreesWithReading (λ x. (option_map (comma_list_view argument_view) x.0, x.1.now)) result
        (maybe (isnt w.CloseParen) (read_comma_list (read_argument (expr_at left true) (expr_at (left - 1) true))) terminals.now) }
{
    if heads(terminals, Class::Isnt(Symbol::CloseParen)) {
        let (list, rest) = read!(comma_list(alloc, left, terminals));
        Ok((Some(list), rest))
    } else {
        Ok((None, terminals))
    }
}

/// A right side.
#[tactic(auto, unfolding(c_grammar::specs::StmtReading::read_right))]
pub fn right(
    alloc: Global,
    left: u8,
    terminals: &[Terminal],
) -> Result<(Right, &[Terminal]), ParseError>
    requires { 0 < left }
    ensures { AgreesWithReading (λ x. (right_view x.0, x.1.now)) result (read_right (expr_at left true) (expr_at (left - 1) true) terminals.now) }
{
    if calls(terminals) {
        let (call, rest) = read!(call(alloc, left, terminals));
        Ok((Right::Call(call), rest))
    } else {
        let (value, rest) = read!(expr(alloc, left, true, terminals));
        Ok((Right::Value(value), rest))
    }
}
