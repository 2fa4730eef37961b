//! The readers of expressions and places.
ghost use Rattle.std.specs.Prelude.{◌≡◌, ◌==◌, ◌<◌, ◌-◌, true, map, IfOk};
ghost use Rattle.c_grammar.specs.Tree as t;
ghost use Rattle.c_grammar.specs.declared.limits.TheConstants.{CONDITIONAL_LEVEL};
ghost use Rattle.c_grammar.specs.View.{piece, place_view, view};
ghost use Rattle.c_grammar.specs.Symbols.{level_of, starts_expr};
ghost use Rattle.c_grammar.specs.Reading.{read_binary, read_branches, chain_or_operand, read_choice, expr_at, field_tail, read_link, many, read_number, read_paren, read_place, read_signed, too_deep, read_unary};
ghost use Rattle.c_parse.specs.inside.Gives.{FailsToRead, AgreesWithReading};

use crate::comma_list::InCommaList;
use crate::read::{
    ParseError, both, boxed, ended, expected, first_of, heads, one_of, push, read, taken,
};
use crate::symbols::{Class, starts_expr};
use c_grammar::limits::CONDITIONAL_LEVEL;
use c_grammar::terminal::{Symbol, Terminal};
use c_grammar::tree::{Expr, Link, Place};
use c_lex::Why;
use std::alloc::{AllocError, Global};

/// An expression, or an operand with its signs, with `left` depths left.
#[cycle(expression)]
#[tactic(auto, unfolding(c_grammar::specs::Reading::expr_at), using(crate::proofs::ExprLeft::expr_more))]
pub fn expr(
    alloc: Global,
    left: u8,
    full: bool,
    terminals: &[Terminal],
) -> Result<(Expr, &[Terminal]), ParseError>
    ensures { AgreesWithReading (λ x. (view x.0, x.1.now)) result (expr_at left full terminals.now) }
{
    if left == 0 {
        return Err(deep_fault(terminals));
    }
    if full {
        choice(alloc, left, terminals)
    } else {
        unary(alloc, left, terminals)
    }
}

#[cycle(expression)]
#[tactic(auto, unfolding(c_grammar::specs::Reading::read_choice), using(c_grammar::proofs::Viewed::views))]
fn choice(
    alloc: Global,
    left: u8,
    terminals: &[Terminal],
) -> Result<(Expr, &[Terminal]), ParseError>
    requires { 0 < left }
    ensures { AgreesWithReading (λ x. (view x.0, x.1.now)) result (read_choice (expr_at (left - 1)) terminals.now) }
{
    let (test, rest) = read!(bin(alloc, left, CONDITIONAL_LEVEL - 1, terminals));
    if heads(rest, Class::Is(Symbol::Question)) {
        branches(alloc, left, test, rest)
    } else {
        Ok((test, rest))
    }
}

/// The two branches after a test.
#[cycle(expression)]
#[tactic(auto, using(c_grammar::proofs::Viewed::views))]
fn branches(
    alloc: Global,
    left: u8,
    test: Expr,
    terminals: &[Terminal],
) -> Result<(Expr, &[Terminal]), ParseError>
    requires { 0 < left }
    ensures { AgreesWithReading (λ x. (view x.0, x.1.now)) result (read_branches (expr_at (left - 1)) (view test) terminals.now) }
{
    let Ok(test) = boxed(alloc, test) else {
        return Err(ParseError::Memory);
    };
    let (question, rest) = read!(expected(terminals, Symbol::Question));
    let ((then, colon), rest) = read!(ended(deeper(alloc, left, true, rest), Symbol::Colon));
    let (other, rest) = read!(deeper(alloc, left, true, rest));
    let choice = Expr::Choice {
        test,
        question,
        then,
        colon,
        other,
    };
    Ok((choice, rest))
}

/// An expression, or an operand with its signs, one depth deeper.
#[cycle(expression)]
fn deeper(
    alloc: Global,
    left: u8,
    full: bool,
    terminals: &[Terminal],
) -> Result<(Box<Expr>, &[Terminal]), ParseError>
    requires { 0 < left }
    ensures { AgreesWithReading (λ x. (view x.0.value, x.1.now)) result (expr_at (left - 1) full terminals.now) }
{
    let (tree, rest) = read!(expr(alloc, left - 1, full, terminals));
    let Ok(tree) = boxed(alloc, tree) else {
        return Err(ParseError::Memory);
    };
    Ok((tree, rest))
}

/// Operators up to a level and their operands.
#[cycle(expression)]
#[tactic(auto, unfolding(c_grammar::specs::Reading::read_binary), using(crate::proofs::ExprLeft::bin_more))]
fn bin(
    alloc: Global,
    left: u8,
    most: u8,
    terminals: &[Terminal],
) -> Result<(Expr, &[Terminal]), ParseError>
    requires left { 0 < left }
    requires most { most < CONDITIONAL_LEVEL }
    ensures { AgreesWithReading (λ x. (view x.0, x.1.now)) result (read_binary (read_unary (expr_at (left - 1))) most terminals.now) }
{
    if most == 0 {
        return unary(alloc, left, terminals);
    }
    let (first, rest) = read!(bin(alloc, left, most - 1, terminals));
    let ((first, links), rest) = read!(both(first, links(alloc, left, most, rest)));
    match chain(alloc, most, first, links) {
        Ok(chain) => Ok((chain, rest)),
        Err(AllocError) => Err(ParseError::Memory),
    }
}

/// The operators of a level and the operands after them.
#[cycle(expression)]
fn links(
    alloc: Global,
    left: u8,
    most: u8,
    terminals: &[Terminal],
) -> Result<(Vec<Link>, &[Terminal]), ParseError>
    requires left { 0 < left }
    requires zero { 0 < most }
    requires most { most < CONDITIONAL_LEVEL }
    ensures { AgreesWithReading (λ x. (map piece x.0.items, x.1.now)) result
        (many (λ x. level_of x == most) (read_link (read_binary (read_unary (expr_at (left - 1))) (most - 1)) most) terminals.now) }
{
    let mut found = Vec::new(alloc);
    let mut rest = terminals;
    while heads(rest, Class::Level(most)) {
        let (link, after) = read!(link(alloc, left, most, rest));
        push(&mut found, link)?;
        rest = after;
    }
    Ok((found, rest))
}

#[cycle(expression)]
fn link(
    alloc: Global,
    left: u8,
    most: u8,
    terminals: &[Terminal],
) -> Result<(Link, &[Terminal]), ParseError>
    requires left { 0 < left }
    requires zero { 0 < most }
    requires most { most < CONDITIONAL_LEVEL }
    ensures { AgreesWithReading (λ x. (piece x.0, x.1.now)) result (read_link (read_binary (read_unary (expr_at (left - 1))) (most - 1)) most terminals.now) }
{
    let (operator, rest) = read!(one_of(terminals, Class::Level(most)));
    let (operand, rest) = read!(bin(alloc, left, most - 1, rest));
    let link = Link {
        operator: operator.symbol,
        at: operator.span,
        operand,
    };
    Ok((link, rest))
}

#[cycle(expression)]
#[tactic(auto, unfolding(c_grammar::specs::Reading::read_unary), using(c_grammar::proofs::Viewed::views))]
fn unary(alloc: Global, left: u8, terminals: &[Terminal]) -> Result<(Expr, &[Terminal]), ParseError>
    requires { 0 < left }
    ensures { AgreesWithReading (λ x. (view x.0, x.1.now)) result (read_unary (expr_at (left - 1)) terminals.now) }
{
    match first_of(terminals) {
        Some(Symbol::Number) => number(terminals),
        Some(Symbol::Name) => {
            let (place, rest) = read!(place(alloc, left, terminals));
            field(place, rest)
        }
        Some(Symbol::OpenParen) => paren(alloc, left, terminals),
        _ => signed(alloc, left, terminals),
    }
}

#[cycle(expression)]
#[tactic(auto, using(c_grammar::proofs::Viewed::views))]
fn paren(alloc: Global, left: u8, terminals: &[Terminal]) -> Result<(Expr, &[Terminal]), ParseError>
    requires { 0 < left }
    ensures { AgreesWithReading (λ x. (view x.0, x.1.now)) result (read_paren (expr_at (left - 1)) terminals.now) }
{
    let (opening, rest) = read!(expected(terminals, Symbol::OpenParen));
    let ((inner, closing), rest) = read!(ended(
        deeper(alloc, left, true, rest),
        Symbol::CloseParen
    ));
    let paren = Expr::Paren {
        opening,
        inner,
        closing,
    };
    Ok((paren, rest))
}

#[cycle(expression)]
#[tactic(auto, using(c_grammar::proofs::Viewed::views))]
fn signed(
    alloc: Global,
    left: u8,
    terminals: &[Terminal],
) -> Result<(Expr, &[Terminal]), ParseError>
    requires { 0 < left }
    ensures { AgreesWithReading (λ x. (view x.0, x.1.now)) result (read_signed (expr_at (left - 1)) terminals.now) }
{
    let (sign, rest) = read!(one_of(terminals, Class::Sign));
    let (operand, rest) = read!(deeper(alloc, left, false, rest));
    let unary = Expr::Unary {
        sign: sign.symbol,
        at: sign.span,
        operand,
    };
    Ok((unary, rest))
}

/// A name, with an index in brackets or not.
#[cycle(expression)]
#[tactic(auto, unfolding(c_grammar::specs::Reading::read_place), using(c_grammar::proofs::Viewed::views))]
pub fn place(
    alloc: Global,
    left: u8,
    terminals: &[Terminal],
) -> Result<(Place, &[Terminal]), ParseError>
    requires { 0 < left }
    ensures { AgreesWithReading (λ x. (place_view x.0, x.1.now)) result (read_place (expr_at (left - 1) true) terminals.now) }
{
    let (name, rest) = read!(expected(terminals, Symbol::Name));
    if let Some((opening, rest)) = taken(rest, Symbol::OpenBracket) {
        let ((index, closing), rest) = read!(ended(
            deeper(alloc, left, true, rest),
            Symbol::CloseBracket
        ));
        let cell = Place::Cell {
            name,
            opening,
            index,
            closing,
        };
        Ok((cell, rest))
    } else {
        Ok((Place::Whole(name), rest))
    }
}

#[tactic(auto, using(c_grammar::proofs::Viewed::views))]
fn number(terminals: &[Terminal]) -> Result<(Expr, &[Terminal]), ParseError>
    ensures { AgreesWithReading (λ x. (view x.0, x.1.now)) result (read_number terminals.now) }
{
    let (at, rest) = read!(expected(terminals, Symbol::Number));
    Ok((Expr::Number(at), rest))
}

/// What is after a place that is read.
#[tactic(auto, using(c_grammar::proofs::Viewed::views))]
fn field(place: Place, terminals: &[Terminal]) -> Result<(Expr, &[Terminal]), ParseError>
    ensures { AgreesWithReading (λ x. (view x.0, x.1.now)) result (field_tail (place_view place) terminals.now) }
{
    if let Some((dot, rest)) = taken(terminals, Symbol::Dot) {
        let (name, rest) = read!(expected(rest, Symbol::Name));
        Ok((Expr::Field { place, dot, name }, rest))
    } else {
        Ok((Expr::Read(place), terminals))
    }
}

/// What is too deep.
#[tactic(auto, unfolding(c_grammar::specs::Reading::too_deep))]
fn deep_fault(terminals: &[Terminal]) -> ParseError
    ensures { FailsToRead result (too_deep {A = t.Expr} starts_expr terminals.now) }
{
    match first_of(terminals) {
        Some(symbol) => {
            if starts_expr(symbol) {
                ParseError::At(Why::TooDeep, terminals)
            } else {
                ParseError::At(Why::Unexpected, terminals)
            }
        }
        None => ParseError::At(Why::Unexpected, terminals),
    }
}

/// The operands of one level, if there are several.
fn chain(alloc: Global, level: u8, first: Expr, links: Vec<Link>) -> Result<Expr, AllocError>
    ensures { IfOk result (λ e. view e ≡ chain_or_operand level (view first) (map piece links.items)) }
{
    if links.is_empty() {
        return Ok(first);
    }
    let Ok(first) = boxed(alloc, first) else {
        return Err(AllocError);
    };
    Ok(Expr::Chain {
        level,
        first,
        links,
    })
}

impl InCommaList for Expr {
    ghost use Rattle.c_grammar.proofs.Shorter.{expr_shorter};

    ghost Tree = { t.Expr };

    ghost view = { view };

    ghost reading = { λ left. expr_at left true };

    ghost shorter = { expr_shorter };

    fn read<'a>(
        alloc: Global,
        left: u8,
        terminals: &'a [Terminal],
    ) -> Result<(Self, &'a [Terminal]), ParseError<'a>> {
        expr(alloc, left, true, terminals)
    }
}
