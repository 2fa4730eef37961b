//! The readers of what is before or after the inner statement of a statement.
ghost use Rattle.std.specs.Prelude.{◌<◌, ◌-◌, true, option_map};
ghost use Rattle.c_grammar.specs.View.{view};
ghost use Rattle.c_grammar.specs.StmtView.{simple_view, start_view};
ghost use Rattle.c_grammar.specs.Symbols.{isnt};
ghost use Rattle.c_grammar.specs.declared.terminal.Symbol.TheVariants as w;
ghost use Rattle.c_grammar.specs.Reading.{expr_at, maybe};
ghost use Rattle.c_grammar.specs.StmtReading.{read_simple, read_for_start};
ghost use Rattle.c_parse.specs.inside.Gives.{AgreesWithReading};
ghost use Rattle.c_parse.specs.inside.StatementHeads.{ended_of, for_head_of, for_head_view, test_head_of, test_head_view};

use crate::declaration::declaration;
use crate::expression::expr;
use crate::read::{ParseError, both, ended, expected, heads, read};
use crate::simple::simple;
use crate::symbols::Class;
use c_grammar::statement::{ForStart, Simple};
use c_grammar::terminal::{Span, Symbol, Terminal};
use c_grammar::tree::Expr;
use std::alloc::Global;

/// A keyword and the test in parentheses after it.
#[derive(Drop)]
pub struct TestHead {
    pub keyword: Span,
    pub opening: Span,
    pub test: Expr,
    pub closing: Span,
}

/// What is before the statement of a `for`: each piece with the place of the terminal after it.
#[derive(Drop)]
pub struct ForHead {
    pub keyword: Span,
    pub opening: Span,
    pub start: (ForStart, Span),
    pub test: (Option<Expr>, Span),
    pub step: (Option<Simple>, Span),
}

/// A keyword and the test in parentheses after it.
#[tactic(auto, unfolding(crate::specs::inside::StatementHeads::test_head_of))]
pub fn test_head(
    alloc: Global,
    left: u8,
    symbol: Symbol,
    terminals: &[Terminal],
) -> Result<(TestHead, &[Terminal]), ParseError>
    ensures { AgreesWithReading (λ x. (test_head_view x.0, x.1.now)) result (test_head_of (expr_at left true) symbol terminals.now) }
{
    let ((keyword, opening), rest) = read!(ended(expected(terminals, symbol), Symbol::OpenParen));
    let ((test, closing), rest) = read!(ended(expr(alloc, left, true, rest), Symbol::CloseParen));
    let head = TestHead {
        keyword,
        opening,
        test,
        closing,
    };
    Ok((head, rest))
}

/// What is after the statement of a `do`.
#[tactic(auto, unfolding(crate::specs::inside::StatementHeads::ended_of))]
pub fn until(
    alloc: Global,
    left: u8,
    terminals: &[Terminal],
) -> Result<((TestHead, Span), &[Terminal]), ParseError>
    ensures { AgreesWithReading (λ x. ((test_head_view x.0.0, x.0.1), x.1.now)) result
        (ended_of (test_head_of (expr_at left true) w.While) w.Semicolon terminals.now) }
{
    ended(
        test_head(alloc, left, Symbol::While, terminals),
        Symbol::Semicolon,
    )
}

/// What is before the statement of a `for`.
#[tactic(auto, unfolding(crate::specs::inside::StatementHeads::for_head_of, crate::specs::inside::StatementHeads::ended_of))]
pub fn for_head(
    alloc: Global,
    left: u8,
    terminals: &[Terminal],
) -> Result<(ForHead, &[Terminal]), ParseError>
    requires { 0 < left }
    ensures { AgreesWithReading (λ x. (for_head_view x.0, x.1.now)) result (for_head_of (expr_at left true) (expr_at (left - 1) true) terminals.now) }
{
    let ((keyword, opening), rest) = read!(ended(
        expected(terminals, Symbol::For),
        Symbol::OpenParen
    ));
    let (start, rest) = read!(ended(for_start(alloc, left, rest), Symbol::Semicolon));
    let test = ended(for_test(alloc, left, rest), Symbol::Semicolon);
    let ((start, test), rest) = read!(both(start, test));
    let step = ended(for_step(alloc, left, rest), Symbol::CloseParen);
    let (((start, test), step), rest) = read!(both((start, test), step));
    let head = ForHead {
        keyword,
        opening,
        start,
        test,
        step,
    };
    Ok((head, rest))
}

/// How a `for` begins.
#[tactic(auto, unfolding(c_grammar::specs::StmtReading::read_for_start))]
fn for_start(
    alloc: Global,
    left: u8,
    terminals: &[Terminal],
) -> Result<(ForStart, &[Terminal]), ParseError>
    requires { 0 < left }
    ensures { AgreesWithReading (λ x. (start_view x.0, x.1.now)) result (read_for_start (expr_at left true) (expr_at (left - 1) true) terminals.now) }
{
    if heads(terminals, Class::Is(Symbol::Semicolon)) {
        Ok((ForStart::Nothing, terminals))
    } else if heads(terminals, Class::Kind) {
        let (declaration, rest) = read!(declaration(alloc, left, terminals));
        Ok((ForStart::Declaration(declaration), rest))
    } else {
        let (simple, rest) = read!(simple(alloc, left, terminals));
        Ok((ForStart::Simple(simple), rest))
    }
}

/// The test of a `for`, if any.
fn for_test(
    alloc: Global,
    left: u8,
    terminals: &[Terminal],
) -> Result<(Option<Expr>, &[Terminal]), ParseError>
    requires { 0 < left }
    ensures { AgreesWithReading (λ x. (option_map view x.0, x.1.now)) result (maybe (isnt w.Semicolon) (expr_at left true) terminals.now) }
{
    if heads(terminals, Class::Isnt(Symbol::Semicolon)) {
        let (test, rest) = read!(expr(alloc, left, true, terminals));
        Ok((Some(test), rest))
    } else {
        Ok((None, terminals))
    }
}

/// The step of a `for`, if any.
fn for_step(
    alloc: Global,
    left: u8,
    terminals: &[Terminal],
) -> Result<(Option<Simple>, &[Terminal]), ParseError>
    requires { 0 < left }
    ensures { AgreesWithReading (λ x. (option_map simple_view x.0, x.1.now)) result
        (maybe (isnt w.CloseParen) (read_simple (expr_at left true) (expr_at (left - 1) true)) terminals.now) }
{
    if heads(terminals, Class::Isnt(Symbol::CloseParen)) {
        let (step, rest) = read!(simple(alloc, left, terminals));
        Ok((Some(step), rest))
    } else {
        Ok((None, terminals))
    }
}
