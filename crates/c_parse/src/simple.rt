//! The readers of simple statements: assignments, `++`, `--` and calls.
ghost use Rattle.std.specs.Prelude.{◌<◌, ◌-◌, true};
ghost use Rattle.c_grammar.specs.View.{place_view};
ghost use Rattle.c_grammar.specs.StmtView.{simple_view, stmt_view};
ghost use Rattle.c_grammar.specs.Reading.{expr_at};
ghost use Rattle.c_grammar.specs.StmtReading.{read_change, read_empty, read_plain, read_simple, simple_tail};
ghost use Rattle.c_parse.specs.inside.Gives.{AgreesWithReading};

use crate::call::{call, calls, right};
use crate::expression::place;
use crate::read::{ParseError, ended, expected, heads, one_of, read};
use crate::symbols::Class;
use c_grammar::statement::{Simple, Stmt};
use c_grammar::terminal::{Symbol, Terminal};
use c_grammar::tree::Place;
use std::alloc::Global;

/// A statement that needs a `;`, without it.
#[tactic(auto, unfolding(c_grammar::specs::StmtReading::read_simple))]
pub fn simple(
    alloc: Global,
    left: u8,
    terminals: &[Terminal],
) -> Result<(Simple, &[Terminal]), ParseError>
    requires { 0 < left }
    ensures { AgreesWithReading (λ x. (simple_view x.0, x.1.now)) result (read_simple (expr_at left true) (expr_at (left - 1) true) terminals.now) }
{
    if calls(terminals) {
        let (call, rest) = read!(call(alloc, left, terminals));
        Ok((Simple::Call(call), rest))
    } else {
        change(alloc, left, terminals)
    }
}

/// An assignment, or `++` or `--` before or after a place.
#[tactic(auto, unfolding(c_grammar::specs::StmtReading::read_change))]
fn change(
    alloc: Global,
    left: u8,
    terminals: &[Terminal],
) -> Result<(Simple, &[Terminal]), ParseError>
    requires { 0 < left }
    ensures { AgreesWithReading (λ x. (simple_view x.0, x.1.now)) result (read_change (expr_at left true) (expr_at (left - 1) true) terminals.now) }
{
    if heads(terminals, Class::Step) {
        let (operator, rest) = read!(one_of(terminals, Class::Step));
        let (place, rest) = read!(place(alloc, left, rest));
        let before = Simple::Before {
            operator: operator.symbol,
            at: operator.span,
            place,
        };
        Ok((before, rest))
    } else {
        let (place, rest) = read!(place(alloc, left, terminals));
        changed(alloc, left, place, rest)
    }
}

/// What is done to a place.
fn changed(
    alloc: Global,
    left: u8,
    place: Place,
    terminals: &[Terminal],
) -> Result<(Simple, &[Terminal]), ParseError>
    requires { 0 < left }
    ensures { AgreesWithReading (λ x. (simple_view x.0, x.1.now)) result
        (simple_tail (expr_at left true) (expr_at (left - 1) true) (place_view place) terminals.now) }
{
    if heads(terminals, Class::Step) {
        let (operator, rest) = read!(one_of(terminals, Class::Step));
        let after = Simple::After {
            place,
            operator: operator.symbol,
            at: operator.span,
        };
        Ok((after, rest))
    } else {
        let (operator, rest) = read!(one_of(terminals, Class::Assign));
        let (right, rest) = read!(right(alloc, left, rest));
        let assign = Simple::Assign {
            place,
            operator: operator.symbol,
            at: operator.span,
            right,
        };
        Ok((assign, rest))
    }
}

/// A simple statement and its `;`.
#[tactic(auto, using(c_grammar::proofs::StmtViewed::stmt_views))]
pub fn plain(
    alloc: Global,
    left: u8,
    terminals: &[Terminal],
) -> Result<(Stmt, &[Terminal]), ParseError>
    requires { 0 < left }
    ensures { AgreesWithReading (λ x. (stmt_view x.0, x.1.now)) result (read_plain (expr_at left true) (expr_at (left - 1) true) terminals.now) }
{
    let ((simple, end), rest) = read!(ended(simple(alloc, left, terminals), Symbol::Semicolon));
    Ok((Stmt::Simple { simple, end }, rest))
}

/// A statement that is a `;` alone.
#[tactic(auto, using(c_grammar::proofs::StmtViewed::stmt_views))]
pub fn empty(terminals: &[Terminal]) -> Result<(Stmt, &[Terminal]), ParseError>
    ensures { AgreesWithReading (λ x. (stmt_view x.0, x.1.now)) result (read_empty terminals.now) }
{
    let (at, rest) = read!(expected(terminals, Symbol::Semicolon));
    Ok((Stmt::Empty(at), rest))
}
