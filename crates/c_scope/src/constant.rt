//! Expressions of numbers, defines and predefined ints.
ghost use Rattle.std.specs.Prelude.{◌≡◌, Option, map};
ghost use Rattle.c_grammar.specs.View.{links_from, piece, place_view, view};
ghost use Rattle.c_scope.specs.Constants.{chosen_constant, chosen_value, constant_meant, constant_of, decided, joined_constants, joined_values, length_faults, length_from, length_of, links_constant, unknown_name_faults, names_in_links, names_in_place, operator_of, or_no_value, over, place_constant, unary_of, unary_constant, constant_faults};
ghost use Rattle.c_scope.specs.Least.{least_fault_from};

use crate::fault::{TypingFault, note_at};
use crate::kind::first_token;
use crate::meaning::{Entity, Meaning};
use crate::scope::{Scope, number_at, want_meaning};
use c_grammar::terminal::{Span, Symbol};
use c_grammar::tree::{Expr, Link, Place};
use c_lex::Why;
use c_names::operator::{Operator, UnaryOperator, apply, apply_unary};
use c_names::predefined::Predefined;

/// The greatest length of an array.
pub const MOST_ELEMENTS: u32 = 262_144;

/// The value of an expression, or why it has none.
#[derive(Clone, Copy)]
pub enum Constant {
    Value(i32),
    /// A divisor is zero.
    NoValue,
    /// Something else than a number, a define or a predefined int stands in it.
    Variable,
    /// A name without a meaning stands in it.
    Nameless,
}

pub fn operator_of(symbol: Symbol) -> Operator
    ensures { result ≡ operator_of symbol }
{
    match symbol {
        Symbol::LogicalOr => Operator::LogicalOr,
        Symbol::LogicalAnd => Operator::LogicalAnd,
        Symbol::Or => Operator::Or,
        Symbol::Xor => Operator::Xor,
        Symbol::And => Operator::And,
        Symbol::Equal => Operator::Equal,
        Symbol::NotEqual => Operator::NotEqual,
        Symbol::Less => Operator::Less,
        Symbol::AtMost => Operator::AtMost,
        Symbol::Greater => Operator::Greater,
        Symbol::AtLeast => Operator::AtLeast,
        Symbol::ShiftLeft => Operator::ShiftLeft,
        Symbol::ShiftRight => Operator::ShiftRight,
        Symbol::Plus => Operator::Plus,
        Symbol::Minus => Operator::Minus,
        Symbol::Times => Operator::Times,
        Symbol::Divide => Operator::Divide,
        _ => Operator::Remainder,
    }
}

pub fn unary_of(symbol: Symbol) -> UnaryOperator
    ensures { result ≡ unary_of symbol }
{
    match symbol {
        Symbol::Minus => UnaryOperator::Minus,
        Symbol::Plus => UnaryOperator::Plus,
        Symbol::Not => UnaryOperator::Not,
        _ => UnaryOperator::Complement,
    }
}

fn constant_meant(meaning: Meaning) -> Constant
    ensures { result ≡ constant_meant meaning }
{
    match meaning {
        Meaning::Known(Predefined::Number(value)) => Constant::Value(value),
        Meaning::Declared(Entity::Define(value)) => Constant::Value(value),
        Meaning::LeftOut | Meaning::Unknown => Constant::Nameless,
        _ => Constant::Variable,
    }
}

fn or_no_value(value: Option<i32>) -> Constant
    ensures { result ≡ or_no_value value }
{
    match value {
        Some(value) => Constant::Value(value),
        None => Constant::NoValue,
    }
}

/// What two parts make of the whole.
fn over(a: Constant, b: Constant, whole: Constant) -> Constant
    ensures { result ≡ over a b whole }
{
    match (a, b) {
        (Constant::Variable, _) => Constant::Variable,
        (_, Constant::Variable) => Constant::Variable,
        (Constant::Nameless, _) => Constant::Nameless,
        (_, Constant::Nameless) => Constant::Nameless,
        _ => whole,
    }
}

/// A left operand whose right one has no value.
fn decided(operator: Operator, left: i32) -> Constant
    ensures { result ≡ decided operator left }
{
    match operator {
        Operator::LogicalOr => {
            if left != 0 {
                Constant::Value(1)
            } else {
                Constant::NoValue
            }
        }
        Operator::LogicalAnd => {
            if left != 0 {
                Constant::NoValue
            } else {
                Constant::Value(0)
            }
        }
        _ => Constant::NoValue,
    }
}

fn joined_values(operator: Operator, a: Constant, b: Constant) -> Constant
    ensures { result ≡ joined_values operator a b }
{
    match (a, b) {
        (Constant::Value(a), Constant::Value(b)) => or_no_value(apply(operator, a, b)),
        (Constant::Value(a), Constant::NoValue) => decided(operator, a),
        _ => Constant::NoValue,
    }
}

fn joined(operator: Operator, a: Constant, b: Constant) -> Constant
    ensures { result ≡ joined_constants operator a b }
{
    over(a, b, joined_values(operator, a, b))
}

fn unary_constant(sign: UnaryOperator, constant: Constant) -> Constant
    ensures { result ≡ unary_constant sign constant }
{
    match constant {
        Constant::Value(value) => Constant::Value(apply_unary(sign, value)),
        _ => constant,
    }
}

fn chosen_value(test: Constant, a: Constant, b: Constant) -> Constant
    ensures { result ≡ chosen_value test a b }
{
    match test {
        Constant::Value(test) => { if test != 0 { a } else { b } }
        _ => Constant::NoValue,
    }
}

fn chosen(test: Constant, a: Constant, b: Constant) -> Constant
    ensures { result ≡ chosen_constant test a b }
{
    over(
        test,
        over(a, b, Constant::Value(0)),
        chosen_value(test, a, b),
    )
}

#[tactic(auto, using(c_grammar::proofs::Viewed::views))]
fn place_constant(scope: &Scope, place: &Place) -> Constant
    ensures { result ≡ place_constant scope.now (place_view place.now) }
{
    match place {
        Place::Whole(name) => constant_meant(scope.meaning(*name)),
        Place::Cell { .. } => Constant::Variable,
    }
}

/// The value of a constant expression.
#[cycle(constant)]
#[tactic(auto, using(c_grammar::proofs::Viewed::views))]
fn constant_of(scope: &Scope, e: &Expr) -> Constant
    ensures { result ≡ constant_of scope.now (view e.now) }
{
    match e {
        Expr::Number(at) => Constant::Value(number_at(scope.text(), *at).cast_signed()),
        Expr::Read(place) => place_constant(scope, place),
        Expr::Field { .. } => Constant::Variable,
        Expr::Paren { inner, .. } => constant_of(scope, inner),
        Expr::Unary { sign, operand, .. } => {
            unary_constant(unary_of(*sign), constant_of(scope, operand))
        }
        Expr::Chain { first, links, .. } => {
            let left = constant_of(scope, first);
            links_constant(scope, left, links)
        }
        Expr::Choice {
            test,
            then,
            other,
            ..
        } => {
            let test = constant_of(scope, test);
            let a = constant_of(scope, then);
            let b = constant_of(scope, other);
            chosen(test, a, b)
        }
    }
}

#[cycle(constant)]
fn links_constant(scope: &Scope, left: Constant, links: &[Link]) -> Constant
    ensures { result ≡ links_constant scope.now left (links_from (map piece links.now)) }
{
    let mut value = left;
    for link in links {
        let right = constant_of(scope, &link.operand);
        value = joined(operator_of(link.operator), value, right);
    }
    value
}

/// Each name without a meaning.
#[cycle(names)]
#[tactic(auto, using(c_grammar::proofs::Viewed::views, crate::proofs::Least::least_from_append))]
fn want_names(best: &mut Option<TypingFault>, scope: &Scope, e: &Expr)
    ensures { best.new ≡ least_fault_from best.old (unknown_name_faults scope.now (view e.now)) }
{
    match e {
        Expr::Number(_) => {}
        Expr::Read(place) => want_names_in_place(best, scope, place),
        Expr::Field { place, .. } => want_names_in_place(best, scope, place),
        Expr::Paren { inner, .. } => want_names(best, scope, inner),
        Expr::Unary { operand, .. } => want_names(best, scope, operand),
        Expr::Chain { first, links, .. } => {
            want_names(best, scope, first);
            want_names_in_links(best, scope, links);
        }
        Expr::Choice {
            test,
            then,
            other,
            ..
        } => {
            want_names(best, scope, test);
            want_names(best, scope, then);
            want_names(best, scope, other);
        }
    }
}

#[cycle(names)]
#[tactic(auto, using(c_grammar::proofs::Viewed::views, crate::proofs::Least::least_from_append))]
fn want_names_in_place(best: &mut Option<TypingFault>, scope: &Scope, place: &Place)
    ensures { best.new ≡ least_fault_from best.old (names_in_place scope.now (place_view place.now)) }
{
    match place {
        Place::Whole(name) => want_meaning(best, scope.meaning(*name), *name),
        Place::Cell { name, index, .. } => {
            want_meaning(best, scope.meaning(*name), *name);
            want_names(best, scope, index);
        }
    }
}

#[cycle(names)]
fn want_names_in_links(best: &mut Option<TypingFault>, scope: &Scope, links: &[Link])
    ensures { best.new ≡ least_fault_from best.old (names_in_links scope.now (links_from (map piece links.now))) }
{
    for link in links {
        want_names(best, scope, &link.operand);
    }
}

/// How many cells a length gives; 0 if it is no length.
fn length_from(constant: Constant) -> u32
    ensures { result ≡ length_from constant }
{
    match constant {
        Constant::Value(value) => {
            if value >= 0 && value as u32 <= MOST_ELEMENTS {
                value as u32
            } else {
                0
            }
        }
        _ => 0,
    }
}

pub fn length_of(scope: &Scope, e: &Expr) -> u32
    ensures { result ≡ length_of scope.now (view e.now) }
{
    length_from(constant_of(scope, e))
}

fn want_value(best: &mut Option<TypingFault>, constant: Constant, length: u32, at: Span)
    ensures { best.new ≡ least_fault_from best.old (constant_faults constant length at) }
{
    match constant {
        Constant::Nameless => {}
        _ => {
            if length == 0 {
                note_at(best, at, Why::WrongType);
            }
        }
    }
}

/// The length of an array.
#[tactic(auto, using(crate::proofs::Least::least_from_append))]
pub fn want_length(best: &mut Option<TypingFault>, scope: &Scope, e: &Expr)
    ensures { best.new ≡ least_fault_from best.old (length_faults scope.now (view e.now)) }
{
    want_names(best, scope, e);
    let constant = constant_of(scope, e);
    want_value(best, constant, length_from(constant), first_token(e));
}
