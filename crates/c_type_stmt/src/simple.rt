//! Typing of assignments and of calls that stand alone, in one walk: the typed form, or none where something is faulty.
ghost use Rattle.std.specs.Prelude.{◌≡◌};
ghost use Rattle.c_grammar.specs.StmtView.{right_view, simple_view};
ghost use Rattle.c_grammar.specs.View.{place_view};
ghost use Rattle.c_program.specs.Tree as pure;
ghost use Rattle.c_program.specs.View.{pure_place, pure_right, pure_simple};
ghost use Rattle.c_scope.specs.Walks.{Walked, mapped};
ghost use Rattle.c_type_stmt.specs.Assignments.{is_plain_assign, is_assignable, is_int_lvalue, lvalue_kind, lvalue_takes, one, update_of};
ghost use Rattle.c_type_stmt.specs.StmtTyping.{assign_typing, goal_typing, int_goal_typing, simple_typing, step_by_one_typing};

use c_grammar::statement::{Right, Simple};
use c_grammar::terminal::Symbol;
use c_grammar::tree::Place;
use c_lex::Why;
use c_names::kind::VariableKind;
use c_names::operator::Operator;
use c_program::expr::{TypedExpr, TypedPlace, TypedRight};
use c_program::statement::TypedSimple;
use c_scope::fault::{TypingFault, note_unless};
use c_scope::joins::{both, if_well};
use c_scope::kind::{cell_kind, place_first_token, target_kind};
use c_scope::meaning::ExprKind;
use c_scope::scope::Scope;
use c_type_expr::call::{call_of, right_of};
use c_type_expr::expression::place_of;
use std::alloc::{AllocError, Global};

// ---- what may be assigned to

/// What is assigned to.
#[tactic(auto, using(c_grammar::proofs::Viewed::views))]
fn lvalue_kind(scope: &Scope, place: &Place) -> ExprKind
    ensures { result ≡ lvalue_kind scope.now (place_view place.now) }
{
    match place {
        Place::Whole(name) => target_kind(scope.meaning(*name)),
        Place::Cell { name, .. } => cell_kind(scope.meaning(*name)),
    }
}

fn is_assignable(kind: ExprKind) -> bool
    ensures { result ≡ is_assignable kind }
{
    match kind {
        ExprKind::Of(VariableKind::Status) => false,
        ExprKind::Of(_) => true,
        ExprKind::Element | ExprKind::Nothing => true,
        _ => false,
    }
}

fn is_int_lvalue(kind: ExprKind) -> bool
    ensures { result ≡ is_int_lvalue kind }
{
    match kind {
        ExprKind::Of(VariableKind::Int) => true,
        ExprKind::Element | ExprKind::Nothing => true,
        _ => false,
    }
}

fn lvalue_takes(kind: ExprKind) -> ExprKind
    ensures { result ≡ lvalue_takes kind }
{
    match kind {
        ExprKind::Of(VariableKind::Status) => ExprKind::Nothing,
        ExprKind::Of(_) => kind,
        _ => ExprKind::Nothing,
    }
}

fn is_plain_assign(symbol: Symbol) -> bool
    ensures { result ≡ is_plain_assign symbol }
{
    match symbol {
        Symbol::Assign => true,
        _ => false,
    }
}

/// The operator of `operator=`, `++` or `--`.
fn update_of(symbol: Symbol) -> Operator
    ensures { result ≡ update_of symbol }
{
    match symbol {
        Symbol::PlusAssign | Symbol::Increment => Operator::Plus,
        Symbol::MinusAssign | Symbol::Decrement => Operator::Minus,
        Symbol::TimesAssign => Operator::Times,
        Symbol::DivideAssign => Operator::Divide,
        Symbol::RemainderAssign => Operator::Remainder,
        Symbol::AndAssign => Operator::And,
        Symbol::OrAssign => Operator::Or,
        Symbol::XorAssign => Operator::Xor,
        Symbol::ShiftLeftAssign => Operator::ShiftLeft,
        _ => Operator::ShiftRight,
    }
}

// ---- forms from their parts

/// A place and what is put there.
fn set(
    parts: Result<Option<(TypedPlace, TypedRight)>, AllocError>,
) -> Result<Option<TypedSimple>, AllocError>
    ensures { mapped pure_simple result ≡ mapped (λ both. pure.set (pure_place both.0) (pure_right both.1)) parts }
{
    match parts? {
        Some((place, right)) => Ok(Some(TypedSimple::Set { place, right })),
        None => Ok(None),
    }
}

/// A place and what it is changed by.
fn update(
    operator: Operator,
    parts: Result<Option<(TypedPlace, TypedRight)>, AllocError>,
) -> Result<Option<TypedSimple>, AllocError>
    ensures { mapped pure_simple result ≡ mapped (λ both. pure.update (pure_place both.0) operator (pure_right both.1)) parts }
{
    match parts? {
        Some((place, right)) => Ok(Some(TypedSimple::Update {
            place,
            operator,
            right,
        })),
        None => Ok(None),
    }
}

/// A place that is changed by 1.
#[tactic(auto, using(c_program::proofs::Viewed::views))]
fn by_one(
    operator: Operator,
    goal: Result<Option<TypedPlace>, AllocError>,
) -> Result<Option<TypedSimple>, AllocError>
    ensures { mapped pure_simple result ≡ mapped (λ place. pure.update (pure_place place) operator one) goal }
{
    match goal? {
        Some(place) => Ok(Some(TypedSimple::Update {
            place,
            operator,
            right: TypedRight::Value(TypedExpr::Number(1)),
        })),
        None => Ok(None),
    }
}

// ---- the walk

/// A place that is assigned to.
fn goal_of(
    alloc: Global,
    scope: &Scope,
    best: &mut Option<TypingFault>,
    place: &Place,
) -> Result<Option<TypedPlace>, AllocError>
    ensures { Walked pure_place best.old best.new result (goal_typing scope.now (place_view place.now)) }
{
    let goal = place_of(alloc, scope, best, place)?;
    let fits = is_assignable(lvalue_kind(scope, place));
    note_unless(best, fits, place_first_token(place), Why::WrongType);
    Ok(if_well(fits, goal))
}

/// A place whose int is changed.
fn int_goal_of(
    alloc: Global,
    scope: &Scope,
    best: &mut Option<TypingFault>,
    place: &Place,
) -> Result<Option<TypedPlace>, AllocError>
    ensures { Walked pure_place best.old best.new result (int_goal_typing scope.now (place_view place.now)) }
{
    let goal = place_of(alloc, scope, best, place)?;
    let fits = is_int_lvalue(lvalue_kind(scope, place));
    note_unless(best, fits, place_first_token(place), Why::WrongType);
    Ok(if_well(fits, goal))
}

/// `=`, or an operator and `=`.
fn assign_of(
    alloc: Global,
    scope: &Scope,
    best: &mut Option<TypingFault>,
    place: &Place,
    operator: Symbol,
    right: &Right,
) -> Result<Option<TypedSimple>, AllocError>
    ensures { Walked pure_simple best.old best.new result (assign_typing scope.now (is_plain_assign operator) (place_view place.now) operator (right_view right.now)) }
{
    if is_plain_assign(operator) {
        let takes = lvalue_takes(lvalue_kind(scope, place));
        set(both(
            goal_of(alloc, scope, best, place),
            right_of(alloc, scope, best, takes, right),
        ))
    } else {
        let takes = ExprKind::Of(VariableKind::Int);
        update(
            update_of(operator),
            both(
                int_goal_of(alloc, scope, best, place),
                right_of(alloc, scope, best, takes, right),
            ),
        )
    }
}

/// `++` or `--`.
fn step_by_one(
    alloc: Global,
    scope: &Scope,
    best: &mut Option<TypingFault>,
    operator: Symbol,
    place: &Place,
) -> Result<Option<TypedSimple>, AllocError>
    ensures { Walked pure_simple best.old best.new result (step_by_one_typing scope.now operator (place_view place.now)) }
{
    by_one(update_of(operator), int_goal_of(alloc, scope, best, place))
}

/// An assignment, a step by 1 or a call.
pub fn simple_of(
    alloc: Global,
    scope: &Scope,
    best: &mut Option<TypingFault>,
    simple: &Simple,
) -> Result<Option<TypedSimple>, AllocError>
    ensures { Walked pure_simple best.old best.new result (simple_typing scope.now (simple_view simple.now)) }
{
    match simple {
        Simple::Assign {
            place,
            operator,
            right,
            ..
        } => assign_of(alloc, scope, best, place, *operator, right),
        Simple::After {
            place,
            operator,
            ..
        } => { step_by_one(alloc, scope, best, *operator, place) }
        Simple::Before {
            place,
            operator,
            ..
        } => { step_by_one(alloc, scope, best, *operator, place) }
        Simple::Call(call) => call_of(alloc, scope, best, call),
    }
}
