//! The kinds of expressions.
ghost use Rattle.std.specs.Prelude.{◌≡◌, ◌||◌};
ghost use Rattle.c_names.specs.declared.kind.VariableKind.TheVariants.{Int, Status, Request, Communicator};
ghost use Rattle.c_scope.specs.declared.meaning.ExprKind.{ExprKind};
ghost use Rattle.c_scope.specs.declared.meaning.ExprKind.TheVariants.{Of, Element};
ghost use Rattle.c_grammar.specs.View.{place_view, view};
ghost use Rattle.c_scope.specs.Kinds.{cell_kind, compares, kind_fits, is_same_kind, kind_faults, kind_of, place_kind, place_first_token, first_token, target_kind, whole_kind};
ghost use Rattle.c_scope.specs.Least.{least_fault_from};

use crate::fault::{TypingFault, note_unless};
use crate::meaning::{Entity, ExprKind, Meaning};
use crate::scope::Scope;
use c_grammar::terminal::Span;
use c_grammar::tree::{Expr, Place};
use c_lex::Why;
use c_names::kind::VariableKind;
use c_names::predefined::Predefined;

pub fn is_same_kind(a: VariableKind, b: VariableKind) -> bool
    ensures { result ≡ is_same_kind a b }
{
    match (a, b) {
        (VariableKind::Int, VariableKind::Int) => true,
        (VariableKind::Status, VariableKind::Status) => true,
        (VariableKind::Request, VariableKind::Request) => true,
        (VariableKind::Communicator, VariableKind::Communicator) => true,
        _ => false,
    }
}

/// A name alone.
pub fn whole_kind(meaning: Meaning) -> ExprKind
    ensures { result ≡ whole_kind meaning }
{
    match meaning {
        Meaning::Known(Predefined::Number(_)) => ExprKind::Of(VariableKind::Int),
        Meaning::Known(Predefined::Communicator(_)) => ExprKind::Of(VariableKind::Communicator),
        Meaning::Known(Predefined::NullRequest) => ExprKind::NullRequest,
        Meaning::Known(_) => ExprKind::Other,
        Meaning::Declared(Entity::Define(_)) => ExprKind::Of(VariableKind::Int),
        Meaning::Declared(Entity::Variable(kind)) => ExprKind::Of(kind),
        Meaning::Declared(Entity::ArgumentCount) => ExprKind::Of(VariableKind::Int),
        Meaning::Declared(_) => ExprKind::Other,
        Meaning::LeftOut | Meaning::Unknown => ExprKind::Nothing,
    }
}

/// A name with an index.
pub fn cell_kind(meaning: Meaning) -> ExprKind
    ensures { result ≡ cell_kind meaning }
{
    match meaning {
        Meaning::Declared(Entity::Array(kind, _)) => ExprKind::Of(kind),
        Meaning::Declared(Entity::ArrayParameter) => ExprKind::Of(VariableKind::Int),
        Meaning::LeftOut | Meaning::Unknown => ExprKind::Element,
        _ => ExprKind::Nothing,
    }
}

/// A name on the left of an assignment.
pub fn target_kind(meaning: Meaning) -> ExprKind
    ensures { result ≡ target_kind meaning }
{
    match meaning {
        Meaning::Declared(Entity::Variable(kind)) => ExprKind::Of(kind),
        Meaning::Declared(Entity::ArgumentCount) => ExprKind::Of(VariableKind::Int),
        Meaning::LeftOut | Meaning::Unknown => ExprKind::Nothing,
        _ => ExprKind::Other,
    }
}

#[tactic(auto, using(c_grammar::proofs::Viewed::views))]
pub fn place_kind(scope: &Scope, place: &Place) -> ExprKind
    ensures { result ≡ place_kind scope.now (place_view place.now) }
{
    match place {
        Place::Whole(name) => whole_kind(scope.meaning(*name)),
        Place::Cell { name, .. } => cell_kind(scope.meaning(*name)),
    }
}

#[tactic(auto, using(c_grammar::proofs::Viewed::views))]
pub fn kind_of(scope: &Scope, e: &Expr) -> ExprKind
    ensures { result ≡ kind_of scope.now (view e.now) }
{
    match e {
        Expr::Read(place) => place_kind(scope, place),
        Expr::Number(_) => ExprKind::Of(VariableKind::Int),
        Expr::Field { .. } => ExprKind::Of(VariableKind::Int),
        Expr::Paren { .. } => ExprKind::Of(VariableKind::Int),
        Expr::Unary { .. } => ExprKind::Of(VariableKind::Int),
        Expr::Chain { .. } => ExprKind::Of(VariableKind::Int),
        Expr::Choice { .. } => ExprKind::Of(VariableKind::Int),
    }
}

#[tactic(auto, using(c_grammar::proofs::Viewed::views))]
pub fn place_first_token(place: &Place) -> Span
    ensures { result ≡ place_first_token (place_view place.now) }
{
    match place {
        Place::Whole(name) => *name,
        Place::Cell { name, .. } => *name,
    }
}

#[tactic(auto, using(c_grammar::proofs::Viewed::views))]
pub fn first_token(e: &Expr) -> Span
    ensures { result ≡ first_token (view e.now) }
{
    match e {
        Expr::Number(at) => *at,
        Expr::Read(place) => place_first_token(place),
        Expr::Field { place, .. } => place_first_token(place),
        Expr::Paren { opening, .. } => *opening,
        Expr::Unary { at, .. } => *at,
        Expr::Chain { first, .. } => first_token(first),
        Expr::Choice { test, .. } => first_token(test),
    }
}

/// Whether something of one kind may stand where one is wanted.
pub fn fits(wanted: ExprKind, given: ExprKind) -> bool
    ensures { result ≡ kind_fits wanted given }
{
    match (wanted, given) {
        (ExprKind::Nothing, _) => true,
        (_, ExprKind::Nothing) => true,
        (ExprKind::Of(VariableKind::Int), ExprKind::Of(VariableKind::Int)) => true,
        (ExprKind::Of(VariableKind::Status), ExprKind::Of(VariableKind::Status)) => true,
        (ExprKind::Of(VariableKind::Communicator), ExprKind::Of(VariableKind::Communicator)) =>
            true,
        (ExprKind::Of(VariableKind::Int), ExprKind::Element) => true,
        (ExprKind::Of(VariableKind::Status), ExprKind::Element) => true,
        (ExprKind::Of(VariableKind::Communicator), ExprKind::Element) => true,
        (ExprKind::Of(VariableKind::Request), ExprKind::NullRequest) => true,
        _ => false,
    }
}

/// Something else than what is wanted.
pub fn want_kind(best: &mut Option<TypingFault>, wanted: ExprKind, given: ExprKind, at: Span)
    ensures { best.new ≡ least_fault_from best.old (kind_faults wanted given at) }
{
    note_unless(best, fits(wanted, given), at, Why::WrongType);
}

/// Whether two operands of `==` or `!=` are handles that may be compared.
pub fn compares(left: ExprKind, right: ExprKind) -> bool
    ensures { result ≡ compares left right }
{
    match (left, right) {
        (ExprKind::Of(VariableKind::Communicator), ExprKind::Of(VariableKind::Communicator)) =>
            true,
        (ExprKind::Of(VariableKind::Communicator), ExprKind::Element) => true,
        (ExprKind::Element, ExprKind::Of(VariableKind::Communicator)) => true,
        (ExprKind::Of(VariableKind::Communicator), ExprKind::Nothing) => true,
        (ExprKind::Nothing, ExprKind::Of(VariableKind::Communicator)) => true,
        (ExprKind::Of(VariableKind::Request), ExprKind::NullRequest) => true,
        (ExprKind::Of(VariableKind::Request), ExprKind::Nothing) => true,
        (ExprKind::Nothing, ExprKind::Of(VariableKind::Request)) => true,
        (ExprKind::NullRequest, ExprKind::Of(VariableKind::Request)) => true,
        (ExprKind::NullRequest, ExprKind::NullRequest) => true,
        (ExprKind::NullRequest, ExprKind::Element) => true,
        (ExprKind::Element, ExprKind::NullRequest) => true,
        (ExprKind::NullRequest, ExprKind::Nothing) => true,
        (ExprKind::Nothing, ExprKind::NullRequest) => true,
        _ => false,
    }
}

/// An element of an array whose name has no meaning fits if and only if an element of one of the kinds does.
pub fn element_fits()
    ensures { (wanted : ExprKind) → kind_fits wanted Element
        ≡ (kind_fits wanted (Of Int) || (kind_fits wanted (Of Status) || (kind_fits wanted (Of Request) || kind_fits wanted (Of Communicator)))) }
{}
