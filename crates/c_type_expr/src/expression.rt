//! Typing of expressions in one walk: the typed form, or none where something is faulty, and the first fault of what was walked.
ghost use Rattle.std.specs.Prelude.{◌≡◌, map, option_map};
ghost use Rattle.c_grammar.specs.Tree as tree;
ghost use Rattle.c_grammar.specs.View.{links_from, piece, place_view, view};
ghost use Rattle.c_program.specs.Tree as pure;
ghost use Rattle.c_program.specs.View.{pure_expr, pure_link, pure_links, pure_place};
ghost use Rattle.c_scope.specs.Least.{least_fault_from};
ghost use Rattle.c_scope.specs.Scopes.{meaning};
ghost use Rattle.c_scope.specs.Walks.{Gives, Walked, are_none, if_so, mapped};
ghost use Rattle.c_type_expr.specs.Operands.{field_of, is_equality, is_field, operand_faults};
ghost use Rattle.c_type_expr.specs.ExprTyping.{as_status, expr_typing, field_typing, indexed_typing, int_typing, links_typing, name_typing, place_typing, wanted_typing, whole_typing};

use c_grammar::terminal::{Span, Symbol};
use c_grammar::tree;
use c_lex::Why;
use c_names::kind::VariableKind;
use c_names::operator::{Operator, UnaryOperator};
use c_names::predefined::Predefined;
use c_program::expr::{Field, TypedExpr, TypedLink, TypedPlace};
use c_scope::constant::{operator_of, unary_of};
use c_scope::fault::{TypingFault, note_at};
use c_scope::joins::{all, both, in_box, keep};
use c_scope::kind::{compares, first_token, kind_of, place_first_token, place_kind};
use c_scope::meaning::{Entity, ExprKind, Meaning};
use c_scope::refusals::{of_kind, refused, unfit};
use c_scope::scope::{Scope, is_same, number_at, token_bytes};
use std::alloc::{AllocError, Global};

const INT: ExprKind = ExprKind::Of(VariableKind::Int);

/// A name alone.
#[tactic(auto, using(c_program::proofs::Viewed::views))]
fn name_of(scope: &Scope, best: &mut Option<TypingFault>, name: Span) -> Option<TypedExpr>
    ensures { Gives best.old best.new (option_map pure_expr result) (name_typing scope.now name (meaning scope.now name)) }
{
    match scope.meaning(name) {
        Meaning::Known(Predefined::Number(value)) => Some(TypedExpr::Number(value)),
        Meaning::Known(Predefined::Communicator(number)) => Some(TypedExpr::Number(number)),
        Meaning::Known(Predefined::NullRequest) => Some(TypedExpr::Number(-1)),
        Meaning::Declared(Entity::Define(value)) => Some(TypedExpr::Number(value)),
        Meaning::LeftOut => refused(best, name, Why::LeftOut),
        Meaning::Unknown => refused(best, name, Why::Unknown),
        _ => Some(TypedExpr::Read(TypedPlace::Whole(scope.variable(name)))),
    }
}

/// A name as a place.
#[tactic(auto, using(c_program::proofs::Viewed::views))]
fn whole_of(scope: &Scope, best: &mut Option<TypingFault>, name: Span) -> Option<TypedPlace>
    ensures { Gives best.old best.new (option_map pure_place result) (whole_typing scope.now name (meaning scope.now name)) }
{
    match scope.meaning(name) {
        Meaning::LeftOut => refused(best, name, Why::LeftOut),
        Meaning::Unknown => refused(best, name, Why::Unknown),
        _ => Some(TypedPlace::Whole(scope.variable(name))),
    }
}

/// A name with an index, by the number of its array.
fn indexed_of(scope: &Scope, best: &mut Option<TypingFault>, name: Span) -> Option<usize>
    ensures { Gives best.old best.new result (indexed_typing scope.now name (meaning scope.now name)) }
{
    let meaning = scope.meaning(name);
    match meaning {
        Meaning::Declared(Entity::Array(_, _)) => Some(scope.variable(name)),
        Meaning::Declared(Entity::ArrayParameter) => Some(scope.variable(name)),
        _ => unfit(best, name, name, meaning),
    }
}

fn is_field(name: &[u8]) -> bool
    ensures { result ≡ is_field name.now }
{
    is_same(name, b"MPI_SOURCE") || is_same(name, b"MPI_TAG")
}

fn field_of(name: &[u8]) -> Field
    ensures { result ≡ field_of name.now }
{
    if is_same(name, b"MPI_SOURCE") {
        Field::Source
    } else {
        Field::Tag
    }
}

/// The field of a place of a kind.
fn field_in(
    scope: &Scope,
    best: &mut Option<TypingFault>,
    kind: ExprKind,
    name: Span,
) -> Option<Field>
    ensures { Gives best.old best.new result (field_typing scope.now kind name) }
{
    let bytes = token_bytes(scope.text(), name);
    if let ExprKind::Of(VariableKind::Status) = kind {
        if !is_field(bytes) {
            note_at(best, name, Why::LeftOut);
            return None;
        }
    }
    Some(field_of(bytes))
}

// ---- forms from their parts

/// A sign and its operand.
#[tactic(auto, using(c_program::proofs::Viewed::views))]
fn signed(
    sign: UnaryOperator,
    operand: Result<Option<Box<TypedExpr>>, AllocError>,
) -> Result<Option<TypedExpr>, AllocError>
    ensures { mapped pure_expr result ≡ mapped (λ held. pure.signed sign (pure_expr held.value)) operand }
{
    match operand? {
        Some(operand) => Ok(Some(TypedExpr::Signed { sign, operand })),
        None => Ok(None),
    }
}

/// A status and a field of it.
#[tactic(auto, using(c_program::proofs::Viewed::views))]
fn field(
    parts: Result<Option<(TypedPlace, Field)>, AllocError>,
) -> Result<Option<TypedExpr>, AllocError>
    ensures { mapped pure_expr result ≡ mapped (λ both. pure.field (pure_place both.0) both.1) parts }
{
    match parts? {
        Some((status, field)) => Ok(Some(TypedExpr::Field { status, field })),
        None => Ok(None),
    }
}

/// A first operand and the others.
#[tactic(auto, using(c_program::proofs::Viewed::views))]
fn chain(
    parts: Result<Option<(Box<TypedExpr>, Vec<TypedLink>)>, AllocError>,
) -> Result<Option<TypedExpr>, AllocError>
    ensures { mapped pure_expr result ≡ mapped (λ both. pure.chain (pure_expr both.0.value) (pure_links both.1.items)) parts }
{
    match parts? {
        Some((first, links)) => Ok(Some(TypedExpr::Chain { first, links })),
        None => Ok(None),
    }
}

/// What a place holds.
#[tactic(auto, using(c_program::proofs::Viewed::views))]
fn read(place: Result<Option<TypedPlace>, AllocError>) -> Result<Option<TypedExpr>, AllocError>
    ensures { mapped pure_expr result ≡ mapped (λ one. pure.read (pure_place one)) place }
{
    match place? {
        Some(place) => Ok(Some(TypedExpr::Read(place))),
        None => Ok(None),
    }
}

/// An array and an index.
#[tactic(auto, using(c_program::proofs::Viewed::views))]
fn element(
    parts: Result<Option<(usize, Box<TypedExpr>)>, AllocError>,
) -> Result<Option<TypedPlace>, AllocError>
    ensures { mapped pure_place result ≡ mapped (λ both. pure.element both.0 (pure_expr both.1.value)) parts }
{
    match parts? {
        Some((variable, index)) => Ok(Some(TypedPlace::Element { variable, index })),
        None => Ok(None),
    }
}

/// A test and two others.
#[tactic(auto, using(c_program::proofs::Viewed::views))]
fn choice(
    parts: Result<Option<((Box<TypedExpr>, Box<TypedExpr>), Box<TypedExpr>)>, AllocError>,
) -> Result<Option<TypedExpr>, AllocError>
    ensures { mapped pure_expr result ≡ mapped (λ all. pure.choice (pure_expr all.0.0.value) (pure_expr all.0.1.value) (pure_expr all.1.value)) parts }
{
    match parts? {
        Some(((test, then), other)) => Ok(Some(TypedExpr::Choice { test, then, other })),
        None => Ok(None),
    }
}

/// An operator and its operand.
fn linked(operator: Operator, operand: Option<TypedExpr>) -> Option<TypedLink>
    ensures { option_map pure_link result ≡ option_map (λ one. record { operator = operator; operand = pure_expr one }) operand }
{
    match operand {
        Some(operand) => Some(TypedLink { operator, operand }),
        None => None,
    }
}

fn is_equality(symbol: Symbol) -> bool
    ensures { result ≡ is_equality symbol }
{
    match symbol {
        Symbol::Equal | Symbol::NotEqual => true,
        _ => false,
    }
}

/// A right operand, where it and the left one are handles that may be compared, or ints.
fn of_operands<T: Drop>(
    best: &mut Option<TypingFault>,
    operator: Symbol,
    left: ExprKind,
    left_at: Span,
    right: ExprKind,
    right_at: Span,
    found: Option<T>,
) -> Option<T>
    ensures best { best.new ≡ least_fault_from best.old (operand_faults operator left left_at right right_at) }
    ensures form { result ≡ if_so (are_none (operand_faults operator left left_at right right_at)) found }
{
    if is_equality(operator) && compares(left, right) {
        return found;
    }
    let found = of_kind(best, INT, left, left_at, found);
    of_kind(best, INT, right, right_at, found)
}

// ---- the walk

/// An expression of whatever kind.
#[cycle(walk)]
pub fn expr_of(
    alloc: Global,
    scope: &Scope,
    best: &mut Option<TypingFault>,
    e: &tree::Expr,
) -> Result<Option<TypedExpr>, AllocError>
    ensures { Walked pure_expr best.old best.new result (expr_typing scope.now (view e.now)) }
{
    match e {
        tree::Expr::Number(at) => Ok(Some(TypedExpr::Number(number_at(
            scope.text(),
            *at,
        ).cast_signed()))),
        tree::Expr::Read(place) => read_of(alloc, scope, best, place),
        tree::Expr::Field { place, name, .. } => field(both(
            status_of(alloc, scope, best, place),
            Ok(field_in(scope, best, place_kind(scope, place), *name)),
        )),
        tree::Expr::Paren { inner, .. } => int_of(alloc, scope, best, inner),
        tree::Expr::Unary { sign, operand, .. } => signed(
            unary_of(*sign),
            in_box(alloc, int_of(alloc, scope, best, operand)),
        ),
        tree::Expr::Chain { first, links, .. } => chain(both(
            in_box(alloc, expr_of(alloc, scope, best, first)),
            links_of(
                alloc,
                scope,
                best,
                kind_of(scope, first),
                first_token(first),
                links,
            ),
        )),
        tree::Expr::Choice {
            test,
            then,
            other,
            ..
        } => choice(both(
            both(
                in_box(alloc, int_of(alloc, scope, best, test)),
                in_box(alloc, int_of(alloc, scope, best, then)),
            ),
            in_box(alloc, int_of(alloc, scope, best, other)),
        )),
    }
}

/// A place that is read.
#[cycle(walk)]
fn read_of(
    alloc: Global,
    scope: &Scope,
    best: &mut Option<TypingFault>,
    place: &tree::Place,
) -> Result<Option<TypedExpr>, AllocError>
    ensures { Walked pure_expr best.old best.new result (expr_typing scope.now (tree.read (place_view place.now))) }
{
    match place {
        tree::Place::Whole(name) => Ok(name_of(scope, best, *name)),
        tree::Place::Cell { .. } => read(place_of(alloc, scope, best, place)),
    }
}

/// A place that is a status.
#[cycle(walk)]
fn status_of(
    alloc: Global,
    scope: &Scope,
    best: &mut Option<TypingFault>,
    place: &tree::Place,
) -> Result<Option<TypedPlace>, AllocError>
    ensures { Walked pure_place best.old best.new result (as_status scope.now (place_view place.now) (place_typing scope.now (place_view place.now))) }
{
    let found = place_of(alloc, scope, best, place)?;
    Ok(of_kind(
        best,
        ExprKind::Of(VariableKind::Status),
        place_kind(scope, place),
        place_first_token(place),
        found,
    ))
}

/// An expression that is an int.
#[cycle(walk)]
pub fn int_of(
    alloc: Global,
    scope: &Scope,
    best: &mut Option<TypingFault>,
    e: &tree::Expr,
) -> Result<Option<TypedExpr>, AllocError>
    ensures { Walked pure_expr best.old best.new result (int_typing scope.now (view e.now)) }
{
    let found = expr_of(alloc, scope, best, e)?;
    Ok(of_kind(best, INT, kind_of(scope, e), first_token(e), found))
}

/// A place.
#[cycle(walk)]
pub fn place_of(
    alloc: Global,
    scope: &Scope,
    best: &mut Option<TypingFault>,
    place: &tree::Place,
) -> Result<Option<TypedPlace>, AllocError>
    ensures { Walked pure_place best.old best.new result (place_typing scope.now (place_view place.now)) }
{
    match place {
        tree::Place::Whole(name) => Ok(whole_of(scope, best, *name)),
        tree::Place::Cell { name, index, .. } => element(both(
            Ok(indexed_of(scope, best, *name)),
            in_box(alloc, int_of(alloc, scope, best, index)),
        )),
    }
}

/// Operators and operands, by the left operand's kind and first token. After a fault the others are walked as well.
#[cycle(walk)]
fn links_of(
    alloc: Global,
    scope: &Scope,
    best: &mut Option<TypingFault>,
    left: ExprKind,
    left_at: Span,
    links: &[tree::Link],
) -> Result<Option<Vec<TypedLink>>, AllocError>
    ensures { Walked (λ all. pure_links all.items) best.old best.new result (links_typing scope.now left left_at (links_from (map piece links.now))) }
{
    let mut typed = Vec::new(alloc);
    let mut faulty = false;
    let mut kind = left;
    for link in links {
        let operand = expr_of(alloc, scope, best, &link.operand)?;
        let right = kind_of(scope, &link.operand);
        let right_at = first_token(&link.operand);
        let operand = of_operands(best, link.operator, kind, left_at, right, right_at, operand);
        keep(
            &mut typed,
            &mut faulty,
            linked(operator_of(link.operator), operand),
        )?;
        kind = INT;
    }
    Ok(all(typed, faulty))
}

/// An expression where a kind is wanted.
pub fn wanted_of(
    alloc: Global,
    scope: &Scope,
    best: &mut Option<TypingFault>,
    wanted: ExprKind,
    e: &tree::Expr,
) -> Result<Option<TypedExpr>, AllocError>
    ensures { Walked pure_expr best.old best.new result (wanted_typing scope.now wanted (view e.now)) }
{
    let found = expr_of(alloc, scope, best, e)?;
    Ok(of_kind(best, wanted, kind_of(scope, e), first_token(e), found))
}
