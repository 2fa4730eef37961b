//! Typing of declarations in one walk: the typed form, or none where something is faulty. The names are declared in any case.
ghost use Rattle.std.specs.Prelude.{◌≡◌, OnOk, length, map, option_map};
ghost use Rattle.c_grammar.specs.StmtView.{comma_list_view, declaration_view, initial_view, item_view, right_view};
ghost use Rattle.c_grammar.specs.View.{place_view, view};
ghost use Rattle.c_lex.specs.declared.fault.Why.TheVariants.{WrongType};
ghost use Rattle.c_program.specs.Tree as pure;
ghost use Rattle.c_program.specs.View.{pure_declaration, pure_expr, pure_initial, pure_item, pure_right};
ghost use Rattle.c_scope.specs.Least.{fault_unless, least_fault_from};
ghost use Rattle.c_scope.specs.Signatures.{listed};
ghost use Rattle.c_scope.specs.Typing.{also, onto};
ghost use Rattle.c_scope.specs.Walks.{Gives, Walked, mapped};
ghost use Rattle.c_type_expr.specs.CallTyping.{right_typing};
ghost use Rattle.c_type_stmt.specs.Declarations.{after_declaration, after_declarators, after_item, array_length, begins_with, begun_takes, braces_faults, can_begin, declared_entity, is_int_array};
ghost use Rattle.c_type_stmt.specs.StmtTyping.{declaration_typing, initial_typing, item_typing, items_typing, length_typing, values_typing};

use c_grammar::statement::{CommaList, Declaration, InitDeclarator, Initializer, Right};
use c_grammar::terminal::Span;
use c_grammar::tree::{Expr, Place};
use c_lex::Why;
use c_names::kind::VariableKind;
use c_program::expr::{TypedExpr, TypedRight};
use c_program::statement::{TypedDeclaration, TypedInitDeclarator, TypedInitializer};
use c_scope::comma_list::item_count;
use c_scope::constant::{length_of, want_length};
use c_scope::fault::{TypingFault, note_at, note_unless};
use c_scope::joins::{all, both, if_well, keep, unless_told};
use c_scope::kind::place_first_token;
use c_scope::meaning::{Entity, ExprKind, kind_of_symbol};
use c_scope::scope::{Scope, token_bytes};
use c_type_expr::call::right_of;
use c_type_expr::expression::int_of;
use std::alloc::{AllocError, Global};
use wiz_base::Bytes;

// ---- what is declared, and how it may begin

#[tactic(auto, using(c_grammar::proofs::Viewed::views))]
fn declared_entity(scope: &Scope, kind: VariableKind, place: &Place) -> Entity
    ensures { result ≡ declared_entity scope.now kind (place_view place.now) }
{
    match place {
        Place::Whole(_) => Entity::Variable(kind),
        Place::Cell { index, .. } => Entity::Array(kind, length_of(scope, index)),
    }
}

fn begins_with(entity: Entity) -> ExprKind
    ensures { result ≡ begins_with entity }
{
    match entity {
        Entity::Variable(VariableKind::Status) => ExprKind::Other,
        Entity::Variable(kind) => ExprKind::Of(kind),
        _ => ExprKind::Other,
    }
}

fn can_begin(kind: ExprKind) -> bool
    ensures { result ≡ can_begin kind }
{
    match kind {
        ExprKind::Other => false,
        _ => true,
    }
}

fn begun_takes(kind: ExprKind) -> ExprKind
    ensures { result ≡ begun_takes kind }
{
    match kind {
        ExprKind::Other => ExprKind::Nothing,
        _ => kind,
    }
}

fn is_int_array(entity: Entity) -> bool
    ensures { result ≡ is_int_array entity }
{
    match entity {
        Entity::Array(VariableKind::Int, _) => true,
        _ => false,
    }
}

fn array_length(entity: Entity) -> u32
    ensures { result ≡ array_length entity }
{
    match entity {
        Entity::Array(_, length) => length,
        _ => 0,
    }
}

/// Values in braces.
fn want_braces(best: &mut Option<TypingFault>, name: Span, entity: Entity, count: usize)
    ensures { best.new ≡ least_fault_from best.old (braces_faults name entity count) }
{
    if is_int_array(entity) {
        let length = array_length(entity) as usize;
        note_unless(best, !(0 < length && length < count), name, Why::WrongCount);
    } else {
        note_at(best, name, Why::WrongType);
    }
}

// ---- forms from their parts

/// A right side that a variable begins with.
fn begun(
    right: Result<Option<TypedRight>, AllocError>,
) -> Result<Option<TypedInitializer>, AllocError>
    ensures { mapped pure_initial result ≡ mapped (λ one. pure.right (pure_right one)) right }
{
    match right? {
        Some(right) => Ok(Some(TypedInitializer::Right(right))),
        None => Ok(None),
    }
}

/// Values that an array begins with.
fn braced(
    values: Result<Option<Vec<TypedExpr>>, AllocError>,
) -> Result<Option<TypedInitializer>, AllocError>
    ensures { mapped pure_initial result ≡ mapped (λ all. pure.values (map pure_expr all.items)) values }
{
    match values? {
        Some(values) => Ok(Some(TypedInitializer::Values(values))),
        None => Ok(None),
    }
}

/// A variable with its length and with how it begins.
fn item(
    name: Bytes,
    kind: VariableKind,
    parts: Result<Option<(Option<u32>, TypedInitializer)>, AllocError>,
) -> Result<Option<TypedInitDeclarator>, AllocError>
    ensures { mapped pure_item result ≡ mapped (λ both. record { name = name; kind = kind; length = both.0; initial = pure_initial both.1 }) parts }
{
    match parts? {
        Some((length, initial)) => Ok(Some(TypedInitDeclarator {
            name,
            kind,
            length,
            initial,
        })),
        None => Ok(None),
    }
}

/// A declaration of its variables.
fn declaration(
    items: Result<Option<Vec<TypedInitDeclarator>>, AllocError>,
) -> Result<Option<TypedDeclaration>, AllocError>
    ensures { mapped pure_declaration result ≡ mapped (λ all. map pure_item all.items) items }
{
    match items? {
        Some(items) => Ok(Some(TypedDeclaration { items })),
        None => Ok(None),
    }
}

// ---- the walk

/// How many cells a declared name has in brackets.
#[tactic(auto, using(c_grammar::proofs::Viewed::views))]
fn length_in(scope: &Scope, best: &mut Option<TypingFault>, place: &Place) -> Option<Option<u32>>
    ensures { Gives best.old best.new result (length_typing scope.now (place_view place.now)) }
{
    match place {
        Place::Whole(_) => Some(None),
        Place::Cell { index, .. } => {
            let mut own = None;
            want_length(&mut own, scope, index);
            unless_told(best, own, Some(Some(length_of(scope, index))))
        }
    }
}

/// The values in braces.
fn values_of(
    alloc: Global,
    scope: &Scope,
    best: &mut Option<TypingFault>,
    values: &CommaList<Expr>,
) -> Result<Option<Vec<TypedExpr>>, AllocError>
    ensures { Walked (λ all. map pure_expr all.items) best.old best.new result (values_typing scope.now (listed (comma_list_view view values.now))) }
{
    let mut typed = Vec::new(alloc);
    let mut faulty = false;
    let first = int_of(alloc, scope, best, &values.first)?;
    keep(&mut typed, &mut faulty, first)?;
    for behind in &values.more {
        let one = int_of(alloc, scope, best, &behind.item)?;
        keep(&mut typed, &mut faulty, one)?;
    }
    Ok(all(typed, faulty))
}

/// A right side that a variable begins with.
fn begun_of(
    alloc: Global,
    scope: &Scope,
    best: &mut Option<TypingFault>,
    name: Span,
    kind: ExprKind,
    right: &Right,
) -> Result<Option<TypedInitializer>, AllocError>
    ensures { Walked pure_initial best.old best.new result
        (also (fault_unless (can_begin kind) name WrongType) (onto pure.right (right_typing scope.now (begun_takes kind) (right_view right.now)))) }
{
    let found = begun(right_of(alloc, scope, best, begun_takes(kind), right))?;
    let well = can_begin(kind);
    note_unless(best, well, name, Why::WrongType);
    Ok(if_well(well, found))
}

/// Values that a variable begins with.
fn braced_of(
    alloc: Global,
    scope: &Scope,
    best: &mut Option<TypingFault>,
    name: Span,
    entity: Entity,
    values: &CommaList<Expr>,
) -> Result<Option<TypedInitializer>, AllocError>
    ensures { Walked pure_initial best.old best.new result
        (also (braces_faults name entity (length (listed (comma_list_view view values.now)))) (onto pure.values (values_typing scope.now (listed (comma_list_view view values.now))))) }
{
    let found = braced(values_of(alloc, scope, best, values))?;
    let mut own = None;
    want_braces(&mut own, name, entity, item_count(values));
    Ok(unless_told(best, own, found))
}

/// How a variable begins.
fn initial_of(
    alloc: Global,
    scope: &Scope,
    best: &mut Option<TypingFault>,
    name: Span,
    entity: Entity,
    initial: &Option<Initializer>,
) -> Result<Option<TypedInitializer>, AllocError>
    ensures { Walked pure_initial best.old best.new result (initial_typing scope.now name entity (option_map initial_view initial.now)) }
{
    match initial {
        None => Ok(Some(TypedInitializer::Nothing)),
        Some(Initializer::Right { right, .. }) => {
            begun_of(alloc, scope, best, name, begins_with(entity), right)
        }
        Some(Initializer::Braced { values, .. }) => {
            braced_of(alloc, scope, best, name, entity, values)
        }
    }
}

/// One variable, which is then declared.
fn item_of(
    alloc: Global,
    scope: &mut Scope,
    best: &mut Option<TypingFault>,
    kind: VariableKind,
    one: &InitDeclarator,
) -> Result<Option<TypedInitDeclarator>, AllocError>
    ensures typed { Walked pure_item best.old best.new result (item_typing scope.old kind (item_view one.now)) }
    ensures scope { OnOk result (scope.new ≡ after_item scope.old kind (item_view one.now)) }
{
    let span = place_first_token(&one.place);
    let mut own = None;
    scope.want_free(&mut own, span);
    let length = length_in(scope, best, &one.place);
    let entity = declared_entity(scope, kind, &one.place);
    scope.declare(span, entity)?;
    let name = Bytes::from_slice(alloc, token_bytes(scope.text(), span))?;
    let initial = initial_of(alloc, scope, best, span, entity, &one.initial);
    let found = item(name, kind, both(Ok(length), initial))?;
    Ok(unless_told(best, own, found))
}

/// Variables of one kind, which are then declared.
fn items_of(
    alloc: Global,
    scope: &mut Scope,
    best: &mut Option<TypingFault>,
    kind: VariableKind,
    items: &CommaList<InitDeclarator>,
) -> Result<Option<Vec<TypedInitDeclarator>>, AllocError>
    ensures typed { Walked (λ all. map pure_item all.items) best.old best.new result (items_typing scope.old kind (listed (comma_list_view item_view items.now))) }
    ensures scope { OnOk result (scope.new ≡ after_declarators scope.old kind (listed (comma_list_view item_view items.now))) }
{
    let mut typed = Vec::new(alloc);
    let mut faulty = false;
    let first = item_of(alloc, scope, best, kind, &items.first)?;
    keep(&mut typed, &mut faulty, first)?;
    for behind in &items.more {
        let one = item_of(alloc, scope, best, kind, &behind.item)?;
        keep(&mut typed, &mut faulty, one)?;
    }
    Ok(all(typed, faulty))
}

/// A declaration, whose names are then declared.
pub fn declaration_of(
    alloc: Global,
    scope: &mut Scope,
    best: &mut Option<TypingFault>,
    one: &Declaration,
) -> Result<Option<TypedDeclaration>, AllocError>
    ensures typed { Walked pure_declaration best.old best.new result (declaration_typing scope.old (declaration_view one.now)) }
    ensures scope { OnOk result (scope.new ≡ after_declaration scope.old (declaration_view one.now)) }
{
    let kind = kind_of_symbol(one.kind);
    declaration(items_of(alloc, scope, best, kind, &one.items))
}
