//! Typing of statements and blocks in one walk: the typed form, or none where something is faulty.
//! `gives`: the function gives an int; `loops`: a loop stands around.
ghost use Rattle.std.specs.Prelude.{◌≡◌, OnOk, Some, option_map, true};
ghost use Rattle.c_grammar.specs.StmtView.{part_view, parts_view, right_view, simple_view, start_view, stmt_view};
ghost use Rattle.c_grammar.specs.View.{view};
ghost use Rattle.c_program.specs.Tree as pure;
ghost use Rattle.c_program.specs.View.{pure_declaration, pure_expr, pure_part, pure_parts, pure_right, pure_simple, pure_start, pure_stmt};
ghost use Rattle.c_scope.specs.Scopes.{opened};
ghost use Rattle.c_scope.specs.Typing.{four, onto};
ghost use Rattle.c_scope.specs.Walks.{Gives, Walked, mapped};
ghost use Rattle.c_type_stmt.specs.Declarations.{after_part, after_parts, after_start};
ghost use Rattle.c_type_stmt.specs.StmtTyping.{in_loop, part_typing, parts_typing, return_typing, start_typing, step_typing, stmt_typing, test_typing};

use crate::declaration::declaration_of;
use crate::simple::simple_of;
use c_grammar::statement::{ForStart, Part, Right, Simple, Stmt};
use c_grammar::terminal::Span;
use c_grammar::tree::Expr;
use c_lex::Why;
use c_names::kind::VariableKind;
use c_program::expr::{TypedExpr, TypedRight};
use c_program::statement::{TypedDeclaration, TypedForStart, TypedPart, TypedSimple, TypedStmt};
use c_scope::fault::{TypingFault, note_at, note_unless};
use c_scope::joins::{all, both, if_well, in_box, keep};
use c_scope::meaning::ExprKind;
use c_scope::scope::Scope;
use c_type_expr::call::{right_first_token, right_of};
use c_type_expr::expression::int_of;
use std::alloc::{AllocError, Global};

// ---- parts of statements from their parts

/// What may be left out, where it is there.
fn given<T: Drop>(found: Result<Option<T>, AllocError>) -> Result<Option<Option<T>>, AllocError>
    ensures { result ≡ mapped (λ one. Some one) found }
{
    match found? {
        Some(one) => Ok(Some(Some(one))),
        None => Ok(None),
    }
}

/// A declaration that a `for` begins with.
fn declared_start(
    found: Result<Option<TypedDeclaration>, AllocError>,
) -> Result<Option<TypedForStart>, AllocError>
    ensures { mapped pure_start result ≡ mapped (λ one. pure.declared_start (pure_declaration one)) found }
{
    match found? {
        Some(declaration) => Ok(Some(TypedForStart::Declaration(declaration))),
        None => Ok(None),
    }
}

/// A simple statement that a `for` begins with.
fn simple_start(
    found: Result<Option<TypedSimple>, AllocError>,
) -> Result<Option<TypedForStart>, AllocError>
    ensures { mapped pure_start result ≡ mapped (λ one. pure.simple_start (pure_simple one)) found }
{
    match found? {
        Some(simple) => Ok(Some(TypedForStart::Simple(simple))),
        None => Ok(None),
    }
}

/// A declaration in a block.
#[tactic(auto, using(c_program::proofs::StmtViewed::stmt_views))]
fn declared_part(
    found: Result<Option<TypedDeclaration>, AllocError>,
) -> Result<Option<TypedPart>, AllocError>
    ensures { mapped pure_part result ≡ mapped (λ one. pure.declare (pure_declaration one)) found }
{
    match found? {
        Some(declaration) => Ok(Some(TypedPart::Declaration(declaration))),
        None => Ok(None),
    }
}

/// A statement in a block.
#[tactic(auto, using(c_program::proofs::StmtViewed::stmt_views))]
fn stmt_part(found: Result<Option<TypedStmt>, AllocError>) -> Result<Option<TypedPart>, AllocError>
    ensures { mapped pure_part result ≡ mapped (λ one. pure.stmt (pure_stmt one)) found }
{
    match found? {
        Some(stmt) => Ok(Some(TypedPart::Stmt(stmt))),
        None => Ok(None),
    }
}

// ---- statements from their parts

/// A block of its parts.
#[tactic(auto, using(c_program::proofs::StmtViewed::stmt_views))]
fn block(parts: Result<Option<Vec<TypedPart>>, AllocError>) -> Result<Option<TypedStmt>, AllocError>
    ensures { mapped pure_stmt result ≡ mapped (λ all. pure.block (pure_parts all.items)) parts }
{
    match parts? {
        Some(parts) => Ok(Some(TypedStmt::Block(parts))),
        None => Ok(None),
    }
}

/// A simple statement.
#[tactic(auto, using(c_program::proofs::StmtViewed::stmt_views))]
fn simple(found: Result<Option<TypedSimple>, AllocError>) -> Result<Option<TypedStmt>, AllocError>
    ensures { mapped pure_stmt result ≡ mapped (λ one. pure.simple (pure_simple one)) found }
{
    match found? {
        Some(simple) => Ok(Some(TypedStmt::Simple(simple))),
        None => Ok(None),
    }
}

/// A `return` and what it gives back.
#[tactic(auto, using(c_program::proofs::StmtViewed::stmt_views))]
fn returned(
    value: Result<Option<Option<TypedRight>>, AllocError>,
) -> Result<Option<TypedStmt>, AllocError>
    ensures { mapped pure_stmt result ≡ mapped (λ one. pure.return (option_map pure_right one)) value }
{
    match value? {
        Some(value) => Ok(Some(TypedStmt::Return(value))),
        None => Ok(None),
    }
}

/// An `if` alone.
#[tactic(auto, using(c_program::proofs::StmtViewed::stmt_views))]
fn if_only(
    parts: Result<Option<(TypedExpr, Box<TypedStmt>)>, AllocError>,
) -> Result<Option<TypedStmt>, AllocError>
    ensures { mapped pure_stmt result ≡ mapped (λ both. pure.if_only (pure_expr both.0) (pure_stmt both.1.value)) parts }
{
    match parts? {
        Some((test, then)) => Ok(Some(TypedStmt::If { test, then })),
        None => Ok(None),
    }
}

/// An `if` with an `else`.
#[tactic(auto, using(c_program::proofs::StmtViewed::stmt_views))]
fn if_else(
    parts: Result<Option<((TypedExpr, Box<TypedStmt>), Box<TypedStmt>)>, AllocError>,
) -> Result<Option<TypedStmt>, AllocError>
    ensures { mapped pure_stmt result ≡ mapped (λ all. pure.if_else (pure_expr all.0.0) (pure_stmt all.0.1.value) (pure_stmt all.1.value)) parts }
{
    match parts? {
        Some(((test, then), other)) => Ok(Some(TypedStmt::IfElse { test, then, other })),
        None => Ok(None),
    }
}

/// A `while`.
#[tactic(auto, using(c_program::proofs::StmtViewed::stmt_views))]
fn while_loop(
    parts: Result<Option<(TypedExpr, Box<TypedStmt>)>, AllocError>,
) -> Result<Option<TypedStmt>, AllocError>
    ensures { mapped pure_stmt result ≡ mapped (λ both. pure.while (pure_expr both.0) (pure_stmt both.1.value)) parts }
{
    match parts? {
        Some((test, body)) => Ok(Some(TypedStmt::While { test, body })),
        None => Ok(None),
    }
}

/// A `do`.
#[tactic(auto, using(c_program::proofs::StmtViewed::stmt_views))]
fn do_loop(
    parts: Result<Option<(Box<TypedStmt>, TypedExpr)>, AllocError>,
) -> Result<Option<TypedStmt>, AllocError>
    ensures { mapped pure_stmt result ≡ mapped (λ both. pure.do_while (pure_stmt both.0.value) (pure_expr both.1)) parts }
{
    match parts? {
        Some((body, test)) => Ok(Some(TypedStmt::Do { body, test })),
        None => Ok(None),
    }
}

/// How a `for` begins, its test, its step and its body.
type ForParts = (
    ((TypedForStart, Option<TypedExpr>), Option<TypedSimple>),
    Box<TypedStmt>,
);

/// A `for`.
#[tactic(auto, using(c_program::proofs::StmtViewed::stmt_views))]
fn for_loop(parts: Result<Option<ForParts>, AllocError>) -> Result<Option<TypedStmt>, AllocError>
    ensures { mapped pure_stmt result
        ≡ mapped (λ all. pure.for (pure_start all.0.0.0) (option_map pure_expr all.0.0.1) (option_map pure_simple all.0.1) (pure_stmt all.1.value)) parts }
{
    match parts? {
        Some((((start, test), step), body)) => Ok(Some(TypedStmt::For {
            start,
            test,
            step,
            body,
        })),
        None => Ok(None),
    }
}

// ---- the walk of parts

/// What is given back.
fn return_of(
    alloc: Global,
    scope: &Scope,
    best: &mut Option<TypingFault>,
    gives: bool,
    value: &Option<Right>,
) -> Result<Option<Option<TypedRight>>, AllocError>
    ensures { Walked (option_map pure_right) best.old best.new result (return_typing scope.now gives (option_map right_view value.now)) }
{
    match value {
        None => Ok(Some(None)),
        Some(right) => {
            if gives {
                let takes = ExprKind::Of(VariableKind::Int);
                given(right_of(alloc, scope, best, takes, right))
            } else {
                let found = given(right_of(alloc, scope, best, ExprKind::Nothing, right))?;
                note_at(best, right_first_token(right), Why::WrongType);
                Ok(if_well(false, found))
            }
        }
    }
}

/// How a `for` begins; what it declares stays in the scope.
fn start_of(
    alloc: Global,
    scope: &mut Scope,
    best: &mut Option<TypingFault>,
    start: &ForStart,
) -> Result<Option<TypedForStart>, AllocError>
    ensures typed { Walked pure_start best.old best.new result (start_typing scope.old (start_view start.now)) }
    ensures scope { OnOk result (scope.new ≡ after_start scope.old (start_view start.now)) }
{
    match start {
        ForStart::Nothing => Ok(Some(TypedForStart::Nothing)),
        ForStart::Declaration(declaration) => {
            declared_start(declaration_of(alloc, scope, best, declaration))
        }
        ForStart::Simple(simple) => simple_start(simple_of(alloc, scope, best, simple)),
    }
}

/// The test of a `for`.
fn test_of(
    alloc: Global,
    scope: &Scope,
    best: &mut Option<TypingFault>,
    test: &Option<Expr>,
) -> Result<Option<Option<TypedExpr>>, AllocError>
    ensures { Walked (option_map pure_expr) best.old best.new result (test_typing scope.now (option_map view test.now)) }
{
    match test {
        None => Ok(Some(None)),
        Some(e) => given(int_of(alloc, scope, best, e)),
    }
}

/// The step of a `for`.
fn step_of(
    alloc: Global,
    scope: &Scope,
    best: &mut Option<TypingFault>,
    step: &Option<Simple>,
) -> Result<Option<Option<TypedSimple>>, AllocError>
    ensures { Walked (option_map pure_simple) best.old best.new result (step_typing scope.now (option_map simple_view step.now)) }
{
    match step {
        None => Ok(Some(None)),
        Some(simple) => given(simple_of(alloc, scope, best, simple)),
    }
}

/// What may stand in a loop alone.
fn in_loop(
    best: &mut Option<TypingFault>,
    loops: bool,
    keyword: Span,
    stmt: TypedStmt,
) -> Option<TypedStmt>
    ensures { Gives best.old best.new (option_map pure_stmt result) (in_loop loops keyword (pure_stmt stmt)) }
{
    note_unless(best, loops, keyword, Why::WrongType);
    if_well(loops, Some(stmt))
}

// ---- the walk of statements

/// A statement.
#[cycle(statement)]
fn stmt_of(
    alloc: Global,
    scope: &mut Scope,
    best: &mut Option<TypingFault>,
    gives: bool,
    loops: bool,
    stmt: &Stmt,
) -> Result<Option<TypedStmt>, AllocError>
    ensures typed { Walked pure_stmt best.old best.new result (stmt_typing scope.old gives loops (stmt_view stmt.now)) }
    ensures scope { OnOk result (scope.new ≡ scope.old) }
{
    match stmt {
        Stmt::Block { parts, .. } => block_of(alloc, scope, best, gives, loops, parts),
        Stmt::Empty(_) => Ok(Some(TypedStmt::Empty)),
        Stmt::Simple { simple: one, .. } => simple(simple_of(alloc, scope, best, one)),
        Stmt::Break { keyword, .. } => Ok(in_loop(best, loops, *keyword, TypedStmt::Break)),
        Stmt::Continue { keyword, .. } => Ok(in_loop(best, loops, *keyword, TypedStmt::Continue)),
        Stmt::Return { value, .. } => returned(return_of(alloc, scope, best, gives, value)),
        Stmt::If { test, then, .. } => if_only(both(
            int_of(alloc, scope, best, test),
            boxed_of(alloc, scope, best, gives, loops, then),
        )),
        Stmt::IfElse {
            test,
            then,
            other,
            ..
        } => if_else(both(
            both(
                int_of(alloc, scope, best, test),
                boxed_of(alloc, scope, best, gives, loops, then),
            ),
            boxed_of(alloc, scope, best, gives, loops, other),
        )),
        Stmt::While { test, body, .. } => while_loop(both(
            int_of(alloc, scope, best, test),
            boxed_of(alloc, scope, best, gives, true, body),
        )),
        Stmt::Do { test, body, .. } => do_loop(both(
            boxed_of(alloc, scope, best, gives, true, body),
            int_of(alloc, scope, best, test),
        )),
        Stmt::For {
            start,
            test,
            step,
            body,
            ..
        } => for_of(alloc, scope, best, gives, start, test, step, body),
    }
}

/// A block, in a scope of its own.
#[cycle(statement)]
fn block_of(
    alloc: Global,
    scope: &mut Scope,
    best: &mut Option<TypingFault>,
    gives: bool,
    loops: bool,
    parts: &[Part],
) -> Result<Option<TypedStmt>, AllocError>
    ensures typed { Walked pure_stmt best.old best.new result (onto pure.block (parts_typing (opened scope.old) gives loops (parts_view parts.now))) }
    ensures scope { OnOk result (scope.new ≡ scope.old) }
{
    scope.open()?;
    let found = parts_of(alloc, scope, best, gives, loops, parts);
    scope.close();
    block(found)
}

/// A `for`, in a scope of its own.
#[cycle(statement)]
fn for_of(
    alloc: Global,
    scope: &mut Scope,
    best: &mut Option<TypingFault>,
    gives: bool,
    start: &ForStart,
    test: &Option<Expr>,
    step: &Option<Simple>,
    body: &Stmt,
) -> Result<Option<TypedStmt>, AllocError>
    ensures typed { Walked pure_stmt best.old best.new result
        (four pure.for (start_typing (opened scope.old) (start_view start.now)) (test_typing (after_start (opened scope.old) (start_view start.now)) (option_map view test.now))
        (step_typing (after_start (opened scope.old) (start_view start.now)) (option_map simple_view step.now))
        (stmt_typing (after_start (opened scope.old) (start_view start.now)) gives true (stmt_view body.now))) }
    ensures scope { OnOk result (scope.new ≡ scope.old) }
{
    scope.open()?;
    let start = start_of(alloc, scope, best, start);
    let test = both(start, test_of(alloc, scope, best, test));
    let head = both(test, step_of(alloc, scope, best, step));
    let found = both(head, boxed_of(alloc, scope, best, gives, true, body));
    scope.close();
    for_loop(found)
}

/// A statement in a box.
#[cycle(statement)]
fn boxed_of(
    alloc: Global,
    scope: &mut Scope,
    best: &mut Option<TypingFault>,
    gives: bool,
    loops: bool,
    stmt: &Stmt,
) -> Result<Option<Box<TypedStmt>>, AllocError>
    ensures typed { Walked (λ one. pure_stmt one.value) best.old best.new result (stmt_typing scope.old gives loops (stmt_view stmt.now)) }
    ensures scope { OnOk result (scope.new ≡ scope.old) }
{
    in_box(alloc, stmt_of(alloc, scope, best, gives, loops, stmt))
}

/// What a block holds.
#[cycle(statement)]
fn part_of(
    alloc: Global,
    scope: &mut Scope,
    best: &mut Option<TypingFault>,
    gives: bool,
    loops: bool,
    part: &Part,
) -> Result<Option<TypedPart>, AllocError>
    ensures typed { Walked pure_part best.old best.new result (part_typing scope.old gives loops (part_view part.now)) }
    ensures scope { OnOk result (scope.new ≡ after_part scope.old (part_view part.now)) }
{
    match part {
        Part::Declaration { declaration, .. } => {
            declared_part(declaration_of(alloc, scope, best, declaration))
        }
        Part::Stmt(stmt) => stmt_part(stmt_of(alloc, scope, best, gives, loops, stmt)),
    }
}

/// The parts of a block, which stand in an open scope; what they declare stays in it.
#[cycle(statement)]
pub fn parts_of(
    alloc: Global,
    scope: &mut Scope,
    best: &mut Option<TypingFault>,
    gives: bool,
    loops: bool,
    parts: &[Part],
) -> Result<Option<Vec<TypedPart>>, AllocError>
    ensures typed { Walked (λ all. pure_parts all.items) best.old best.new result (parts_typing scope.old gives loops (parts_view parts.now)) }
    ensures scope { OnOk result (scope.new ≡ after_parts scope.old (parts_view parts.now)) }
{
    let mut typed = Vec::new(alloc);
    let mut faulty = false;
    for part in parts {
        let one = part_of(alloc, scope, best, gives, loops, part)?;
        keep(&mut typed, &mut faulty, one)?;
    }
    Ok(all(typed, faulty))
}
