//! The readers of statements.
ghost use Rattle.std.specs.Prelude.{◌<◌, ◌-◌, true, map};
ghost use Rattle.c_grammar.specs.Tree as t;
ghost use Rattle.c_grammar.specs.View.{view};
ghost use Rattle.c_grammar.specs.StmtView.{part_view, stmt_view};
ghost use Rattle.c_grammar.specs.Symbols.{isnt, starts_part, starts_stmt};
ghost use Rattle.c_grammar.specs.declared.terminal.Symbol.TheVariants as w;
ghost use Rattle.c_grammar.specs.Reading.{expr_at, many, too_deep};
ghost use Rattle.c_grammar.specs.StmtReading.{if_head, read_block, read_do, read_else, read_for, read_if, part_at, read_part, stmt_at, read_stmt, read_while_loop};
ghost use Rattle.c_parse.specs.inside.Blocks.{block_view, braces_of};
ghost use Rattle.c_parse.specs.inside.Gives.{FailsToRead, AgreesWithReading};

use crate::declaration::declared;
use crate::jump::{break_statement, continue_statement, return_statement};
use crate::read::{ParseError, both, boxed, ended, expected, first_of, heads, push, read, taken};
use crate::simple::{empty, plain};
use crate::statement_head::{TestHead, for_head, test_head, until};
use crate::symbols::{Class, starts_part, starts_stmt};
use c_grammar::statement::{Part, Stmt};
use c_grammar::terminal::{Span, Symbol, Terminal};
use c_lex::Why;
use std::alloc::Global;

/// What a block holds, and its braces.
#[derive(Drop)]
pub struct BlockParts {
    pub opening: Span,
    pub parts: Vec<Part>,
    pub closing: Span,
}

/// An `if` without its else.
#[derive(Drop)]
struct Branch {
    head: TestHead,
    then: Box<Stmt>,
}

/// A statement with `left` depths left.
#[cycle(statement)]
#[tactic(auto, unfolding(c_grammar::specs::StmtReading::stmt_at), using(crate::proofs::StmtLeft::stmt_more))]
fn stmt(alloc: Global, left: u8, terminals: &[Terminal]) -> Result<(Stmt, &[Terminal]), ParseError>
    ensures { AgreesWithReading (λ x. (stmt_view x.0, x.1.now)) result (stmt_at left terminals.now) }
{
    if left == 0 {
        return Err(deep_stmt(terminals));
    }
    body(alloc, left, terminals)
}

/// A statement one depth deeper.
#[cycle(statement)]
fn inner(
    alloc: Global,
    left: u8,
    terminals: &[Terminal],
) -> Result<(Box<Stmt>, &[Terminal]), ParseError>
    requires { 0 < left }
    ensures { AgreesWithReading (λ x. (stmt_view x.0.value, x.1.now)) result (stmt_at (left - 1) terminals.now) }
{
    let (tree, rest) = read!(stmt(alloc, left - 1, terminals));
    let Ok(tree) = boxed(alloc, tree) else {
        return Err(ParseError::Memory);
    };
    Ok((tree, rest))
}

#[cycle(statement)]
#[tactic(auto, unfolding(c_grammar::specs::StmtReading::read_stmt))]
fn body(alloc: Global, left: u8, terminals: &[Terminal]) -> Result<(Stmt, &[Terminal]), ParseError>
    requires { 0 < left }
    ensures { AgreesWithReading (λ x. (stmt_view x.0, x.1.now)) result
        (read_stmt (expr_at left true) (expr_at (left - 1) true) (stmt_at (left - 1)) (part_at (left - 1)) terminals.now) }
{
    match first_of(terminals) {
        Some(Symbol::OpenBrace) => block_statement(alloc, left, terminals),
        Some(Symbol::Semicolon) => empty(terminals),
        Some(Symbol::Break) => break_statement(terminals),
        Some(Symbol::Continue) => continue_statement(terminals),
        Some(Symbol::Return) => return_statement(alloc, left, terminals),
        Some(Symbol::If) => if_statement(alloc, left, terminals),
        Some(Symbol::While) => while_statement(alloc, left, terminals),
        Some(Symbol::Do) => do_statement(alloc, left, terminals),
        Some(Symbol::For) => for_statement(alloc, left, terminals),
        _ => plain(alloc, left, terminals),
    }
}

#[cycle(statement)]
#[tactic(auto, using(crate::proofs::ByHead::block_by_braces, c_grammar::proofs::StmtViewed::stmt_views))]
fn block_statement(
    alloc: Global,
    left: u8,
    terminals: &[Terminal],
) -> Result<(Stmt, &[Terminal]), ParseError>
    requires { 0 < left }
    ensures { AgreesWithReading (λ x. (stmt_view x.0, x.1.now)) result (read_block (part_at (left - 1)) terminals.now) }
{
    let (block, rest) = read!(block(alloc, left - 1, terminals));
    let block = Stmt::Block {
        opening: block.opening,
        parts: block.parts,
        closing: block.closing,
    };
    Ok((block, rest))
}

/// Braces and what they hold, with `left` depths left.
#[cycle(statement)]
#[tactic(auto, unfolding(crate::specs::inside::Blocks::braces_of))]
pub fn block(
    alloc: Global,
    left: u8,
    terminals: &[Terminal],
) -> Result<(BlockParts, &[Terminal]), ParseError>
    ensures { AgreesWithReading (λ x. (block_view x.0, x.1.now)) result (braces_of (part_at left) terminals.now) }
{
    let (opening, rest) = read!(expected(terminals, Symbol::OpenBrace));
    let ((parts, closing), rest) = read!(ended(parts(alloc, left, rest), Symbol::CloseBrace));
    let block = BlockParts {
        opening,
        parts,
        closing,
    };
    Ok((block, rest))
}

/// What a block holds, up to its `}`, with `left` depths left.
#[cycle(statement)]
fn parts(
    alloc: Global,
    left: u8,
    terminals: &[Terminal],
) -> Result<(Vec<Part>, &[Terminal]), ParseError>
    ensures { AgreesWithReading (λ x. (map part_view x.0.items, x.1.now)) result (many (isnt w.CloseBrace) (part_at left) terminals.now) }
{
    let mut found = Vec::new(alloc);
    let mut rest = terminals;
    while heads(rest, Class::Isnt(Symbol::CloseBrace)) {
        let (one, after) = read!(part(alloc, left, rest));
        push(&mut found, one)?;
        rest = after;
    }
    Ok((found, rest))
}

#[cycle(statement)]
#[tactic(auto, unfolding(c_grammar::specs::StmtReading::part_with, c_grammar::specs::StmtReading::read_part), using(crate::proofs::StmtLeft::part_more, c_grammar::proofs::StmtViewed::stmt_views))]
fn part(alloc: Global, left: u8, terminals: &[Terminal]) -> Result<(Part, &[Terminal]), ParseError>
    ensures { AgreesWithReading (λ x. (part_view x.0, x.1.now)) result (part_at left terminals.now) }
{
    if left == 0 {
        return Err(deep_part(terminals));
    }
    if heads(terminals, Class::Kind) {
        declared(alloc, left, terminals)
    } else {
        let (inner, rest) = read!(stmt(alloc, left, terminals));
        Ok((Part::Stmt(inner), rest))
    }
}

#[cycle(statement)]
#[tactic(auto, using(crate::proofs::ByHead::if_by_head))]
fn if_statement(
    alloc: Global,
    left: u8,
    terminals: &[Terminal],
) -> Result<(Stmt, &[Terminal]), ParseError>
    requires { 0 < left }
    ensures { AgreesWithReading (λ x. (stmt_view x.0, x.1.now)) result (read_if (expr_at left true) (stmt_at (left - 1)) terminals.now) }
{
    let (head, rest) = read!(test_head(alloc, left, Symbol::If, terminals));
    let ((head, then), rest) = read!(both(head, inner(alloc, left, rest)));
    otherwise(alloc, left, Branch { head, then }, rest)
}

/// What is after the statement of an `if`.
#[cycle(statement)]
#[tactic(auto, using(c_grammar::proofs::StmtViewed::stmt_views))]
fn otherwise(
    alloc: Global,
    left: u8,
    branch: Branch,
    terminals: &[Terminal],
) -> Result<(Stmt, &[Terminal]), ParseError>
    requires { 0 < left }
    ensures { AgreesWithReading (λ x. (stmt_view x.0, x.1.now)) result
        (read_else (stmt_at (left - 1)) (if_head branch.head.keyword branch.head.opening (view branch.head.test) branch.head.closing)
        (stmt_view branch.then.value) terminals.now) }
{
    if let Some((else_keyword, rest)) = taken(terminals, Symbol::Else) {
        let ((branch, other), rest) = read!(both(branch, inner(alloc, left, rest)));
        let Branch { head, then } = branch;
        let full = Stmt::IfElse {
            keyword: head.keyword,
            opening: head.opening,
            test: head.test,
            closing: head.closing,
            then,
            else_keyword,
            other,
        };
        Ok((full, rest))
    } else {
        let Branch { head, then } = branch;
        let alone = Stmt::If {
            keyword: head.keyword,
            opening: head.opening,
            test: head.test,
            closing: head.closing,
            then,
        };
        Ok((alone, terminals))
    }
}

#[cycle(statement)]
#[tactic(auto, using(crate::proofs::ByHead::while_by_head, c_grammar::proofs::StmtViewed::stmt_views))]
fn while_statement(
    alloc: Global,
    left: u8,
    terminals: &[Terminal],
) -> Result<(Stmt, &[Terminal]), ParseError>
    requires { 0 < left }
    ensures { AgreesWithReading (λ x. (stmt_view x.0, x.1.now)) result (read_while_loop (expr_at left true) (stmt_at (left - 1)) terminals.now) }
{
    let (head, rest) = read!(test_head(alloc, left, Symbol::While, terminals));
    let ((head, body), rest) = read!(both(head, inner(alloc, left, rest)));
    let repeat = Stmt::While {
        keyword: head.keyword,
        opening: head.opening,
        test: head.test,
        closing: head.closing,
        body,
    };
    Ok((repeat, rest))
}

#[cycle(statement)]
#[tactic(auto, using(crate::proofs::ByHead::do_by_head, c_grammar::proofs::StmtViewed::stmt_views))]
fn do_statement(
    alloc: Global,
    left: u8,
    terminals: &[Terminal],
) -> Result<(Stmt, &[Terminal]), ParseError>
    requires { 0 < left }
    ensures { AgreesWithReading (λ x. (stmt_view x.0, x.1.now)) result (read_do (expr_at left true) (stmt_at (left - 1)) terminals.now) }
{
    let (keyword, rest) = read!(expected(terminals, Symbol::Do));
    let (body, rest) = read!(inner(alloc, left, rest));
    let ((body, (head, end)), rest) = read!(both(body, until(alloc, left, rest)));
    let repeat = Stmt::Do {
        keyword,
        body,
        while_keyword: head.keyword,
        opening: head.opening,
        test: head.test,
        closing: head.closing,
        end,
    };
    Ok((repeat, rest))
}

#[cycle(statement)]
#[tactic(auto, using(crate::proofs::ByHead::for_by_head, c_grammar::proofs::StmtViewed::stmt_views))]
fn for_statement(
    alloc: Global,
    left: u8,
    terminals: &[Terminal],
) -> Result<(Stmt, &[Terminal]), ParseError>
    requires { 0 < left }
    ensures { AgreesWithReading (λ x. (stmt_view x.0, x.1.now)) result
        (read_for (expr_at left true) (expr_at (left - 1) true) (stmt_at (left - 1)) terminals.now) }
{
    let (head, rest) = read!(for_head(alloc, left, terminals));
    let ((head, body), rest) = read!(both(head, inner(alloc, left, rest)));
    let repeat = Stmt::For {
        keyword: head.keyword,
        opening: head.opening,
        start: head.start.0,
        start_end: head.start.1,
        test: head.test.0,
        test_end: head.test.1,
        step: head.step.0,
        closing: head.step.1,
        body,
    };
    Ok((repeat, rest))
}

/// A statement that is too deep.
#[tactic(auto, unfolding(c_grammar::specs::Reading::too_deep))]
fn deep_stmt(terminals: &[Terminal]) -> ParseError
    ensures { FailsToRead result (too_deep {A = t.Stmt} starts_stmt terminals.now) }
{
    match first_of(terminals) {
        Some(symbol) => {
            if starts_stmt(symbol) {
                ParseError::At(Why::TooDeep, terminals)
            } else {
                ParseError::At(Why::Unexpected, terminals)
            }
        }
        None => ParseError::At(Why::Unexpected, terminals),
    }
}

/// What is too deep in a block.
#[tactic(auto, unfolding(c_grammar::specs::Reading::too_deep))]
fn deep_part(terminals: &[Terminal]) -> ParseError
    ensures { FailsToRead result (too_deep {A = t.Part} starts_part terminals.now) }
{
    match first_of(terminals) {
        Some(symbol) => {
            if starts_part(symbol) {
                ParseError::At(Why::TooDeep, terminals)
            } else {
                ParseError::At(Why::Unexpected, terminals)
            }
        }
        None => ParseError::At(Why::Unexpected, terminals),
    }
}
