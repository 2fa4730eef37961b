//! The readers of jump statements: `break`, `continue` and `return`.
ghost use Rattle.std.specs.Prelude.{◌<◌, ◌-◌, true, option_map};
ghost use Rattle.c_grammar.specs.StmtView.{right_view, stmt_view};
ghost use Rattle.c_grammar.specs.Symbols.{isnt};
ghost use Rattle.c_grammar.specs.declared.terminal.Symbol.TheVariants as w;
ghost use Rattle.c_grammar.specs.Reading.{expr_at, maybe};
ghost use Rattle.c_grammar.specs.StmtReading.{read_break, read_continue, read_return, read_right};
ghost use Rattle.c_parse.specs.inside.Gives.{AgreesWithReading};

use crate::call::right;
use crate::read::{ParseError, ended, expected, heads, read};
use crate::symbols::Class;
use c_grammar::statement::{Right, Stmt};
use c_grammar::terminal::{Symbol, Terminal};
use std::alloc::Global;

#[tactic(auto, using(c_grammar::proofs::StmtViewed::stmt_views))]
pub fn break_statement(terminals: &[Terminal]) -> Result<(Stmt, &[Terminal]), ParseError>
    ensures { AgreesWithReading (λ x. (stmt_view x.0, x.1.now)) result (read_break terminals.now) }
{
    let ((keyword, end), rest) = read!(ended(
        expected(terminals, Symbol::Break),
        Symbol::Semicolon
    ));
    Ok((Stmt::Break { keyword, end }, rest))
}

#[tactic(auto, using(c_grammar::proofs::StmtViewed::stmt_views))]
pub fn continue_statement(terminals: &[Terminal]) -> Result<(Stmt, &[Terminal]), ParseError>
    ensures { AgreesWithReading (λ x. (stmt_view x.0, x.1.now)) result (read_continue terminals.now) }
{
    let ((keyword, end), rest) = read!(ended(
        expected(terminals, Symbol::Continue),
        Symbol::Semicolon
    ));
    Ok((Stmt::Continue { keyword, end }, rest))
}

#[tactic(auto, using(c_grammar::proofs::StmtViewed::stmt_views))]
pub fn return_statement(
    alloc: Global,
    left: u8,
    terminals: &[Terminal],
) -> Result<(Stmt, &[Terminal]), ParseError>
    requires { 0 < left }
    ensures { AgreesWithReading (λ x. (stmt_view x.0, x.1.now)) result (read_return (expr_at left true) (expr_at (left - 1) true) terminals.now) }
{
    let (keyword, rest) = read!(expected(terminals, Symbol::Return));
    let ((value, end), rest) = read!(ended(value(alloc, left, rest), Symbol::Semicolon));
    Ok((
        Stmt::Return {
            keyword,
            value,
            end,
        },
        rest,
    ))
}

/// What a function returns, if anything.
fn value(
    alloc: Global,
    left: u8,
    terminals: &[Terminal],
) -> Result<(Option<Right>, &[Terminal]), ParseError>
    requires { 0 < left }
    ensures { AgreesWithReading (λ x. (option_map right_view x.0, x.1.now)) result
        (maybe (isnt w.Semicolon) (read_right (expr_at left true) (expr_at (left - 1) true)) terminals.now) }
{
    if heads(terminals, Class::Isnt(Symbol::Semicolon)) {
        let (right, rest) = read!(right(alloc, left, terminals));
        Ok((Some(right), rest))
    } else {
        Ok((None, terminals))
    }
}
