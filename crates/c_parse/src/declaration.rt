//! The readers of declarations.
ghost use Rattle.std.specs.Prelude.{◌<◌, ◌-◌, true, option_map};
ghost use Rattle.c_grammar.specs.Tree as t;
ghost use Rattle.c_grammar.specs.StmtView.{declaration_view, initial_view, item_view, part_view};
ghost use Rattle.c_grammar.specs.Symbols.{is};
ghost use Rattle.c_grammar.specs.declared.terminal.Symbol.TheVariants as w;
ghost use Rattle.c_grammar.specs.Reading.{expr_at, maybe};
ghost use Rattle.c_grammar.specs.StmtReading.{read_declaration, read_initial, read_declarator};
ghost use Rattle.c_parse.specs.inside.Gives.{AgreesWithReading};
ghost use Rattle.c_parse.specs.inside.Declarations.{declared_of};

use crate::call::right;
use crate::comma_list::{InCommaList, comma_list};
use crate::expression::place;
use crate::read::{ParseError, ended, expected, heads, one_of, read, taken};
use crate::symbols::Class;
use c_grammar::statement::{Declaration, InitDeclarator, Initializer, Part};
use c_grammar::terminal::{Symbol, Terminal};
use std::alloc::Global;

/// A declaration without its `;`.
#[tactic(auto, unfolding(c_grammar::specs::StmtReading::read_declaration))]
pub fn declaration(
    alloc: Global,
    left: u8,
    terminals: &[Terminal],
) -> Result<(Declaration, &[Terminal]), ParseError>
    requires { 0 < left }
    ensures { AgreesWithReading (λ x. (declaration_view x.0, x.1.now)) result (read_declaration (expr_at left true) (expr_at (left - 1) true) terminals.now) }
{
    let (kind, rest) = read!(one_of(terminals, Class::Kind));
    let (items, rest) = read!(comma_list(alloc, left, rest));
    let declaration = Declaration {
        kind: kind.symbol,
        at: kind.span,
        items,
    };
    Ok((declaration, rest))
}

/// A declaration and its `;`.
#[tactic(auto, using(c_grammar::proofs::StmtViewed::stmt_views))]
pub fn declared(
    alloc: Global,
    left: u8,
    terminals: &[Terminal],
) -> Result<(Part, &[Terminal]), ParseError>
    requires { 0 < left }
    ensures { AgreesWithReading (λ x. (part_view x.0, x.1.now)) result (declared_of (expr_at left true) (expr_at (left - 1) true) terminals.now) }
{
    let ((declaration, end), rest) = read!(ended(
        declaration(alloc, left, terminals),
        Symbol::Semicolon
    ));
    Ok((Part::Declaration { declaration, end }, rest))
}

impl InCommaList for InitDeclarator {
    ghost use Rattle.c_grammar.proofs.Shorter.{item_shorter};

    ghost Tree = { t.InitDeclarator };

    ghost view = { item_view };

    ghost reading = { λ left. read_declarator (expr_at left true) (expr_at (left - 1) true) };

    ghost shorter = { item_shorter };

    #[tactic(auto, unfolding(c_grammar::specs::StmtReading::read_declarator))]
    fn read<'a>(
        alloc: Global,
        left: u8,
        terminals: &'a [Terminal],
    ) -> Result<(Self, &'a [Terminal]), ParseError<'a>> {
        let (place, rest) = read!(place(alloc, left, terminals));
        let (initial, rest) = read!(maybe_initial(alloc, left, rest));
        Ok((InitDeclarator { place, initial }, rest))
    }
}

/// What a declared name begins with, if anything.
fn maybe_initial(
    alloc: Global,
    left: u8,
    terminals: &[Terminal],
) -> Result<(Option<Initializer>, &[Terminal]), ParseError>
    requires { 0 < left }
    ensures { AgreesWithReading (λ x. (option_map initial_view x.0, x.1.now)) result
        (maybe (is w.Assign) (read_initial (expr_at left true) (expr_at (left - 1) true)) terminals.now) }
{
    if heads(terminals, Class::Is(Symbol::Assign)) {
        let (initial, rest) = read!(initial(alloc, left, terminals));
        Ok((Some(initial), rest))
    } else {
        Ok((None, terminals))
    }
}

#[tactic(auto, unfolding(c_grammar::specs::StmtReading::read_initial))]
fn initial(
    alloc: Global,
    left: u8,
    terminals: &[Terminal],
) -> Result<(Initializer, &[Terminal]), ParseError>
    requires { 0 < left }
    ensures { AgreesWithReading (λ x. (initial_view x.0, x.1.now)) result (read_initial (expr_at left true) (expr_at (left - 1) true) terminals.now) }
{
    let (mark, rest) = read!(expected(terminals, Symbol::Assign));
    if let Some((opening, rest)) = taken(rest, Symbol::OpenBrace) {
        let ((values, closing), rest) = read!(ended(
            comma_list(alloc, left, rest),
            Symbol::CloseBrace
        ));
        let braced = Initializer::Braced {
            mark,
            opening,
            values,
            closing,
        };
        Ok((braced, rest))
    } else {
        let (right, rest) = read!(right(alloc, left, rest));
        Ok((Initializer::Right { mark, right }, rest))
    }
}
