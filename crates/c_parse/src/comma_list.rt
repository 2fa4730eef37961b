//! Things with a comma between each two.
ghost use Rattle.std.specs.Prelude.{◌≡◌, ◌<◌, ◌≤◌, ℕ, List, Ok, length, map};
ghost use Rattle.c_grammar.specs.declared.terminal.Terminal.{Terminal};
ghost use Rattle.c_grammar.specs.declared.terminal.Symbol.TheVariants.{Comma};
ghost use Rattle.c_grammar.specs.StmtView.{comma_list_view};
ghost use Rattle.c_grammar.specs.Symbols.{is};
ghost use Rattle.c_grammar.specs.Reading.{Answer, many};
ghost use Rattle.c_grammar.specs.StmtReading.{read_after_comma, read_comma_list};
ghost use Rattle.c_parse.specs.inside.Gives.{AgreesWithReading};

use crate::read::{ParseError, expected, heads, push, read};
use crate::symbols::Class;
use c_grammar::statement::{AfterComma, CommaList};
use c_grammar::terminal::{Symbol, Terminal};
use std::alloc::Global;

/// What is listed with commas.
pub trait InCommaList: Sized + Drop {
    /// What contracts see of it.
    ghost Tree: { Type 0 };

    ghost view: { Self → Tree };

    /// How it is read, with some depths left.
    ghost reading: { ℕ → List Terminal → Answer Tree };

    /// One of them, with `left` depths left.
    fn read<'a>(
        alloc: Global,
        left: u8,
        terminals: &'a [Terminal],
    ) -> Result<(Self, &'a [Terminal]), ParseError<'a>>
        requires { 0 < left }
        ensures { AgreesWithReading (λ x. (view x.0, x.1.now)) result (reading left terminals.now) };

    // Reading stops at or after where it began.
    ghost shorter: { (left : ℕ) (terminals : List Terminal) (read : Tree × List Terminal)
        → 0 < left → reading left terminals ≡ Ok read → length read.1 ≤ length terminals };
}

/// One or more.
pub fn comma_list<T: InCommaList>(
    alloc: Global,
    left: u8,
    terminals: &[Terminal],
) -> Result<(CommaList<T>, &[Terminal]), ParseError>
    requires { 0 < left }
    ensures { AgreesWithReading (λ x. (comma_list_view T.view x.0, x.1.now)) result (read_comma_list (T.reading left) terminals.now) }
{
    let (first, rest) = read!(T::read(alloc, left, terminals));
    let (more, rest) = read!(others(alloc, left, rest));
    Ok((CommaList { first, more }, rest))
}

/// The others, each after a comma.
fn others<T: InCommaList>(
    alloc: Global,
    left: u8,
    terminals: &[Terminal],
) -> Result<(Vec<AfterComma<T>>, &[Terminal]), ParseError>
    requires { 0 < left }
    ensures { AgreesWithReading (λ x. (map (λ one. (one.comma, T.view one.item)) x.0.items, x.1.now)) result
        (many (is Comma) (read_after_comma (T.reading left)) terminals.now) }
{
    let mut found = Vec::new(alloc);
    let mut rest = terminals;
    while heads(rest, Class::Is(Symbol::Comma)) {
        let (one, after) = read!(after_comma(alloc, left, rest));
        push(&mut found, one)?;
        rest = after;
    }
    Ok((found, rest))
}

/// A comma and what is after it.
fn after_comma<T: InCommaList>(
    alloc: Global,
    left: u8,
    terminals: &[Terminal],
) -> Result<(AfterComma<T>, &[Terminal]), ParseError>
    requires { 0 < left }
    ensures { AgreesWithReading (λ x. ((x.0.comma, T.view x.0.item), x.1.now)) result (read_after_comma (T.reading left) terminals.now) }
{
    let (comma, rest) = read!(expected(terminals, Symbol::Comma));
    let (item, rest) = read!(T::read(alloc, left, rest));
    Ok((AfterComma { comma, item }, rest))
}
