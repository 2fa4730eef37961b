//! What all readers share.
ghost use Rattle.std.specs.Prelude.{◌≡◌, ◌++◌, ◌∷◌, [], Err, IfErr, IfOk, Ok, OnOk};
ghost use Rattle.c_grammar.specs.Reading.{expect, first_of, heads, maybe, one_of};
ghost use Rattle.c_parse.specs.inside.Classes.{is_in};
ghost use Rattle.c_parse.specs.inside.Gives.{AgreesWithReading, HasPlace, IsEnded, IsFirstTerminal, TakesSymbol};
ghost use Rattle.c_grammar.specs.Symbols.{is};

use crate::symbols::{Class, is_in};
use c_grammar::terminal::{Span, Symbol, Terminal};
use c_lex::Why;
use std::alloc::{AllocError, Global};

/// What was read. Where reading stopped, the reader that asks for it stops too: as `?`, with no conversion of the error.
macro_rules! read {
    ($reading:expr) => {
        match $reading {
            Ok(read) => read,
            Err(error) => return Err(error),
        }
    };
}

pub(crate) use read;

/// Why reading stopped, and the terminals from there on.
#[derive(Drop)]
pub enum ParseError<'a> {
    Memory,
    At(Why, &'a [Terminal]),
}

impl<'a> From<AllocError> for ParseError<'a> {
    ghost use Rattle.c_parse.specs.declared.read.ParseError.TheVariants.{Memory};

    ghost from_gives = { λ _ error. error ≡ Memory };

    fn from(_error: AllocError) -> Self {
        ParseError::Memory
    }
}

/// The first terminal and those after it.
fn head(terminals: &[Terminal]) -> Option<(Terminal, &[Terminal])>
    ensures { IsFirstTerminal terminals.now result }
{
    match terminals {
        [first, rest @ ..] => Some((*first, rest)),
        [] => None,
    }
}

/// The first symbol, where there is one.
pub fn first_of(terminals: &[Terminal]) -> Option<Symbol>
    ensures { result ≡ first_of terminals.now }
{
    match head(terminals) {
        Some((first, _)) => Some(first.symbol),
        None => None,
    }
}

/// Whether the first symbol is of a class.
pub fn heads(terminals: &[Terminal], class: Class) -> bool
    ensures { result ≡ heads (is_in class) terminals.now }
{
    match head(terminals) {
        Some((first, _)) => is_in(class, first.symbol),
        None => false,
    }
}

/// The first terminal, which has to be of a class. Takes no memory.
#[tactic(auto, unfolding(c_grammar::specs::Reading::one_of))]
pub fn one_of(terminals: &[Terminal], class: Class) -> Result<(Terminal, &[Terminal]), ParseError>
    ensures read { AgreesWithReading (λ x. (x.0, x.1.now)) result (one_of (is_in class) terminals.now) }
    ensures place { IfErr result HasPlace }
{
    match head(terminals) {
        Some((first, rest)) => {
            if is_in(class, first.symbol) {
                Ok((first, rest))
            } else {
                Err(ParseError::At(Why::Unexpected, terminals))
            }
        }
        None => Err(ParseError::At(Why::Unexpected, terminals)),
    }
}

/// The place of the first terminal, which has to be this symbol. Takes no memory.
#[tactic(auto, unfolding(c_grammar::specs::Reading::expect))]
pub fn expected(terminals: &[Terminal], symbol: Symbol) -> Result<(Span, &[Terminal]), ParseError>
    ensures read { AgreesWithReading (λ x. (x.0, x.1.now)) result (expect symbol terminals.now) }
    ensures place { IfErr result HasPlace }
{
    match head(terminals) {
        Some((first, rest)) => {
            if is_in(Class::Is(symbol), first.symbol) {
                Ok((first.span, rest))
            } else {
                Err(ParseError::At(Why::Unexpected, terminals))
            }
        }
        None => Err(ParseError::At(Why::Unexpected, terminals)),
    }
}

/// The place of the first terminal and the terminals after it, where it is this symbol.
#[tactic(auto, unfolding(c_grammar::specs::Reading::expect))]
pub fn taken(terminals: &[Terminal], symbol: Symbol) -> Option<(Span, &[Terminal])>
    ensures { TakesSymbol symbol terminals.now result }
{
    match head(terminals) {
        Some((first, rest)) => {
            if is_in(Class::Is(symbol), first.symbol) {
                Some((first.span, rest))
            } else {
                None
            }
        }
        None => None,
    }
}

/// A thing that is read, and the place of the first terminal after it, which has to be this symbol.
pub fn ended<'a, T: Drop>(
    read: Result<(T, &'a [Terminal]), ParseError<'a>>,
    symbol: Symbol,
) -> Result<((T, Span), &'a [Terminal]), ParseError<'a>>
    ensures { IsEnded symbol read.entry result }
{
    let (thing, rest) = read!(read);
    both(thing, expected(rest, symbol))
}

/// A thing, and what was read after it.
pub fn both<'a, A: Drop, B: Drop>(
    first: A,
    read: Result<(B, &'a [Terminal]), ParseError<'a>>,
) -> Result<((A, B), &'a [Terminal]), ParseError<'a>>
    ensures first { IfOk result (λ all. all.0.0 ≡ first) }
    ensures second { IfOk result (λ all. read.entry ≡ Ok (all.0.1, all.1)) }
    ensures error { IfErr result (λ error. read.entry ≡ Err error) }
{
    let (second, rest) = read!(read);
    Ok(((first, second), rest))
}

/// The place of the first terminal, where it is this symbol, and the terminals after it.
#[tactic(auto, unfolding(c_grammar::specs::Reading::expect))]
pub fn optional(terminals: &[Terminal], symbol: Symbol) -> (Option<Span>, &[Terminal])
    ensures { maybe (is symbol) (expect symbol) terminals.now ≡ Ok (result.0, result.1.now) }
{
    match head(terminals) {
        Some((first, rest)) => {
            if is_in(Class::Is(symbol), first.symbol) {
                (Some(first.span), rest)
            } else {
                (None, terminals)
            }
        }
        None => (None, terminals),
    }
}

/// A thing in a box.
pub fn boxed<T: Drop>(alloc: Global, thing: T) -> Result<Box<T>, AllocError>
    ensures { IfOk result (λ made. made.value ≡ thing) }
{
    let made = Box::new(alloc, thing)?;
    Ok(made)
}

/// Puts a thing behind the others.
pub fn push<T: Drop>(list: &mut Vec<T>, item: T) -> Result<(), AllocError>
    ensures { OnOk result (list.new.items ≡ list.old.items ++ item ∷ []) }
{
    list.push(item)?;
    Ok(())
}
