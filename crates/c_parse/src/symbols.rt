//! What the symbols of the grammar are.
ghost use Rattle.std.specs.Prelude.{◌≡◌};
ghost use Rattle.c_grammar.specs.Symbols.{symbol_code, is, is_assign, is_kind, is_result, is_sign, is_step, level_of, starts_expr, starts_part, starts_stmt};
ghost use Rattle.c_parse.specs.inside.Classes.{is_in};

use c_grammar::limits::CONDITIONAL_LEVEL;
use c_grammar::terminal::Symbol;

/// A class of symbols.
#[derive(Clone, Copy)]
pub enum Class {
    Is(Symbol),
    Isnt(Symbol),
    /// What may come before an operand alone.
    Sign,
    Assign,
    /// `++` and `--`.
    Step,
    /// What a declaration begins with.
    Kind,
    /// What a function's head begins with.
    Outcome,
    /// The operators of a level.
    Level(u8),
}

pub fn is_in(class: Class, symbol: Symbol) -> bool
    ensures { result ≡ is_in class symbol }
{
    match class {
        Class::Is(one) => is(one, symbol),
        Class::Isnt(one) => !is(one, symbol),
        Class::Sign => is_sign(symbol),
        Class::Assign => is_assign(symbol),
        Class::Step => is_step(symbol),
        Class::Kind => is_kind(symbol),
        Class::Outcome => is_result(symbol),
        Class::Level(one) => level(symbol) == one,
    }
}

/// The symbol's place in the list of symbols.
fn code(symbol: Symbol) -> u8
    ensures { result ≡ symbol_code symbol }
{
    symbol as u8
}

fn is(one: Symbol, symbol: Symbol) -> bool
    ensures { result ≡ is one symbol }
{
    code(symbol) == code(one)
}

/// The level of an operator: 1 binds the tightest, `?` the loosest; 0 is for other symbols.
fn level(symbol: Symbol) -> u8
    ensures { result ≡ level_of symbol }
{
    match symbol {
        Symbol::Times | Symbol::Divide | Symbol::Remainder => 1,
        Symbol::Plus | Symbol::Minus => 2,
        Symbol::ShiftLeft | Symbol::ShiftRight => 3,
        Symbol::Less | Symbol::AtMost | Symbol::Greater | Symbol::AtLeast => 4,
        Symbol::Equal | Symbol::NotEqual => 5,
        Symbol::And => 6,
        Symbol::Xor => 7,
        Symbol::Or => 8,
        Symbol::LogicalAnd => 9,
        Symbol::LogicalOr => 10,
        Symbol::Question => CONDITIONAL_LEVEL,
        _ => 0,
    }
}

fn is_sign(symbol: Symbol) -> bool
    ensures { result ≡ is_sign symbol }
{
    match symbol {
        Symbol::Minus | Symbol::Plus | Symbol::Not | Symbol::Complement => true,
        _ => false,
    }
}

fn is_assign(symbol: Symbol) -> bool
    ensures { result ≡ is_assign symbol }
{
    match symbol {
        Symbol::Assign
        | Symbol::PlusAssign
        | Symbol::MinusAssign
        | Symbol::TimesAssign
        | Symbol::DivideAssign
        | Symbol::RemainderAssign
        | Symbol::AndAssign
        | Symbol::OrAssign
        | Symbol::XorAssign
        | Symbol::ShiftLeftAssign
        | Symbol::ShiftRightAssign => true,
        _ => false,
    }
}

fn is_step(symbol: Symbol) -> bool
    ensures { result ≡ is_step symbol }
{
    match symbol {
        Symbol::Increment | Symbol::Decrement => true,
        _ => false,
    }
}

fn is_kind(symbol: Symbol) -> bool
    ensures { result ≡ is_kind symbol }
{
    match symbol {
        Symbol::Int | Symbol::Status | Symbol::Request | Symbol::Communicator => true,
        _ => false,
    }
}

fn is_result(symbol: Symbol) -> bool
    ensures { result ≡ is_result symbol }
{
    match symbol {
        Symbol::Int | Symbol::Void => true,
        _ => false,
    }
}

/// Whether an expression may begin with this symbol.
pub fn starts_expr(symbol: Symbol) -> bool
    ensures { result ≡ starts_expr symbol }
{
    match symbol {
        Symbol::Number
        | Symbol::Name
        | Symbol::OpenParen
        | Symbol::Minus
        | Symbol::Plus
        | Symbol::Not
        | Symbol::Complement => true,
        _ => false,
    }
}

/// Whether a statement may begin with this symbol.
pub fn starts_stmt(symbol: Symbol) -> bool
    ensures { result ≡ starts_stmt symbol }
{
    match symbol {
        Symbol::OpenBrace
        | Symbol::Semicolon
        | Symbol::Name
        | Symbol::Increment
        | Symbol::Decrement
        | Symbol::Break
        | Symbol::Continue
        | Symbol::Return
        | Symbol::If
        | Symbol::While
        | Symbol::Do
        | Symbol::For => true,
        _ => false,
    }
}

/// Whether what a block holds may begin with this symbol.
#[tactic(auto, using(crate::proofs::Parts::starts_part_is))]
pub fn starts_part(symbol: Symbol) -> bool
    ensures { result ≡ starts_part symbol }
{
    is_kind(symbol) || starts_stmt(symbol)
}
