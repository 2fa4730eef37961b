//! What names stand for.
ghost use Rattle.std.specs.Prelude.{◌≡◌};
ghost use Rattle.c_scope.specs.Kinds.{kind_of_symbol};

use c_grammar::terminal::Symbol;
use c_names::kind::VariableKind;
use c_names::predefined::Predefined;

/// What a program declares.
#[derive(Clone, Copy)]
pub enum Entity {
    /// By its number among the text's functions.
    Function(usize),
    Define(i32),
    /// A variable that is no array, or such a parameter.
    Variable(VariableKind),
    /// An array; the length is 0 if it is bad.
    Array(VariableKind, u32),
    /// A parameter that is an array.
    ArrayParameter,
    /// The two parameters of main.
    ArgumentCount,
    ArgumentTexts,
}

/// What a name means.
#[derive(Clone, Copy)]
pub enum Meaning {
    Known(Predefined),
    Declared(Entity),
    /// A name of MPI that this language leaves out.
    LeftOut,
    Unknown,
}

/// What an expression is.
#[derive(Clone, Copy)]
pub enum ExprKind {
    Of(VariableKind),
    /// `MPI_REQUEST_NULL`.
    NullRequest,
    /// An element of an array whose name has no meaning: an int, a status, a request or a communicator.
    Element,
    /// None of these, as the name of an array.
    Other,
    /// Nothing is known, and nothing follows.
    Nothing,
}

/// The word of a declaration.
pub fn kind_of_symbol(symbol: Symbol) -> VariableKind
    ensures { result ≡ kind_of_symbol symbol }
{
    match symbol {
        Symbol::Status => VariableKind::Status,
        Symbol::Request => VariableKind::Request,
        Symbol::Communicator => VariableKind::Communicator,
        _ => VariableKind::Int,
    }
}
