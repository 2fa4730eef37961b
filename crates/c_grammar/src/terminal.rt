//! The symbols of the grammar, and where they stand.

/// What a token is to the grammar: a name, a number, a text, a keyword, a mark, or an end of a define.
#[derive(Clone, Copy, Debug)]
pub enum Symbol {
    Name,
    Number,
    Text,
    /// `#define`.
    Define,
    /// The end of a line that is a define.
    EndLine,
    Int,
    Void,
    Char,
    /// `MPI_Status`.
    Status,
    /// `MPI_Request`.
    Request,
    /// `MPI_Comm`.
    Communicator,
    If,
    Else,
    While,
    Do,
    For,
    Break,
    Continue,
    Return,
    OpenParen,
    CloseParen,
    OpenBrace,
    CloseBrace,
    OpenBracket,
    CloseBracket,
    Semicolon,
    Comma,
    Dot,
    Question,
    Colon,
    Assign,
    PlusAssign,
    MinusAssign,
    TimesAssign,
    DivideAssign,
    RemainderAssign,
    AndAssign,
    OrAssign,
    XorAssign,
    ShiftLeftAssign,
    ShiftRightAssign,
    Increment,
    Decrement,
    LogicalOr,
    LogicalAnd,
    Or,
    Xor,
    And,
    Equal,
    NotEqual,
    Less,
    AtMost,
    Greater,
    AtLeast,
    ShiftLeft,
    ShiftRight,
    Plus,
    Minus,
    Times,
    Divide,
    Remainder,
    Not,
    Complement,
}

/// Where a token is in the text: `len` bytes from the place `start`, which counts from 0.
#[derive(Clone, Copy, Debug, PartialEq, Eq)]
pub struct Span {
    pub start: u32,
    pub len: u32,
}

/// A token as the grammar sees it.
#[derive(Clone, Copy, Debug)]
pub struct Terminal {
    pub symbol: Symbol,
    pub span: Span,
}
