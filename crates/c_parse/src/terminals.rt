//! What tokens are to the grammar.
ghost use Rattle.std.specs.Prelude.{◌≡◌, IfOk, map, length, ◌+◌, ◌≤◌};
ghost use Rattle.c_lex.specs.Readings.{AreSlices};
ghost use Rattle.c_parse.specs.Terminals.{terminal_of, spellings, symbol_among, symbol_of};

use c_grammar::terminal::{Span, Symbol, Terminal};
use c_lex::{Token, TokenKind, TokenList};
use std::alloc::{AllocError, Global};

/// The symbols that have one spelling.
const SPELLINGS: [(&str, Symbol); 58] = [
    ("int", Symbol::Int),
    ("void", Symbol::Void),
    ("char", Symbol::Char),
    ("MPI_Status", Symbol::Status),
    ("MPI_Request", Symbol::Request),
    ("MPI_Comm", Symbol::Communicator),
    ("if", Symbol::If),
    ("else", Symbol::Else),
    ("while", Symbol::While),
    ("do", Symbol::Do),
    ("for", Symbol::For),
    ("break", Symbol::Break),
    ("continue", Symbol::Continue),
    ("return", Symbol::Return),
    ("(", Symbol::OpenParen),
    (")", Symbol::CloseParen),
    ("{", Symbol::OpenBrace),
    ("}", Symbol::CloseBrace),
    ("[", Symbol::OpenBracket),
    ("]", Symbol::CloseBracket),
    (";", Symbol::Semicolon),
    (",", Symbol::Comma),
    (".", Symbol::Dot),
    ("?", Symbol::Question),
    (":", Symbol::Colon),
    ("=", Symbol::Assign),
    ("+=", Symbol::PlusAssign),
    ("-=", Symbol::MinusAssign),
    ("*=", Symbol::TimesAssign),
    ("/=", Symbol::DivideAssign),
    ("%=", Symbol::RemainderAssign),
    ("&=", Symbol::AndAssign),
    ("|=", Symbol::OrAssign),
    ("^=", Symbol::XorAssign),
    ("<<=", Symbol::ShiftLeftAssign),
    (">>=", Symbol::ShiftRightAssign),
    ("++", Symbol::Increment),
    ("--", Symbol::Decrement),
    ("||", Symbol::LogicalOr),
    ("&&", Symbol::LogicalAnd),
    ("|", Symbol::Or),
    ("^", Symbol::Xor),
    ("&", Symbol::And),
    ("==", Symbol::Equal),
    ("!=", Symbol::NotEqual),
    ("<", Symbol::Less),
    ("<=", Symbol::AtMost),
    (">", Symbol::Greater),
    (">=", Symbol::AtLeast),
    ("<<", Symbol::ShiftLeft),
    (">>", Symbol::ShiftRight),
    ("+", Symbol::Plus),
    ("-", Symbol::Minus),
    ("*", Symbol::Times),
    ("/", Symbol::Divide),
    ("%", Symbol::Remainder),
    ("!", Symbol::Not),
    ("~", Symbol::Complement),
];

/// The tokens of a text as the grammar sees them.
pub fn terminals(
    alloc: Global,
    text: &[u8],
    tokens: &TokenList,
) -> Result<Vec<Terminal>, AllocError>
    requires { AreSlices text.now 0 tokens.now }
    ensures { IfOk result (λ found. found.items ≡ map (terminal_of text.now) tokens.now) }
{
    let tokens = tokens.as_slice();
    let mut found = Vec::new(alloc);
    for token in tokens {
        found.push(terminal(text, token))?;
    }
    Ok(found)
}

fn terminal(text: &[u8], token: &Token) -> Terminal
    requires { token.now.start + token.now.len ≤ length text.now }
    ensures { result ≡ terminal_of text.now token.now }
{
    let start = token.start as usize;
    let bytes = &text[start..start + token.len as usize];
    Terminal {
        symbol: symbol_of(token.kind, bytes),
        span: Span {
            start: token.start,
            len: token.len,
        },
    }
}

fn symbol_of(kind: TokenKind, bytes: &[u8]) -> Symbol
    ensures { result ≡ symbol_of kind bytes.now }
{
    match kind {
        TokenKind::Name | TokenKind::Mark => symbol_spelled(bytes),
        TokenKind::Number => Symbol::Number,
        TokenKind::Text => Symbol::Text,
        TokenKind::Define => Symbol::Define,
        TokenKind::EndLine => Symbol::EndLine,
    }
}

fn symbol_spelled(bytes: &[u8]) -> Symbol
    ensures { result ≡ symbol_among spellings bytes.now }
{
    symbol_among(&SPELLINGS, bytes)
}

/// The symbol of these that has this spelling, and else a name.
fn symbol_among(spellings: &[(&str, Symbol)], bytes: &[u8]) -> Symbol
    ensures { result ≡ symbol_among (map (λ row. (row.0.now, row.1)) spellings.now) bytes.now }
{
    let mut left = spellings;
    while let [(spelling, symbol), after @ ..] = left {
        if bytes == spelling.as_bytes() {
            return *symbol;
        }
        left = after;
    }
    Symbol::Name
}
