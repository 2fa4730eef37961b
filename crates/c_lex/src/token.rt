//! Tokens.
ghost use Rattle.std.specs.Prelude.{◌≡◌, ◌++◌, ◌∷◌, [], OnOk, OnErr, IfErr};

use std::alloc::{AllocFailed, Global};
use std::marker::Model;

/// What a token is. Keywords are names; the grammar tells them apart.
#[derive(Clone, Copy, Debug, PartialEq, Eq)]
pub enum TokenKind {
    Name,
    Number,
    Text,
    Mark,
    /// From the `#` of a `#define` to the word's end.
    Define,
    /// Empty, at the end of a line that is a define.
    EndLine,
}

/// A slice of a text: `len` bytes from the place `start`, which counts from 0.
#[derive(Clone, Copy, Debug, PartialEq, Eq)]
pub struct Token {
    pub kind: TokenKind,
    pub start: u32,
    pub len: u32,
}

/// Tokens in the order of the text. Contracts see the list of them.
#[derive(Drop, Debug)]
pub struct TokenList {
    tokens: Vec<Token>,
}

impl Model for TokenList {
    ghost use Rattle.std.specs.Prelude.{List};
    ghost use Rattle.c_lex.specs.declared.token.Token.{Token};

    ghost Value = { List Token };

    ghost view = { λ s. s.tokens.items };
}

impl TokenList {
    /// No tokens. Takes no memory.
    pub fn new(alloc: Global) -> Self
        ensures { result ≡ [] }
    {
        TokenList {
            tokens: Vec::new(alloc),
        }
    }

    /// One more token at the end. An error gives it back.
    pub fn push(&mut self, token: Token) -> Result<(), AllocFailed<Token>>
        ensures ok { OnOk result (self.new ≡ self.old ++ token ∷ []) }
        ensures err { OnErr result (self.new ≡ self.old) }
        ensures back { IfErr result (λ refused. refused.value ≡ token) }
    {
        self.tokens.push(token)
    }

    /// Lends the tokens.
    pub fn as_slice(&self) -> &[Token]
        ensures { result.now ≡ self.now }
    {
        &self.tokens
    }
}
