//! The trees of expressions, with the places of all their tokens.

use crate::terminal::{Span, Symbol};

/// An expression.
#[cycle(expression)]
#[derive(Drop)]
pub enum Expr {
    Number(Span),
    Read(Place),
    /// A place, a dot and the name of a field.
    Field {
        place: Place,
        dot: Span,
        name: Span,
    },
    Paren {
        opening: Span,
        inner: Box<Expr>,
        closing: Span,
    },
    /// A sign (`-`, `+`, `!` or `~`) and its operand.
    Unary {
        sign: Symbol,
        at: Span,
        operand: Box<Expr>,
    },
    /// Operands with the operators of one level between them.
    Chain {
        level: u8,
        first: Box<Expr>,
        links: Vec<Link>,
    },
    /// `test ? then : other`.
    Choice {
        test: Box<Expr>,
        question: Span,
        then: Box<Expr>,
        colon: Span,
        other: Box<Expr>,
    },
}

/// A name, or a name with an index in brackets.
#[cycle(expression)]
#[derive(Drop)]
pub enum Place {
    Whole(Span),
    Cell {
        name: Span,
        opening: Span,
        index: Box<Expr>,
        closing: Span,
    },
}

/// An operator and the operand after it.
#[cycle(expression)]
#[derive(Drop)]
pub struct Link {
    pub operator: Symbol,
    pub at: Span,
    pub operand: Expr,
}
