//! The trees of statements, functions and programs, with the places of all their tokens.

use crate::terminal::{Span, Symbol};
use crate::tree::{Expr, Place};

/// Things with a comma between each two.
#[derive(Drop)]
pub struct CommaList<T> {
    pub first: T,
    pub more: Vec<AfterComma<T>>,
}

/// A comma and the thing after it.
#[derive(Drop)]
pub struct AfterComma<T> {
    pub comma: Span,
    pub item: T,
}

/// An argument of a call.
#[derive(Drop)]
pub enum Argument {
    Text(Span),
    /// `&` and a place.
    Address { mark: Span, place: Place },
    Value(Expr),
}

#[derive(Drop)]
pub struct WrittenCall {
    pub name: Span,
    pub opening: Span,
    pub arguments: Option<CommaList<Argument>>,
    pub closing: Span,
}

/// A right side.
#[derive(Drop)]
pub enum Right {
    Call(WrittenCall),
    Value(Expr),
}

/// A statement that needs a `;`, without it.
#[derive(Drop)]
pub enum Simple {
    Assign {
        place: Place,
        operator: Symbol,
        at: Span,
        right: Right,
    },
    /// `place++` or `place--`.
    After {
        place: Place,
        operator: Symbol,
        at: Span,
    },
    /// `++place` or `--place`.
    Before {
        operator: Symbol,
        at: Span,
        place: Place,
    },
    Call(WrittenCall),
}

/// What a declared name begins with.
#[derive(Drop)]
pub enum Initializer {
    Right {
        mark: Span,
        right: Right,
    },
    Braced {
        mark: Span,
        opening: Span,
        values: CommaList<Expr>,
        closing: Span,
    },
}

/// A declared name; an array has its length in brackets.
#[derive(Drop)]
pub struct InitDeclarator {
    pub place: Place,
    pub initial: Option<Initializer>,
}

/// A declaration without its `;`. `kind` is `Int`, `Status`, `Request` or `Communicator`.
#[derive(Drop)]
pub struct Declaration {
    pub kind: Symbol,
    pub at: Span,
    pub items: CommaList<InitDeclarator>,
}

/// How a `for` begins.
#[derive(Drop)]
pub enum ForStart {
    Nothing,
    Declaration(Declaration),
    Simple(Simple),
}

#[cycle(statement)]
#[derive(Drop)]
pub enum Stmt {
    Block {
        opening: Span,
        parts: Vec<Part>,
        closing: Span,
    },
    Empty(Span),
    Simple {
        simple: Simple,
        end: Span,
    },
    Break {
        keyword: Span,
        end: Span,
    },
    Continue {
        keyword: Span,
        end: Span,
    },
    Return {
        keyword: Span,
        value: Option<Right>,
        end: Span,
    },
    If {
        keyword: Span,
        opening: Span,
        test: Expr,
        closing: Span,
        then: Box<Stmt>,
    },
    IfElse {
        keyword: Span,
        opening: Span,
        test: Expr,
        closing: Span,
        then: Box<Stmt>,
        else_keyword: Span,
        other: Box<Stmt>,
    },
    While {
        keyword: Span,
        opening: Span,
        test: Expr,
        closing: Span,
        body: Box<Stmt>,
    },
    Do {
        keyword: Span,
        body: Box<Stmt>,
        while_keyword: Span,
        opening: Span,
        test: Expr,
        closing: Span,
        end: Span,
    },
    For {
        keyword: Span,
        opening: Span,
        start: ForStart,
        start_end: Span,
        test: Option<Expr>,
        test_end: Span,
        step: Option<Simple>,
        closing: Span,
        body: Box<Stmt>,
    },
}

/// What a block holds.
#[cycle(statement)]
#[derive(Drop)]
pub enum Part {
    Declaration { declaration: Declaration, end: Span },
    Stmt(Stmt),
}

/// A parameter; its name may be missing where the head ends with `;`.
#[derive(Drop)]
pub enum Parameter {
    Int {
        keyword: Span,
        name: Option<Span>,
    },
    /// `int NAME[LENGTH]`.
    Array {
        keyword: Span,
        name: Option<Span>,
        opening: Span,
        length: Option<Expr>,
        closing: Span,
    },
    /// `int *NAME`.
    Pointer {
        keyword: Span,
        star: Span,
        name: Option<Span>,
    },
    Communicator {
        keyword: Span,
        name: Option<Span>,
    },
    /// `char **NAME`.
    TextPointers {
        keyword: Span,
        star: Span,
        second: Span,
        name: Option<Span>,
    },
    /// `char *NAME[]`.
    TextArray {
        keyword: Span,
        star: Span,
        name: Option<Span>,
        opening: Span,
        closing: Span,
    },
}

#[derive(Drop)]
pub enum Parameters {
    Nothing,
    Void(Span),
    Listed(CommaList<Parameter>),
}

/// A function's head. `result` is `Int` or `Void`.
#[derive(Drop)]
pub struct Head {
    pub result: Symbol,
    pub at: Span,
    pub name: Span,
    pub opening: Span,
    pub parameters: Parameters,
    pub closing: Span,
}

/// The value of a define: a number, with a `-` or not, in any number of parentheses.
#[derive(Drop)]
pub struct Value {
    pub opens: Vec<Span>,
    pub minus: Option<Span>,
    pub number: Span,
    pub closes: Vec<Span>,
}

/// What a program holds.
#[derive(Drop)]
pub enum ExternalDeclaration {
    Define {
        directive: Span,
        name: Span,
        value: Value,
        end: Span,
    },
    Function {
        head: Head,
        opening: Span,
        parts: Vec<Part>,
        closing: Span,
    },
    Prototype {
        head: Head,
        end: Span,
    },
}

/// A whole program.
pub struct Tree {
    pub externals: Vec<ExternalDeclaration>,
}

// Written out, so that what a tree holds is dropped by a function of this crate, and not by one of each crate that has trees.
impl Drop for Tree {
    fn drop(self) {
        let Tree {
            externals: _externals,
        } = self;
    }
}
