//! Typed statements.

use crate::expr::{FunctionCall, TypedExpr, TypedPlace, TypedRight};
use crate::format::FormatPiece;
use crate::mpi::MpiCall;
use c_names::kind::VariableKind;
use c_names::operator::Operator;
use wiz_base::Bytes;

/// A statement that stands before a `;`.
pub enum TypedSimple {
    /// `place = right`.
    Set {
        place: TypedPlace,
        right: TypedRight,
    },
    /// `place operator= right`, and `++` and `--`, which are by 1.
    Update {
        place: TypedPlace,
        operator: Operator,
        right: TypedRight,
    },
    Call(FunctionCall),
    Mpi(Box<MpiCall>),
    Print {
        format: Vec<FormatPiece>,
        arguments: Vec<TypedExpr>,
    },
    /// `fflush(stdout)`, which does nothing.
    Flush,
}

// Written out, so that what a statement holds is dropped by a function of this crate, and not by one of each crate that has statements.
impl Drop for TypedSimple {
    fn drop(self) {
        match self {
            TypedSimple::Set {
                place: _place,
                right: _right,
            } => {}
            TypedSimple::Update {
                place: _place,
                operator: _,
                right: _right,
            } => {}
            TypedSimple::Call(_call) => {}
            TypedSimple::Mpi(_call) => {}
            TypedSimple::Print {
                format: _format,
                arguments: _arguments,
            } => {}
            TypedSimple::Flush => {}
        }
    }
}

/// How a variable begins: as nothing of its kind, as a right side, or with some ints and then 0.
#[derive(Drop)]
pub enum TypedInitializer {
    Nothing,
    Right(TypedRight),
    Values(Vec<TypedExpr>),
}

/// A variable that is declared; `length` is that of an array.
#[derive(Drop)]
pub struct TypedInitDeclarator {
    pub name: Bytes,
    pub kind: VariableKind,
    pub length: Option<u32>,
    pub initial: TypedInitializer,
}

#[derive(Drop)]
pub struct TypedDeclaration {
    pub items: Vec<TypedInitDeclarator>,
}

#[derive(Drop)]
pub enum TypedForStart {
    Nothing,
    Declaration(TypedDeclaration),
    Simple(TypedSimple),
}

#[cycle(statement)]
#[derive(Drop)]
pub enum TypedStmt {
    Block(Vec<TypedPart>),
    Empty,
    Simple(TypedSimple),
    Break,
    Continue,
    Return(Option<TypedRight>),
    If {
        test: TypedExpr,
        then: Box<TypedStmt>,
    },
    IfElse {
        test: TypedExpr,
        then: Box<TypedStmt>,
        other: Box<TypedStmt>,
    },
    While {
        test: TypedExpr,
        body: Box<TypedStmt>,
    },
    Do {
        body: Box<TypedStmt>,
        test: TypedExpr,
    },
    /// A block of its own.
    For {
        start: TypedForStart,
        test: Option<TypedExpr>,
        step: Option<TypedSimple>,
        body: Box<TypedStmt>,
    },
}

/// What stands in a block.
#[cycle(statement)]
#[derive(Drop)]
pub enum TypedPart {
    Declaration(TypedDeclaration),
    Stmt(TypedStmt),
}
