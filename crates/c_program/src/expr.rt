//! Typed expressions, places and references.

use c_names::operator::{Operator, UnaryOperator};

/// An expression. Handles are numbers: a request is that of its start, a communicator its own, and -1 is none.
#[cycle(typed)]
#[derive(Drop)]
pub enum TypedExpr {
    Number(i32),
    Read(TypedPlace),
    /// A field of a status.
    Field {
        status: TypedPlace,
        field: Field,
    },
    Signed {
        sign: UnaryOperator,
        operand: Box<TypedExpr>,
    },
    /// Operators of one level, from the left on. `&&` and `||` evaluate only what they need.
    Chain {
        first: Box<TypedExpr>,
        links: Vec<TypedLink>,
    },
    Choice {
        test: Box<TypedExpr>,
        then: Box<TypedExpr>,
        other: Box<TypedExpr>,
    },
}

/// A variable by its number, which is how many variables of its function stand before it, or an element of it.
#[cycle(typed)]
#[derive(Drop)]
pub enum TypedPlace {
    Whole(usize),
    Element {
        variable: usize,
        index: Box<TypedExpr>,
    },
}

/// An operator and the operand behind it.
#[cycle(typed)]
#[derive(Drop)]
pub struct TypedLink {
    pub operator: Operator,
    pub operand: TypedExpr,
}

/// What programs read of a status, which has three cells: the source, the tag and the count.
#[derive(Clone, Copy)]
pub enum Field {
    Source,
    Tag,
}

/// A range of cells.
#[derive(Drop)]
pub enum Reference {
    /// `NULL`: no cells.
    Nothing,
    /// All cells of a variable.
    Whole(usize),
    /// The elements of a variable from one on, or none where it is the length.
    From { variable: usize, index: TypedExpr },
}

/// An argument of a function of the text.
#[derive(Drop)]
pub enum TypedArgument {
    Value(TypedExpr),
    Reference(Reference),
}

/// A call of a function of the text, by its number.
#[derive(Drop)]
pub struct FunctionCall {
    pub function: usize,
    pub arguments: Vec<TypedArgument>,
}

/// A right side.
#[derive(Drop)]
pub enum TypedRight {
    Value(TypedExpr),
    Call(FunctionCall),
}
