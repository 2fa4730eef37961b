//! Operators on ints of 32 bits.
ghost use Rattle.std.specs.Prelude.{◌≡◌};
ghost use Rattle.c_names.specs.Operators.{applied, unary_applied};

use mpi_call::operations::truth;

/// An operator between two operands.
#[derive(Clone, Copy)]
pub enum Operator {
    LogicalOr,
    LogicalAnd,
    Or,
    Xor,
    And,
    Equal,
    NotEqual,
    Less,
    AtMost,
    Greater,
    AtLeast,
    ShiftLeft,
    ShiftRight,
    Plus,
    Minus,
    Times,
    Divide,
    Remainder,
}

/// An operator before one operand.
#[derive(Clone, Copy)]
pub enum UnaryOperator {
    Minus,
    Plus,
    Not,
    Complement,
}

/// Both operands are known. `None` where a divisor is zero. Takes no memory.
pub fn apply(operator: Operator, left: i32, right: i32) -> Option<i32>
    ensures { result ≡ applied operator left right }
{
    Some(match operator {
        Operator::LogicalOr => truth(left != 0 || right != 0),
        Operator::LogicalAnd => truth(left != 0 && right != 0),
        Operator::Or => left | right,
        Operator::Xor => left ^ right,
        Operator::And => left & right,
        Operator::Equal => truth(left == right),
        Operator::NotEqual => truth(left != right),
        Operator::Less => truth(left < right),
        Operator::AtMost => truth(left <= right),
        Operator::Greater => truth(right < left),
        Operator::AtLeast => truth(right <= left),
        Operator::ShiftLeft => left.wrapping_shl(right.cast_unsigned()),
        Operator::ShiftRight => left.wrapping_shr(right.cast_unsigned()),
        Operator::Plus => left.wrapping_add(right),
        Operator::Minus => left.wrapping_sub(right),
        Operator::Times => left.wrapping_mul(right),
        Operator::Divide => {
            if right == 0 {
                return None;
            }
            left.wrapping_div(right)
        }
        Operator::Remainder => {
            if right == 0 {
                return None;
            }
            left.wrapping_rem(right)
        }
    })
}

/// Takes no memory.
pub fn apply_unary(sign: UnaryOperator, value: i32) -> i32
    ensures { result ≡ unary_applied sign value }
{
    match sign {
        UnaryOperator::Minus => value.wrapping_neg(),
        UnaryOperator::Plus => value,
        UnaryOperator::Not => truth(value == 0),
        UnaryOperator::Complement => !value,
    }
}
