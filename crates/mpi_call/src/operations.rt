//! The predefined reduction operations, on ints of 32 bits.
ghost use Rattle.std.specs.Prelude.{◌≡◌, ◌<◌, IfOk, All, fold, length};
ghost use Rattle.mpi_call.specs.Operations.{column_of, combined, fold_of, folds_of, int_of};

use crate::call::Op;
use crate::lists::Ints;
use std::alloc::{AllocError, Global};

/// A truth value as an int of C.
pub fn truth(value: bool) -> i32
    ensures { result ≡ int_of value }
{
    if value { 1 } else { 0 }
}

/// One operation on two ints; sums and products wrap. Takes no memory.
fn combine(op: Op, a: i32, b: i32) -> i32
    ensures { result ≡ combined op a b }
{
    match op {
        Op::Max => a.max(b),
        Op::Min => a.min(b),
        Op::Sum => a.wrapping_add(b),
        Op::Prod => a.wrapping_mul(b),
        Op::Land => truth(a != 0 && b != 0),
        Op::Band => a & b,
        Op::Lor => truth(a != 0 || b != 0),
        Op::Bor => a | b,
        Op::Lxor => truth((a != 0) != (b != 0)),
        Op::Bxor => a ^ b,
    }
}

/// The fold of `first` and the lists' ints at one place.
fn fold_from(op: Op, first: i32, others: &[Ints], place: usize) -> i32
    requires { All (λ ints. place < length ints) others.now }
    ensures { result ≡ fold (combined op) first (column_of others.now place) }
{
    let mut total = first;
    for ints in others {
        total = combine(op, total, ints.as_slice()[place]);
    }
    total
}

/// The fold of the lists' ints at one place, from the first list on.
fn fold_at(op: Op, lists: &[Ints], place: usize) -> i32
    requires { All (λ ints. place < length ints) lists.now }
    ensures { result ≡ fold_of op (column_of lists.now place) }
{
    match lists {
        [] => 0,
        [first, others @ ..] => fold_from(op, first.as_slice()[place], others, place),
    }
}

/// The fold of lists of `count` ints, place by place, from the first list on.
pub fn fold_lists(alloc: Global, op: Op, count: u32, lists: &[Ints]) -> Result<Ints, AllocError>
    requires { All (λ ints. length ints ≡ count) lists.now }
    ensures { IfOk result (λ folds. folds ≡ folds_of op count lists.now) }
{
    let mut folds = Ints::new(alloc);
    for place in 0..count as usize {
        folds.push(fold_at(op, lists, place))?;
    }
    Ok(folds)
}
