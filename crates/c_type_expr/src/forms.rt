//! Typed forms of what several walks found.
ghost use Rattle.std.specs.Prelude.{◌≡◌, Ok, Err, None, IfOk, IsOkAnd, IsSomeAnd, MatchOption, MatchResult};
ghost use Rattle.c_scope.specs.Walks.{found_both};
ghost use Rattle.c_type_expr.specs.inside.Making.{IsMadeBy};

use c_program::mpi::MpiCall;
use c_scope::joins::both;
use std::alloc::{AllocError, Global};

/// A form that is made of what a walk found.
pub(crate) fn made<A: Drop, B: Drop, F: FnOnce(A) -> B>(
    found: Result<Option<A>, AllocError>,
    form: F,
) -> Result<Option<B>, AllocError>
    requires { F.IsAlwaysCallable form }
    ensures { MatchResult found (λ one. MatchOption one (result ≡ Ok None) (λ a. IsOkAnd result (λ other. IsSomeAnd other (F.post form a)))) (λ e. result ≡ Err e) }
{
    match found? {
        Some(parts) => Ok(Some(form(parts))),
        None => Ok(None),
    }
}

/// What three walks found, where each one found something.
pub(crate) fn three<A: Drop, B: Drop, C: Drop>(
    first: Result<Option<A>, AllocError>,
    second: Result<Option<B>, AllocError>,
    third: Result<Option<C>, AllocError>,
) -> Result<Option<((A, B), C)>, AllocError>
    ensures { result ≡ found_both (found_both first second) third }
{
    both(both(first, second), third)
}

/// What four walks found.
pub(crate) fn four<A: Drop, B: Drop, C: Drop, D: Drop>(
    first: Result<Option<A>, AllocError>,
    second: Result<Option<B>, AllocError>,
    third: Result<Option<C>, AllocError>,
    fourth: Result<Option<D>, AllocError>,
) -> Result<Option<(((A, B), C), D)>, AllocError>
    ensures { result ≡ found_both (found_both (found_both first second) third) fourth }
{
    both(three(first, second, third), fourth)
}

/// What five walks found.
pub(crate) fn five<A: Drop, B: Drop, C: Drop, D: Drop, E: Drop>(
    first: Result<Option<A>, AllocError>,
    second: Result<Option<B>, AllocError>,
    third: Result<Option<C>, AllocError>,
    fourth: Result<Option<D>, AllocError>,
    fifth: Result<Option<E>, AllocError>,
) -> Result<Option<((((A, B), C), D), E)>, AllocError>
    ensures { result ≡ found_both (found_both (found_both (found_both first second) third) fourth) fifth }
{
    both(four(first, second, third, fourth), fifth)
}

// ---- calls in boxes, from what the walks of their arguments found

/// A call in a box.
pub(crate) fn boxed(alloc: Global, call: MpiCall) -> Result<Option<Box<MpiCall>>, AllocError>
    ensures { IfOk result (λ held. IsSomeAnd held (λ one. one.value ≡ call)) }
{
    Ok(Some(Box::new(alloc, call)?))
}

/// A call from one part.
pub(crate) fn call_from_one<A: Drop, F: FnOnce(A) -> MpiCall>(
    alloc: Global,
    found: Result<Option<A>, AllocError>,
    form: F,
) -> Result<Option<Box<MpiCall>>, AllocError>
    requires { F.IsAlwaysCallable form }
    ensures { IsMadeBy (λ part call. F.post form part call) found result }
{
    match found? {
        Some(part) => boxed(alloc, form(part)),
        None => Ok(None),
    }
}

/// A call from two parts.
pub(crate) fn call_from_two<A: Drop, B: Drop, F: FnOnce(A, B) -> MpiCall>(
    alloc: Global,
    first: Result<Option<A>, AllocError>,
    second: Result<Option<B>, AllocError>,
    form: F,
) -> Result<Option<Box<MpiCall>>, AllocError>
    requires { F.IsAlwaysCallable form }
    ensures { IsMadeBy (λ parts call. F.post form parts.0 parts.1 call) (found_both first second) result }
{
    match both(first, second)? {
        Some((a, b)) => boxed(alloc, form(a, b)),
        None => Ok(None),
    }
}

/// A call from three parts.
pub(crate) fn call_from_three<A: Drop, B: Drop, C: Drop, F: FnOnce(A, B, C) -> MpiCall>(
    alloc: Global,
    first: Result<Option<A>, AllocError>,
    second: Result<Option<B>, AllocError>,
    third: Result<Option<C>, AllocError>,
    form: F,
) -> Result<Option<Box<MpiCall>>, AllocError>
    requires { F.IsAlwaysCallable form }
    ensures { IsMadeBy (λ parts call. F.post form parts.0.0 parts.0.1 parts.1 call) (found_both (found_both first second) third) result }
{
    match three(first, second, third)? {
        Some(((a, b), c)) => boxed(alloc, form(a, b, c)),
        None => Ok(None),
    }
}

/// A call from four parts.
pub(crate) fn call_from_four<A: Drop, B: Drop, C: Drop, D: Drop, F: FnOnce(A, B, C, D) -> MpiCall>(
    alloc: Global,
    first: Result<Option<A>, AllocError>,
    second: Result<Option<B>, AllocError>,
    third: Result<Option<C>, AllocError>,
    fourth: Result<Option<D>, AllocError>,
    form: F,
) -> Result<Option<Box<MpiCall>>, AllocError>
    requires { F.IsAlwaysCallable form }
    ensures { IsMadeBy (λ parts call. F.post form parts.0.0.0 parts.0.0.1 parts.0.1 parts.1 call) (found_both (found_both (found_both first second) third) fourth) result }
{
    match four(first, second, third, fourth)? {
        Some((((a, b), c), d)) => boxed(alloc, form(a, b, c, d)),
        None => Ok(None),
    }
}

/// A call from five parts.
pub(crate) fn call_from_five<
    A: Drop,
    B: Drop,
    C: Drop,
    D: Drop,
    E: Drop,
    F: FnOnce(A, B, C, D, E) -> MpiCall,
>(
    alloc: Global,
    first: Result<Option<A>, AllocError>,
    second: Result<Option<B>, AllocError>,
    third: Result<Option<C>, AllocError>,
    fourth: Result<Option<D>, AllocError>,
    fifth: Result<Option<E>, AllocError>,
    form: F,
) -> Result<Option<Box<MpiCall>>, AllocError>
    requires { F.IsAlwaysCallable form }
    ensures { IsMadeBy (λ parts call. F.post form parts.0.0.0.0 parts.0.0.0.1 parts.0.0.1 parts.0.1 parts.1 call) (found_both (found_both (found_both (found_both first second) third) fourth) fifth) result }
{
    match five(first, second, third, fourth, fifth)? {
        Some(((((a, b), c), d), e)) => boxed(alloc, form(a, b, c, d, e)),
        None => Ok(None),
    }
}
