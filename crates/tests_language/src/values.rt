//! Values worked out by hand, and what C's `printf` prints.
use crate::states::declare;
use c_names::kind::VariableKind;
use c_program::expr::{TypedExpr, TypedPlace};
use c_program::format::pieces;
use c_run_cells::print::text_of;
use c_run_cells::state::RankState;
use mpi_call::call::Fault;
use std::alloc::{AllocError, Global};
use std::process::Abort;
use std::test::Fail;
use wiz_base::Bytes;

fn printed(alloc: Global, format: &str, value: i32) -> Result<Vec<u8>, Fail> {
    let format = pieces(alloc, format.as_bytes())?.ok_or("no format")?;
    Ok(text_of(alloc, &format, &[value])?)
}

#[test]
fn ints_are_printed(rt: HostRuntime) -> Result<(), Fail> {
    let text = printed(rt.alloc(), "%05d|", -42)?;
    assert_eq!(rt; text.as_slice(), b"-0042|".as_slice());
    Ok(())
}

/// What stands at an index of the first variable.
fn value_at(
    state: &RankState,
    alloc: Global,
    index: i32,
) -> Result<Result<i32, Fault>, AllocError> {
    let index = Box::new(alloc, TypedExpr::Number(index))?;
    Ok(state.value(&TypedExpr::Read(TypedPlace::Element { variable: 0, index })))
}

/// The array stands in the state until its block is left.
fn check_block<'p>(
    rt: &(impl Abort + AllocGlobal),
    state: &mut RankState<'p>,
    name: &'p Bytes,
) -> Result<(), Fail> {
    let outside = state.mark();
    declare(state, name, VariableKind::Int, 3)?;
    state.put(2, 7);
    let value = value_at(state, rt.alloc(), 2)?;
    assert!(rt; value == Ok(7));
    let variables = state.variables(rt.alloc())?.as_slice().len();
    assert_eq!(rt; variables, 1);
    state.leave(outside);
    assert_eq!(rt; state.height(), 0);
    let value = value_at(state, rt.alloc(), 2)?;
    assert!(rt; value == Err(Fault::OutOfBounds));
    Ok(())
}

#[test]
fn variables_stand_in_their_block(rt: HostRuntime) -> Result<(), Fail> {
    let name = Bytes::from_slice(rt.alloc(), b"x")?;
    let mut state = RankState::new(rt.alloc())?;
    check_block(&rt, &mut state, &name)
}
