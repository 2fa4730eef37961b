//! A state to begin with.
use c_names::kind::VariableKind;
use c_run_cells::state::{RankState, width_of};
use std::alloc::Global;
use std::test::Fail;
use wiz_base::Bytes;

/// A variable more.
#[tactic(auto, using(c_run_cells::proofs::StateLaws::cells_counted))]
pub fn declare<'p>(
    state: &mut RankState<'p>,
    name: &'p Bytes,
    kind: VariableKind,
    elements: u32,
) -> Result<(), Fail> {
    if !state.has_room(elements as usize * width_of(kind) as usize) {
        return Err(Fail::from("room"));
    }
    state.declare(name, kind, elements)?;
    Ok(())
}

/// A state with one array of ints.
pub fn with_array<'p>(
    alloc: Global,
    name: &'p Bytes,
    elements: u32,
) -> Result<RankState<'p>, Fail> {
    let mut state = RankState::new(alloc)?;
    declare(&mut state, name, VariableKind::Int, elements)?;
    Ok(state)
}
