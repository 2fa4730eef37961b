//! What a collective gives to each member.
ghost use Rattle.std.specs.Prelude.{◌≡◌, ◌++◌, ◌+◌, ◌*◌, ◌≤◌, All, IfOk, IsFalse, IsTrue, OnOk, flat_map, length};
ghost use Rattle.mpi_call.specs.Calls.{makes};
ghost use Rattle.mpi_call.specs.Members.{is_member};
ghost use Rattle.mpi_call.specs.Needs.{IsEnterOf};
ghost use Rattle.mpi_call.specs.Results.{piece_at, pieces_of, reduced, result_of, root_input, AreInputsOf};

use crate::call::{Call, Kind, Op};
use crate::lists::{Inputs, Ints, Ranks};
use crate::members::place_of;
use crate::needs::is_root;
use crate::operations::fold_lists;
use std::alloc::{AllocError, Global};

/// What the root entered.
fn root_input<'a>(root: &Option<u8>, members: &[u8], lists: &'a [Ints]) -> &'a [i32]
    ensures { result.now ≡ root_input root.now members.now lists.entry.now }
{
    let Some(rank) = root else {
        return &[];
    };
    match lists.get(place_of(members, *rank)) {
        Some(ints) => ints.as_slice(),
        None => &[],
    }
}

/// The piece of `count` ints for the member at a place.
fn piece_at(count: u32, place: usize, ints: &[i32]) -> &[i32]
    requires { place * count + count ≤ length ints.now }
    ensures { result.now ≡ piece_at count place ints.entry.now }
{
    let start = place * count as usize;
    &ints[start..start + count as usize]
}

/// Adds ints at the end. When out of memory some of them may be there.
fn append_all(ints: &mut Ints, values: &[i32]) -> Result<(), AllocError>
    ensures { OnOk result (ints.new ≡ ints.old ++ values.now) }
{
    for value in values {
        ints.push(*value)?;
    }
    Ok(())
}

/// All the lists in a row.
fn pieces(alloc: Global, lists: &[Ints]) -> Result<Ints, AllocError>
    ensures { IfOk result (λ ints. ints ≡ pieces_of lists.now) }
{
    let mut all = Ints::new(alloc);
    for ints in lists {
        append_all(&mut all, ints.as_slice())?;
    }
    Ok(all)
}

/// Each list's piece for the member at a place, in a row.
fn pieces_for(alloc: Global, count: u32, place: usize, lists: &[Ints]) -> Result<Ints, AllocError>
    requires { All (λ ints. place * count + count ≤ length ints) lists.now }
    ensures { IfOk result (λ ints. ints ≡ flat_map (piece_at count place) lists.now) }
{
    let mut all = Ints::new(alloc);
    for ints in lists {
        append_all(&mut all, piece_at(count, place, ints.as_slice()))?;
    }
    Ok(all)
}

/// The fold of the lists by the operation that was set.
fn reduced(alloc: Global, op: &Option<Op>, count: u32, lists: &[Ints]) -> Result<Ints, AllocError>
    requires { All (λ ints. length ints ≡ count) lists.now }
    ensures { IfOk result (λ ints. ints ≡ reduced op.now count lists.now) }
{
    match op {
        None => Ok(Ints::new(alloc)),
        Some(op) => fold_lists(alloc, *op, count, lists),
    }
}

/// The result of `me`, whose Enter is `enter`; the members' ints stand in member order, and are empty where not needed.
pub fn result(
    alloc: Global,
    enter: &Call,
    members: &Ranks,
    inputs: &Inputs,
    me: u8,
) -> Result<Ints, AllocError>
    requires form { IsEnterOf enter.now members.now me }
    requires member { IsTrue (is_member members.now me) }
    requires kind { IsFalse (makes enter.now) }
    requires inputs { AreInputsOf enter.now members.now inputs.now me }
    ensures { IfOk result (λ ints. ints ≡ result_of enter.now members.now inputs.now me) }
{
    let Call::Enter {
        kind,
        root,
        op,
        count,
        ..
    } = enter
    else {
        return Ok(Ints::new(alloc));
    };
    let ranks = members.as_slice();
    let lists = inputs.as_slice();
    let place = place_of(ranks, me);
    match kind {
        Kind::Barrier | Kind::Split | Kind::Dup => Ok(Ints::new(alloc)),
        Kind::Bcast => Ints::from_slice(alloc, root_input(root, ranks, lists)),
        Kind::Scatter => {
            let all = root_input(root, ranks, lists);
            Ints::from_slice(alloc, piece_at(*count, place, all))
        }
        Kind::Reduce => {
            if is_root(root, me) {
                reduced(alloc, op, *count, lists)
            } else {
                Ok(Ints::new(alloc))
            }
        }
        Kind::Allreduce => reduced(alloc, op, *count, lists),
        Kind::Gather => {
            if is_root(root, me) {
                pieces(alloc, lists)
            } else {
                Ok(Ints::new(alloc))
            }
        }
        Kind::Allgather => pieces(alloc, lists),
        Kind::Alltoall => pieces_for(alloc, *count, place, lists),
        Kind::Scan => reduced(alloc, op, *count, &lists[..place + 1]),
    }
}
