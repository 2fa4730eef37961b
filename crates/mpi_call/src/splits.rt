//! The members of the communicators that Split and Dup make.
ghost use Rattle.std.specs.Prelude.{◌≡◌, ◌++◌, ◌∷◌, [], length, map, zip, IfOk, IsTrue, OnOk};
ghost use Rattle.mpi_call.specs.Calls.{makes};
ghost use Rattle.mpi_call.specs.inside.Candidates.{candidate_of};
ghost use Rattle.mpi_call.specs.Made.{by_key, key_in, members_made, of_colour, split_into};
ghost use Rattle.mpi_call.specs.Members.{is_member};
ghost use Rattle.mpi_call.specs.Needs.{IsEnterOf};
ghost use Rattle.mpi_call.specs.Results.{AreInputsOf};

use crate::call::{Call, Kind};
use crate::lists::{Inputs, Ints, Ranks};
use crate::needs::{UNDEFINED, colour_in};
use std::alloc::{AllocError, Global};

/// A member of the new communicator, with the key that it entered.
#[derive(Drop)]
struct Candidate {
    rank: u8,
    key: i32,
}

/// The key that a member of a Split entered.
fn key_in(ints: &Ints) -> i32
    ensures { result ≡ key_in ints.now }
{
    match ints.as_slice() {
        [_, key, ..] => *key,
        _ => 0,
    }
}

/// Adds a member that entered this colour.
fn add_coloured(
    found: &mut Vec<Candidate>,
    colour: i32,
    rank: u8,
    ints: &Ints,
) -> Result<(), AllocError>
    ensures { OnOk result (found.new.items ≡ found.old.items ++ map candidate_of (of_colour colour ((rank, ints.now) ∷ []))) }
{
    if colour_in(ints) == colour {
        let key = key_in(ints);
        found.push(Candidate { rank, key })?;
    }
    Ok(())
}

/// The members that entered this colour, in member order.
fn candidates(
    alloc: Global,
    colour: i32,
    members: &[u8],
    inputs: &[Ints],
) -> Result<Vec<Candidate>, AllocError>
    requires { length inputs.now ≡ length members.now }
    ensures { IfOk result (λ found. found.items ≡ map candidate_of (of_colour colour (zip members.now inputs.now))) }
{
    let mut found = Vec::new(alloc);
    for (place, rank) in members.iter().enumerate() {
        add_coloured(&mut found, colour, *rank, &inputs[place])?;
    }
    Ok(found)
}

/// Sorts by key; members of one key keep their order.
fn sort(candidates: &mut Vec<Candidate>) -> Result<(), AllocError>
    ensures { OnOk result (candidates.new.items ≡ by_key (λ candidate. candidate.key) candidates.old.items) }
{
    candidates.sort_by_key(|candidate| candidate.key)
}

/// The members of one colour, by key and then by place.
pub fn split_into(
    alloc: Global,
    colour: i32,
    members: &[u8],
    inputs: &[Ints],
) -> Result<Ranks, AllocError>
    requires { length inputs.now ≡ length members.now }
    ensures { IfOk result (λ ranks. ranks ≡ split_into colour members.now inputs.now) }
{
    let mut found = candidates(alloc, colour, members, inputs)?;
    sort(&mut found)?;
    let mut ranks = Ranks::new(alloc);
    for candidate in found.as_slice() {
        ranks.push(candidate.rank)?;
    }
    Ok(ranks)
}

/// The members, in order, of the communicator that `me` gets by its Split or Dup `enter`; none for an undefined colour. The
/// members' ints stand in member order, and are empty where not needed.
pub fn made(
    alloc: Global,
    enter: &Call,
    members: &Ranks,
    inputs: &Inputs,
    me: u8,
) -> Result<Ranks, AllocError>
    requires form { IsEnterOf enter.now members.now me }
    requires member { IsTrue (is_member members.now me) }
    requires kind { IsTrue (makes enter.now) }
    requires inputs { AreInputsOf enter.now members.now inputs.now me }
    ensures { IfOk result (λ ranks. ranks ≡ members_made enter.now members.now inputs.now me) }
{
    let Call::Enter {
        comm: _,
        kind,
        root: _,
        op: _,
        count: _,
        ints,
    } = enter
    else {
        return Ok(Ranks::new(alloc));
    };
    match kind {
        Kind::Dup => Ranks::from_slice(alloc, members.as_slice()),
        Kind::Split => {
            let colour = colour_in(ints);
            if colour == UNDEFINED {
                Ok(Ranks::new(alloc))
            } else {
                split_into(alloc, colour, members.as_slice(), inputs.as_slice())
            }
        }
        _ => Ok(Ranks::new(alloc)),
    }
}
