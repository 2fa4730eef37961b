//! The members of a Split's communicators.
ghost use Rattle.std.specs.Prelude.{◌≡◌, length, map, IfOk};
ghost use Rattle.mpi_call.specs.Made.{split_into};

use mpi_call::lists::{Ints, Ranks};
use mpi_call::splits::split_into;
use std::alloc::{AllocError, Global};

/// The members of each colour, by key and then by place.
pub fn members_by_colour(
    alloc: Global,
    colours: &[i32],
    members: &[u8],
    inputs: &[Ints],
) -> Result<Vec<Ranks>, AllocError>
    requires { length inputs.now ≡ length members.now }
    ensures { IfOk result (λ groups. groups.items ≡ map (λ colour. split_into colour members.now inputs.now) colours.now) }
{
    let mut groups = Vec::new(alloc);
    for colour in colours {
        groups.push(split_into(alloc, *colour, members, inputs)?)?;
    }
    Ok(groups)
}
