//! The colours of a Split, and the numbers and members of the communicators that it makes.
ghost use Rattle.std.specs.Prelude.{◌≡◌, ◌+◌, ◌<◌, ◌^◌, ◌++◌, ◌∷◌, [], length, map, filter, not, IfOk, OnOk};
ghost use Rattle.std.specs.List.{dedup};
ghost use Rattle.std.specs.List.Sorted.{IsSorted, IsStrictlySortedBy};
ghost use Rattle.std.specs.Ordering.{int_cmp, int_eq};
ghost use Rattle.mpi_call.specs.Made.{by_key};
ghost use Rattle.mpi_call.specs.Needs.{colour_in, undefined_colour};
ghost use Rattle.comms.specs.Colours.{colours_of, colour_number, place_among};

use crate::numbers::Numbers;
use mpi_call::call::Comm;
use mpi_call::lists::Ints;
use mpi_call::needs::{UNDEFINED, colour_in};
use std::alloc::{AllocError, Global};

/// The colours that were entered, in member order, without the undefined one.
fn defined_colours(alloc: Global, inputs: &[Ints]) -> Result<Vec<i32>, AllocError>
    ensures { IfOk result (λ colours. colours.items ≡ filter (λ colour. not (int_eq colour undefined_colour)) (map colour_in inputs.now)) }
{
    let mut colours = Vec::new(alloc);
    for ints in inputs {
        add_defined(&mut colours, colour_in(ints))?;
    }
    Ok(colours)
}

/// Adds a colour but the undefined one.
fn add_defined(colours: &mut Vec<i32>, colour: i32) -> Result<(), AllocError>
    ensures { OnOk result (colours.new.items ≡ colours.old.items ++ filter (λ other. not (int_eq other undefined_colour)) (colour ∷ [])) }
{
    if colour != UNDEFINED {
        colours.push(colour)?;
    }
    Ok(())
}

/// Sorts colours.
fn sort(colours: &mut Vec<i32>) -> Result<(), AllocError>
    ensures rising { OnOk result (IsSorted int_cmp colours.new.items) }
    ensures sorted { OnOk result (colours.new.items ≡ by_key (λ colour. colour) colours.old.items) }
{
    colours.sort()
}

/// Leaves each of some colours that rise once.
fn leave_once(colours: &mut Vec<i32>)
    requires { IsSorted int_cmp colours.old.items }
    ensures rising { IsStrictlySortedBy int_cmp colours.new.items }
    ensures left { colours.new.items ≡ dedup int_eq colours.old.items }
{
    colours.dedup();
}

/// The colours that were entered, rising, each once, without the undefined one.
pub fn colours_of(alloc: Global, inputs: &[Ints]) -> Result<Vec<i32>, AllocError>
    ensures value { IfOk result (λ colours. colours.items ≡ colours_of inputs.now) }
    ensures rising { IfOk result (λ colours. IsStrictlySortedBy int_cmp colours.items) }
{
    let mut colours = defined_colours(alloc, inputs)?;
    sort(&mut colours)?;
    leave_once(&mut colours);
    Ok(colours)
}

/// Where a colour stands among some that rise, or their number where it does not. Takes no memory.
pub fn place_among(colours: &[i32], colour: i32) -> usize
    requires { IsStrictlySortedBy int_cmp colours.now }
    ensures { result ≡ place_among colours.now colour }
{
    match colours.binary_search(&colour) {
        Ok(place) => place,
        Err(_) => colours.len(),
    }
}

/// The number of the communicator of a colour, where `first` is that of the first one; 0 for a colour that is none of these.
fn number_for(colours: &[i32], first: Comm, colour: i32) -> Comm
    requires rising { IsStrictlySortedBy int_cmp colours.now }
    requires fits { first + length colours.now < 2 ^ 32 }
    ensures { result ≡ colour_number colours.now first colour }
{
    let place = place_among(colours, colour);
    if place < colours.len() {
        first + place as u32
    } else {
        0
    }
}

/// The number that each member gets.
pub fn numbers_for(
    alloc: Global,
    colours: &[i32],
    first: Comm,
    inputs: &[Ints],
) -> Result<Numbers, AllocError>
    requires rising { IsStrictlySortedBy int_cmp colours.now }
    requires fits { first + length colours.now < 2 ^ 32 }
    ensures { IfOk result (λ numbers. numbers ≡ map (λ ints. colour_number colours.now first (colour_in ints)) inputs.now) }
{
    let mut numbers = Numbers::new(alloc);
    for ints in inputs {
        numbers.push(number_for(colours, first, colour_in(ints)))?;
    }
    Ok(numbers)
}
