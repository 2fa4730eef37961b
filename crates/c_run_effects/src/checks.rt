//! The checks of an MPI call's counts, colours, tags and elements.
ghost use Rattle.std.specs.Prelude.{◌≡◌, ◌≤◌, IfOk, IfSome, option_map};
ghost use Rattle.c_program.specs.Effects.{cell_of_answer, colour, status_count, count_of, enters, first_of_range, gets, handles_of, optional, same_count, status, tag_of, wanted_tag};
ghost use Rattle.c_program.specs.View.{pure_reference};

use c_program::constants::{MOST_CELLS, NULL};
use c_program::effect::{EnterInput, Into};
use c_program::expr::Reference;
use c_program::range::Range;
use c_run_cells::state::RankState;
use mpi_call::call::{Fault, Tag};
use mpi_call::limits::MOST_INTS;
use mpi_call::needs::UNDEFINED;

// ---- counts and colours

/// A count of ints, at most `MOST_INTS`.
pub fn count_of(count: i32) -> Result<u32, Fault>
    ensures { result ≡ count_of count }
{
    if count < 0 {
        return Err(Fault::BadCount);
    }
    if count <= MOST_INTS as i32 {
        Ok(count as u32)
    } else {
        Err(Fault::BadCount)
    }
}

/// How many handles.
pub fn handles_of(count: i32) -> Result<u32, Fault>
    ensures { result ≡ handles_of count }
{
    if count < 0 {
        Err(Fault::BadCount)
    } else {
        Ok(count as u32)
    }
}

/// A second count, which has to be the first one.
pub fn same_count(count: u32, other: i32) -> Result<u32, Fault>
    ensures { result ≡ same_count count other }
{
    let other = count_of(other)?;
    if count == other {
        Ok(count)
    } else {
        Err(Fault::BadCount)
    }
}

/// From 0 on, or `MPI_UNDEFINED`.
pub fn colour(number: i32) -> Result<i32, Fault>
    ensures { result ≡ colour number }
{
    if number >= 0 {
        return Ok(number);
    }
    if number == UNDEFINED {
        Ok(number)
    } else {
        Err(Fault::BadCount)
    }
}

// ---- tags

/// BadTag below 0.
pub fn tag_of(tag: i32) -> Result<u32, Fault>
    ensures { result ≡ tag_of tag }
{
    if tag < 0 {
        Err(Fault::BadTag)
    } else {
        Ok(tag as u32)
    }
}

/// The same, or `MPI_ANY_TAG`.
pub fn wanted_tag(tag: i32) -> Result<Tag, Fault>
    ensures { result ≡ wanted_tag tag }
{
    if tag == NULL {
        return Ok(Tag::Any);
    }
    Ok(Tag::Is(tag_of(tag)?))
}

// ---- elements

/// The first elements of a range; OutOfBounds where it has fewer.
pub fn first(n: usize, cells: Range) -> Result<Range, Fault>
    ensures { result ≡ first_of_range n cells }
{
    if n <= cells.length() as usize {
        cells.first(n as u32)
    } else {
        Err(Fault::OutOfBounds)
    }
}

/// The cell of a single answer.
pub fn cell(cells: Range) -> Result<u32, Fault>
    ensures cell { result ≡ cell_of_answer cells }
    ensures bound { IfOk result (λ cell_of_answer. cell_of_answer ≤ MOST_CELLS) }
{
    let one = first(1, cells)?;
    Ok(one.from())
}

/// The cells of statuses; `None` where they are ignored.
pub fn status(given: &Option<Reference>, state: &RankState) -> Result<Option<Range>, Fault>
    ensures { result ≡ status (option_map pure_reference given.now) state.now }
{
    match given {
        Some(reference) => Ok(Some(state.range(reference)?)),
        None => Ok(None),
    }
}

pub fn optional_cell(cells: Option<Range>) -> Result<Option<u32>, Fault>
    ensures cell { result ≡ optional cell_of_answer cells }
    ensures bound { IfOk result (λ found. IfSome found (λ cell_of_answer. cell_of_answer ≤ MOST_CELLS)) }
{
    match cells {
        Some(cells) => Ok(Some(cell(cells)?)),
        None => Ok(None),
    }
}

pub fn optional_first(n: u32, cells: Option<Range>) -> Result<Option<Range>, Fault>
    ensures { result ≡ optional (first_of_range n) cells }
{
    match cells {
        Some(cells) => Ok(Some(cells.first(n)?)),
        None => Ok(None),
    }
}

/// The count of a status, 0 where it was ignored.
pub fn count_in(status: Option<u32>, state: &RankState) -> i32
    requires { IfSome status (λ cell_of_answer. cell_of_answer ≤ MOST_CELLS) }
    ensures { result ≡ status_count status state.now }
{
    match status {
        Some(cell) => state.cell(cell + 2),
        None => 0,
    }
}

/// What a member enters.
pub fn enters(n: usize, cells: Range) -> Result<EnterInput, Fault>
    ensures { result ≡ enters n cells }
{
    Ok(EnterInput::Cells(first(n, cells)?))
}

/// Where what it gets goes.
pub fn gets(n: usize, cells: Range) -> Result<Into, Fault>
    ensures { result ≡ gets n cells }
{
    Ok(Into::Cells(first(n, cells)?))
}
