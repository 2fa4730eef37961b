//! What the replies to an effect's calls change.
ghost use Rattle.std.specs.Prelude.{◌≡◌, ◌≤◌, ◌==◌, IfOk, OnOk, Some, if◌then◌else◌, option_map, pos};
ghost use Rattle.std.specs.List.{position};
ghost use Rattle.c_program.specs.Performing.{completed, probed, put_empty, put_nothing, put_result, put_status, source_in, has_cells_for};
ghost use Rattle.c_program.specs.State.{null, put, put_all, put_some};
ghost use Rattle.c_program.specs.declared.effect.Into.TheVariants.{Cells as IntoCells, Handle};
ghost use Rattle.c_run_replies.specs.Left.{IsChanged};

use c_program::constants::{ANY_SOURCE, INT_LIMIT, NULL};
use c_program::effect::{Into, Rank};
use c_program::range::Range;
use c_program::state::Begun;
use c_run_cells::state::RankState;
use mpi_call::limits::MOST_RANKS;
use mpi_call::needs::UNDEFINED;
use mpi_call::reply::{Got, Reply};
use std::alloc::AllocError;

/// A number as an int. Out of memory also where no int holds it, as in no run.
pub fn int_of(number: usize) -> Result<i32, AllocError>
    ensures { IfOk result (λ int. int ≡ pos number) }
{
    if number < INT_LIMIT as usize {
        Ok(number as i32)
    } else {
        Err(AllocError)
    }
}

/// Puts a value where there is such a cell.
pub fn put(state: &mut RankState, cell: usize, value: i32)
    ensures { state.new ≡ put cell value state.old }
{
    if cell < state.height() {
        state.put(cell as u32, value);
    }
}

/// Puts ints from a cell on, as far as there are cells.
pub fn put_all(state: &mut RankState, cell: usize, values: &[i32])
    ensures { state.new ≡ put_all cell values.now state.old }
{
    if cell < state.height() {
        state.put_all(cell as u32, values);
    }
}

/// Puts a value where it is asked for.
pub fn put_some(state: &mut RankState, cell: Option<u32>, value: i32)
    ensures { state.new ≡ put_some cell value state.old }
{
    if let Some(cell) = cell {
        state.put(cell, value);
    }
}

/// Puts a status from a cell on, where it is asked for.
fn put_status(state: &mut RankState, at: Option<usize>, source: i32, tag: i32, count: i32)
    ensures { state.new ≡ put_status at source tag count state.old }
{
    if let Some(at) = at {
        put_all(state, at, &[source, tag, count]);
    }
}

/// Puts the status of a completed send and of a null handle.
pub fn put_empty(state: &mut RankState, at: Option<usize>)
    ensures { state.new ≡ put_empty at state.old }
{
    put_status(state, at, ANY_SOURCE, NULL, 0);
}

/// Puts the status of a receive or a probe of `MPI_PROC_NULL`.
pub fn put_nothing(state: &mut RankState, at: Option<usize>)
    ensures { state.new ≡ put_nothing at state.old }
{
    put_status(state, at, NULL, NULL, 0);
}

/// The cell of a status as an index.
pub fn status_cell(at: Option<u32>) -> Option<usize>
    ensures { result ≡ at }
{
    match at {
        None => None,
        Some(at) => Some(at as usize),
    }
}

/// The first place of a rank among members.
fn place_of(members: &[u8], rank: u8) -> Option<usize>
    ensures { result ≡ position (λ member. member == rank) members.now }
{
    members.iter().position(|member| *member == rank)
}

/// A sender as a rank of the communicator.
fn source_in(rank: Rank, comm: u32, source: u8, state: &RankState) -> Result<i32, AllocError>
    requires { rank.ranks ≤ MOST_RANKS }
    ensures { IfOk result (λ found. found ≡ source_in rank.ranks comm source state.now) }
{
    let members = match state.members(rank, comm) {
        None => &[],
        Some(members) => members,
    };
    match place_of(members, source) {
        None => Ok(UNDEFINED),
        Some(place) => int_of(place),
    }
}

/// Whether the cells that the ints of a message go to stand.
fn stands(buffer: Range, ints: &[i32], state: &RankState) -> bool
    ensures { result ≡ has_cells_for buffer ints.now state.now }
{
    ints.is_empty() || buffer.from() as usize + ints.len() <= state.height()
}

/// Puts the message and the status of a completed start; answers whether the cells of the message stand. Out of memory
/// also where no int holds a number of the message.
pub fn completed(
    rank: Rank,
    start: Begun,
    status: Option<usize>,
    got: &Got,
    state: &mut RankState,
) -> Result<bool, AllocError>
    requires { rank.ranks ≤ MOST_RANKS }
    ensures { IfOk result (λ done. IsChanged (completed rank.ranks start status got.now state.old) state.old state.new done) }
{
    match got {
        Got::Message {
            source,
            start: _,
            tag,
            ints,
        } => {
            let ints = ints.as_slice();
            if !stands(start.buffer, ints, state) {
                return Ok(false);
            }
            let source = source_in(rank, start.comm, *source, state)?;
            let tag = int_of(*tag as usize)?;
            let count = int_of(ints.len())?;
            state.put_all(start.buffer.from(), ints);
            put_status(state, status, source, tag, count);
            Ok(true)
        }
        Got::Nothing => {
            put_nothing(state, status);
            Ok(true)
        }
        _ => {
            put_empty(state, status);
            Ok(true)
        }
    }
}

/// Puts the result of a collective.
pub fn put_result(into: Into, got: Option<&Got>, state: &mut RankState) -> Result<(), AllocError>
    ensures { OnOk result (state.new ≡ put_result into (option_map (λ got. got.now) got.entry) state.old) }
{
    let Some(got) = got else {
        return Ok(());
    };
    match into {
        Into::Nowhere => Ok(()),
        Into::Cells(cells) => {
            put_joined(cells, got, state);
            Ok(())
        }
        Into::Handle(at) => put_made(at, got, state),
    }
}

/// Puts the ints of a result.
fn put_joined(cells: Range, got: &Got, state: &mut RankState)
    ensures { state.new ≡ put_result (IntoCells cells) (Some got.now) state.old }
{
    if let Got::Joined { ints } = got {
        state.put_all(cells.from(), ints.as_slice());
    }
}

/// Puts the handle of a communicator that was made.
fn put_made(at: u32, got: &Got, state: &mut RankState) -> Result<(), AllocError>
    ensures { OnOk result (state.new ≡ put_result (Handle at) (Some got.now) state.old) }
{
    if let Got::Made { comm, members: _ } = got {
        let handle = handle_of(*comm)?;
        state.put(at, handle);
    }
    Ok(())
}

/// The handle of a communicator; that of 0 is null.
fn handle_of(comm: u32) -> Result<i32, AllocError>
    ensures { IfOk result (λ handle. handle ≡ (if comm == 0 then null else pos comm)) }
{
    if comm == 0 {
        return Ok(NULL);
    }
    int_of(comm as usize)
}

/// Puts what a probe found, or that it found nothing.
pub fn probed(
    rank: Rank,
    comm: u32,
    flag: Option<u32>,
    status: Option<u32>,
    reply: &Reply,
    state: &mut RankState,
) -> Result<(), AllocError>
    requires { rank.ranks ≤ MOST_RANKS }
    ensures { OnOk result (state.new ≡ probed rank.ranks comm flag status reply.now state.old) }
{
    let Reply::Peeked {
        source,
        start: _,
        tag,
        count,
    } = reply
    else {
        put_some(state, flag, 0);
        return Ok(());
    };
    let source = source_in(rank, comm, *source, state)?;
    let tag = int_of(*tag as usize)?;
    let count = int_of(*count as usize)?;
    put_status(state, status_cell(status), source, tag, count);
    put_some(state, flag, 1);
    Ok(())
}
