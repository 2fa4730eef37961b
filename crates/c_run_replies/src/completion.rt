//! Completion calls: the starts that handles name, and what their completion changes.
ghost use Rattle.std.specs.Prelude.{◌≡◌, ◌≤◌, ◌<◌, ◌^◌, ◌*◌, [], IfOk, OnOk, length, pos};
ghost use Rattle.std.specs.Option.{option_to_list};
ghost use Rattle.c_program.specs.Performing.{active_at, active_from, active_in, active_or_none, after_take, completing_of, empties, first_place, handle_places, none_active, put_empties, put_items, put_only_empty, starts_in, status_at, status_place, with_answer, with_communicators};
ghost use Rattle.run_model.specs.Allowed.{takes_all};
ghost use Rattle.mpi_call.specs.declared.reply.Reply.TheVariants.{Took};
ghost use Rattle.c_program.specs.State.{ints_in_cells};
ghost use Rattle.c_run_replies.specs.Left.{IsChanged, if_stood, is_more, item_put};
ghost use Rattle.c_program.specs.Performing.{Onward};
ghost use Rattle.c_run_replies.specs.Questions.{reached};
ghost use Rattle.mpi_call.specs.declared.call.Call.TheVariants.{Take};

use crate::answers::{completed, int_of, put, put_empty, put_some};
use crate::question::{Question, Reached};
use c_program::constants::{INT_LIMIT, NULL};
use c_program::effect::{AnswerCells, Rank};
use c_program::range::Range;
use c_run_cells::state::RankState;
use mpi_call::call::{Call, Fault, TakeMode};
use mpi_call::limits::MOST_RANKS;
use mpi_call::lists::{Ints, Starts};
use mpi_call::needs::UNDEFINED;
use mpi_call::reply::{Got, Item, Reply};
use std::alloc::{AllocError, Global};
use std::marker::Model;

/// A handle that names a start: its place among the handles, and the start's number. Contracts see a record of the two.
#[derive(Clone, Copy)]
pub struct Active {
    place: u32,
    start: u32,
}

impl Model for Active {
    ghost use Rattle.c_program.specs.Performing as kept;

    ghost Value = { kept.Active };

    ghost view = { λ a. record { place = a.place; start = a.start } };

    ghost inverse = { λ d. record { place = d.place; start = d.start } };
}

/// A completion call, and the rank that makes it.
#[derive(Clone, Copy)]
pub struct Completion {
    pub rank: Rank,
    pub requests: Range,
    pub mode: TakeMode,
    pub answer: AnswerCells,
}

impl Completion {
    ghost use Rattle.std.specs.Prelude.{◌≡◌};

    pub fn new(rank: Rank, requests: Range, mode: TakeMode, answer: AnswerCells) -> Completion
        ensures { result ≡ record { rank = rank; requests = requests; mode = mode; answer = answer } }
    {
        Completion {
            rank,
            requests,
            mode,
            answer,
        }
    }
}

// ---- handles

/// The start of a handle, by how many there are.
fn active_at(starts: u32, place: u32, handle: i32) -> Option<Active>
    ensures { option_to_list result ≡ active_at starts place handle }
{
    if handle < 0 {
        return None;
    }
    let start = handle as u32;
    if start < starts {
        Some(Active { place, start })
    } else {
        None
    }
}

/// The handles that name starts.
fn active_in(alloc: Global, requests: Range, state: &RankState) -> Result<Vec<Active>, AllocError>
    ensures { IfOk result (λ active. active.items ≡ active_in requests state.now) }
{
    let handles = handles_in(alloc, requests, state)?;
    active_among(alloc, state.start_count(), handles.as_slice())
}

/// Those of some handles, by how many starts there are.
fn active_among(alloc: Global, starts: u32, handles: &[i32]) -> Result<Vec<Active>, AllocError>
    requires { length handles.now < 2 ^ 32 }
    ensures { IfOk result (λ active. active.items ≡ active_from starts 0 handles.now) }
{
    let mut active = Vec::new(alloc);
    for (place, handle) in handles.iter().enumerate() {
        if let Some(one) = active_at(starts, place as u32, *handle) {
            active.push(one)?;
        }
    }
    Ok(active)
}

/// The handles of a call.
fn handles_in(alloc: Global, requests: Range, state: &RankState) -> Result<Ints, AllocError>
    ensures handles { IfOk result (λ handles. handles ≡ ints_in_cells requests state.now) }
    ensures few { IfOk result (λ handles. length handles < 2 ^ 32) }
{
    let _few = requests.length();
    let handles = state.ints_in(alloc, requests)?;
    Ok(handles)
}

/// The numbers of their starts.
fn starts_in(alloc: Global, active: &[Active]) -> Result<Starts, AllocError>
    ensures { IfOk result (λ starts. starts ≡ starts_in active.now) }
{
    let starts: Vec<u32> = active.iter().map(|one| one.start).collect(alloc)?;
    Starts::from_slice(alloc, &starts)
}

/// The handle that an item's index means.
fn active_or_none(active: &[Active], index: u32) -> Active
    ensures { result ≡ active_or_none active.now index }
{
    match active.get(index as usize) {
        None => Active { place: 0, start: 0 },
        Some(one) => *one,
    }
}

// ---- statuses

/// The cell of a status among those that are asked for.
fn status_at(statuses: Option<Range>, place: u32) -> Option<usize>
    ensures { result ≡ status_at statuses place }
{
    match statuses {
        None => None,
        Some(statuses) => {
            Some(statuses.from() as usize + place as usize * statuses.width() as usize)
        }
    }
}

/// The place of the status of a handle and an item.
fn status_place(mode: TakeMode, place: u32, number: u32) -> u32
    ensures { result ≡ status_place mode place number }
{
    match mode {
        TakeMode::All | TakeMode::TestAll => place,
        TakeMode::Any | TakeMode::TestAny => 0,
        TakeMode::Several | TakeMode::TestSeveral => number,
    }
}

/// Whether each handle has a status.
fn takes_all(mode: TakeMode) -> bool
    ensures { result ≡ takes_all mode }
{
    matches!(mode, TakeMode::All | TakeMode::TestAll)
}

/// The empty status for each handle that names no start.
fn put_empties(answer: &AnswerCells, starts: u32, handles: &[i32], state: &mut RankState)
    requires { length handles.now < 2 ^ 32 }
    ensures { state.new ≡ put_empties answer.now.statuses starts 0 handles.now state.old }
{
    for (index, handle) in handles.iter().enumerate() {
        let place = index as u32;
        if active_at(starts, place, *handle).is_none() {
            put_empty(state, status_at(answer.statuses, place));
        }
    }
}

/// The same for the handles of a call, where it has a status for each.
fn empties(alloc: Global, call: &Completion, state: &mut RankState) -> Result<(), AllocError>
    ensures { OnOk result (state.new ≡ empties call.now.requests call.now.mode call.now.answer state.old) }
{
    if !takes_all(call.mode) {
        return Ok(());
    }
    let starts = state.start_count();
    let handles = handles_in(alloc, call.requests, state)?;
    put_empties(&call.answer, starts, handles.as_slice(), state);
    Ok(())
}

/// The empty status, where a call that asks for one of the starts finds no handle of one.
fn put_only_empty(call: &Completion, state: &mut RankState)
    ensures { state.new ≡ put_only_empty call.now.mode call.now.answer state.old }
{
    if matches!(call.mode, TakeMode::Any | TakeMode::TestAny) {
        put_empty(state, status_at(call.answer.statuses, 0));
    }
}

// ---- items

/// Puts the message and the status of an item, and null into its handle; answers whether the cells of the message stand.
fn put_item(
    call: &Completion,
    one: Active,
    number: u32,
    got: &Got,
    state: &mut RankState,
) -> Result<bool, AllocError>
    requires { call.now.rank.ranks ≤ MOST_RANKS }
    ensures { IfOk result (λ done. IsChanged (item_put (completing_of call.now.rank.ranks call.now.requests call.now.mode call.now.answer) one number got.now state.old) state.old state.new done) }
{
    let start = state.start_at(one.start);
    let place = status_place(call.mode, one.place, number);
    let status = status_at(call.answer.statuses, place);
    if !completed(call.rank, start, status, got, state)? {
        return Ok(false);
    }
    let handle = call.requests.from() as usize + one.place as usize;
    put(state, handle, NULL);
    Ok(true)
}

/// Puts the items in order, as far as the cells of their messages stand; answers whether all do.
fn put_items(
    call: &Completion,
    active: &[Active],
    items: &[Item],
    state: &mut RankState,
) -> Result<bool, AllocError>
    requires ranks { call.now.rank.ranks ≤ MOST_RANKS }
    requires few { length items.now < 2 ^ 31 }
    ensures comes { IfOk result (λ all. (go : Onward) → put_items (completing_of call.now.rank.ranks call.now.requests call.now.mode call.now.answer) active.now 0 items.now state.old go ≡ if_stood all state.new go) }
    ensures left { OnOk result (state.new.left ≤ state.old.left) }
{
    for (number, item) in items.iter().enumerate() {
        let one = active_or_none(active, item.index);
        if !put_item(call, one, number as u32, &item.got, state)? {
            return Ok(false);
        }
    }
    Ok(true)
}

/// The places of the items' handles.
fn places_of(alloc: Global, active: &[Active], items: &[Item]) -> Result<Vec<i32>, AllocError>
    ensures { IfOk result (λ places. places.items ≡ handle_places active.now items.now) }
{
    let mut places = Vec::new(alloc);
    for item in items {
        let one = active_or_none(active, item.index);
        let place = int_of(one.place as usize)?;
        places.push(place)?;
    }
    Ok(places)
}

fn first_place(places: &[i32]) -> i32
    ensures { result ≡ first_place places.now }
{
    match places {
        [] => UNDEFINED,
        [place, ..] => *place,
    }
}

// ---- answers

/// Puts what a call asks for besides messages, statuses and handles, in the order in which MPI functions name it.
fn answered(
    answer: &AnswerCells,
    flag: i32,
    index: i32,
    outcount: i32,
    places: &[i32],
    state: &mut RankState,
)
    ensures { state.new ≡ with_answer answer.now flag index outcount places.now state.old }
{
    put_some(state, answer.index, index);
    put_some(state, answer.flag, flag);
    put_some(state, answer.outcount, outcount);
    if let Some(indices) = answer.indices {
        state.put_all(indices.from(), places);
    }
}

/// What a call changes that finds no handle of a start.
pub fn none_active(
    alloc: Global,
    call: &Completion,
    state: &mut RankState,
) -> Result<(), AllocError>
    ensures { OnOk result (state.new ≡ none_active call.now.requests call.now.mode call.now.answer state.old) }
{
    empties(alloc, call, state)?;
    put_only_empty(call, state);
    answered(&call.answer, 1, UNDEFINED, UNDEFINED, &[], state);
    Ok(())
}

/// Puts what a call asks for besides, once starts are complete. Out of memory also where no int counts them, as in no run.
fn answered_took(
    answer: &AnswerCells,
    items: &[Item],
    places: &[i32],
    state: &mut RankState,
) -> Result<(), AllocError>
    ensures { OnOk result (state.new ≡ with_answer answer.now (pos 1) (first_place places.now) (pos (length items.now)) places.now state.old) }
{
    let count = int_of(items.len())?;
    answered(answer, 1, first_place(places), count, places, state);
    Ok(())
}

/// Notes communicators that items made, and puts the statuses of handles that name no start.
fn noted(
    alloc: Global,
    call: &Completion,
    items: &[Item],
    state: &mut RankState,
) -> Result<(), AllocError>
    ensures { OnOk result (state.new ≡ empties call.now.requests call.now.mode call.now.answer (with_communicators items.now state.old)) }
{
    state.learn(items)?;
    empties(alloc, call, state)
}

/// What follows on items; answers whether the cells of all their messages stand. Out of memory also where no int counts
/// them, as in no run.
fn took(
    alloc: Global,
    call: &Completion,
    active: &[Active],
    items: &[Item],
    state: &mut RankState,
) -> Result<bool, AllocError>
    requires { call.now.rank.ranks ≤ MOST_RANKS }
    ensures comes { IfOk result (λ all. (go : Onward) → after_take (completing_of call.now.rank.ranks call.now.requests call.now.mode call.now.answer) active.now (Took items.now) state.old go ≡ if_stood all state.new go) }
    ensures left { OnOk result (state.new.left ≤ state.old.left) }
{
    if items.len() >= INT_LIMIT as usize {
        return Err(AllocError);
    }
    let places = places_of(alloc, active, items)?;
    noted(alloc, call, items, state)?;
    if !put_items(call, active, items, state)? {
        return Ok(false);
    }
    answered_took(&call.answer, items, &places, state)?;
    Ok(true)
}

/// What follows on the reply.
pub fn after_take(
    alloc: Global,
    call: &Completion,
    reply: &Reply,
    state: &mut RankState,
) -> Result<Reached, AllocError>
    requires { call.now.rank.ranks ≤ MOST_RANKS }
    ensures comes { IfOk result (λ found. (go : Onward) → after_take (completing_of call.now.rank.ranks call.now.requests call.now.mode call.now.answer) (active_in call.now.requests state.old) reply.now state.old go ≡ reached call.now.rank found state.new go) }
    ensures left { OnOk result (state.new.left ≤ state.old.left) }
{
    let Reply::Took(items) = reply else {
        answered(&call.answer, 0, UNDEFINED, 0, &[], state);
        return Ok(Reached::Done);
    };
    let active = active_in(alloc, call.requests, state)?;
    if took(alloc, call, &active, items.as_slice(), state)? {
        return Ok(Reached::Done);
    }
    Ok(Reached::Asks(Question::Trap(Fault::OutOfBounds)))
}

/// Whether handles name starts.
pub fn are_active(alloc: Global, requests: Range, state: &RankState) -> Result<bool, AllocError>
    ensures { IfOk result (λ are. are ≡ is_more (active_in requests state.now)) }
{
    let active = active_in(alloc, requests, state)?;
    Ok(!active.is_empty())
}

/// The call that completes the starts that handles name.
pub fn take_call(
    alloc: Global,
    requests: Range,
    mode: TakeMode,
    state: &RankState,
) -> Result<Call, AllocError>
    ensures { IfOk result (λ call. call ≡ Take (starts_in (active_in requests state.now)) mode) }
{
    let active = active_in(alloc, requests, state)?;
    let starts = starts_in(alloc, &active)?;
    Ok(Call::Take { starts, mode })
}
