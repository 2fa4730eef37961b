//! The receives from any source around a parting.
ghost use Rattle.std.specs.Prelude.{◌≡◌, ◌++◌, ◌∷◌, [], IfOk, OnOk, drop, false, flat_map, length, map, replicate, slice_get, slice_index, take};
ghost use Rattle.mpi_call.specs.Calls.{is_wildcard};
ghost use Rattle.run_model.specs.Views.{items_taken, starts_of, taken_of};
ghost use Rattle.view_diff.specs.inside.Marking.{unmarked_from, with_mark, with_marks, with_taken_marks};
ghost use Rattle.view_diff.specs.Opens.{got_from, is_wildcard_start, names_of_got, names_by, names_in, open_receives_before};

use mpi_call::call::{Call, Source};
use mpi_call::reply::{Got, Item, Reply};
use msg_races::names::{Name, Names};
use run_model::event::Event;
use run_model::starts::is_start;
use std::alloc::{AllocError, Global};
use view_tables::start_table::listed_by;

/// A start: its number among its rank's starts, and its call.
#[derive(Clone, Copy)]
pub struct OpenStart<'a> {
    pub number: usize,
    pub call: &'a Call,
}

/// The receives from any source that a rank made and had not completed before a call, by their numbers. Reads the events
/// before the call twice.
pub fn open_at<'a>(
    alloc: Global,
    own: &[&'a Event],
    number: usize,
) -> Result<Vec<OpenStart<'a>>, AllocError>
    ensures { IfOk result (λ starts. map (λ start. (start.number, start.call.now)) starts.items ≡ open_receives_before (map (λ event. (event.now.call, event.now.reply)) own.now) number) }
{
    let before = up_to(own, number);
    let starts = starts_of(alloc, before)?;
    open_among(alloc, &starts, before)
}

/// The messages that a rank's receives from any source got from a call on, in the order in which it took them.
pub fn got_from(alloc: Global, own: &[&Event], number: usize) -> Result<Names, AllocError>
    ensures { IfOk result (λ names. names ≡ got_from (map (λ event. (event.now.call, event.now.reply)) own.now) number) }
{
    let starts = starts_of(alloc, own)?;
    names_of(alloc, &starts, from_on(own, number))
}

/// The events before a number, or all.
fn up_to<'a, 'b>(own: &'b [&'a Event], number: usize) -> &'b [&'a Event]
    ensures { result.now ≡ take number own.now }
{
    if number < own.len() {
        &own[..number]
    } else {
        own
    }
}

/// The events from a number on, or none.
fn from_on<'a, 'b>(own: &'b [&'a Event], number: usize) -> &'b [&'a Event]
    ensures { result.now ≡ drop number own.now }
{
    if number < own.len() {
        &own[number..]
    } else {
        &[]
    }
}

/// The calls of a rank's starts, by number.
fn starts_of<'a>(alloc: Global, own: &[&'a Event]) -> Result<Vec<&'a Call>, AllocError>
    ensures { IfOk result (λ starts. map (λ call. call.now) starts.items ≡ starts_of (map (λ event. (event.now.call, event.now.reply)) own.now)) }
{
    let mut starts = Vec::new(alloc);
    let mut rest = own;
    while let [event, after @ ..] = rest {
        if is_start(&event.call, &event.reply) {
            starts.push(&event.call)?;
        }
        rest = after;
    }
    Ok(starts)
}

/// The receives from any source among these starts that these events did not complete.
fn open_among<'a>(
    alloc: Global,
    starts: &[&'a Call],
    own: &[&Event],
) -> Result<Vec<OpenStart<'a>>, AllocError>
    ensures { IfOk result (λ found. map (λ start. (start.number, start.call.now)) found.items
        ≡ unmarked_from 0 (map (λ call. call.now) starts.now) (with_taken_marks (replicate (length starts.now) false) (map (λ event. (event.now.call, event.now.reply)) own.now))) }
{
    let mut marks = Vec::new(alloc);
    marks.resize(starts.len(), false)?;
    mark_taken(&mut marks, own);
    unmarked(alloc, starts, &marks)
}

/// Marks the starts that these events completed.
fn mark_taken(marks: &mut [bool], own: &[&Event])
    ensures { marks.new ≡ with_taken_marks marks.old (map (λ event. (event.now.call, event.now.reply)) own.now) }
{
    let mut rest = own;
    while let [event, after @ ..] = rest {
        mark_reply(marks, &event.call, &event.reply);
        rest = after;
    }
}

/// Marks the starts that a reply completed.
fn mark_reply(marks: &mut [bool], call: &Call, reply: &Reply)
    ensures { marks.new ≡ with_marks marks.old (taken_of ((call.now, reply.now) ∷ [])) }
{
    if let Reply::Took(items) = reply {
        mark_items(marks, listed_by(call), items.as_slice());
    }
}

/// Marks the starts that these items completed. An index past the list reads 0.
fn mark_items(marks: &mut [bool], listed: &[u32], items: &[Item])
    ensures { marks.new ≡ with_marks marks.old (items_taken listed.now items.now) }
{
    let mut rest = items;
    while let [item, after @ ..] = rest {
        mark(marks, start_in(listed, item));
        rest = after;
    }
}

/// The start that an item completed, of those that are listed. An index past the list reads 0.
fn start_in(listed: &[u32], item: &Item) -> u32
    ensures { result ≡ slice_index listed.now item.now.index }
{
    listed.get(item.index as usize).copied().unwrap_or(0)
}

/// Marks a start, where there is one with this number.
fn mark(marks: &mut [bool], number: u32)
    ensures { marks.new ≡ with_mark marks.old number }
{
    if (number as usize) < marks.len() {
        marks[number as usize] = true;
    }
}

/// The receives from any source without a mark.
fn unmarked<'a>(
    alloc: Global,
    starts: &[&'a Call],
    marks: &[bool],
) -> Result<Vec<OpenStart<'a>>, AllocError>
    ensures { IfOk result (λ found. map (λ start. (start.number, start.call.now)) found.items ≡ unmarked_from 0 (map (λ call. call.now) starts.now) marks.now) }
{
    let mut found = Vec::new(alloc);
    let mut number = 0;
    let mut rest = starts;
    let mut left = marks;
    while let [call, after @ ..] = rest {
        let [mark, others @ ..] = left else {
            return Ok(found);
        };
        if is_wildcard(call) && !*mark {
            found.push(OpenStart { number, call })?;
        }
        number += 1;
        rest = after;
        left = others;
    }
    Ok(found)
}

/// Whether a call is a receive from any source.
fn is_wildcard(call: &Call) -> bool
    ensures { result ≡ is_wildcard call.now }
{
    matches!(
        call,
        Call::Post {
            source: Source::Any,
            ..
        }
    )
}

/// Whether the start with a number is a receive from any source.
fn is_wildcard_start(starts: &[&Call], number: u32) -> bool
    ensures { result ≡ is_wildcard_start (slice_get (map (λ call. call.now) starts.now) number) }
{
    match starts.get(number as usize) {
        Some(call) => is_wildcard(call),
        None => false,
    }
}

/// The messages that receives from any source got in some events.
fn names_of(alloc: Global, starts: &[&Call], events: &[&Event]) -> Result<Names, AllocError>
    ensures { IfOk result (λ names. names ≡ flat_map (names_by (map (λ call. call.now) starts.now)) (map (λ event. (event.now.call, event.now.reply)) events.now)) }
{
    let mut names = Names::new(alloc);
    let mut rest = events;
    while let [event, after @ ..] = rest {
        add_reply(&mut names, starts, &event.call, &event.reply)?;
        rest = after;
    }
    Ok(names)
}

/// Adds the messages that receives from any source got by a reply.
fn add_reply(
    names: &mut Names,
    starts: &[&Call],
    call: &Call,
    reply: &Reply,
) -> Result<(), AllocError>
    ensures { OnOk result (names.new ≡ names.old ++ names_by (map (λ call. call.now) starts.now) (call.now, reply.now)) }
{
    match reply {
        Reply::Took(items) => add_items(names, starts, listed_by(call), items.as_slice()),
        _ => Ok(()),
    }
}

/// The same, by the completed items of a list.
fn add_items(
    names: &mut Names,
    starts: &[&Call],
    listed: &[u32],
    items: &[Item],
) -> Result<(), AllocError>
    ensures { OnOk result (names.new ≡ names.old ++ names_in (map (λ call. call.now) starts.now) listed.now items.now) }
{
    let mut rest = items;
    while let [item, after @ ..] = rest {
        if is_wildcard_start(starts, start_in(listed, item)) {
            add_name(names, &item.got)?;
        }
        rest = after;
    }
    Ok(())
}

/// Adds the name of a message.
fn add_name(names: &mut Names, got: &Got) -> Result<(), AllocError>
    ensures { OnOk result (names.new ≡ names.old ++ names_of_got got.now) }
{
    match got {
        Got::Message { source, start, .. } => {
            names.push(Name {
                rank: *source,
                start: *start,
            })?;
            Ok(())
        }
        _ => Ok(()),
    }
}
