//! The communicators that a history made.
ghost use Rattle.std.specs.Prelude.{◌≡◌, ◌++◌, ◌∷◌, [], ℕ, IfOk, None, OnOk, option_map, slice_get};
ghost use Rattle.mpi_call.specs.Calls.{ints_of};
ghost use Rattle.run_model.specs.Communicators.{count_on, is_enter_of, is_on, known_after, members_for_rank};
ghost use Rattle.run_model.specs.Lists.{world};
ghost use Rattle.run_model.specs.Numbers.{communicators_of, entered_by_all, made_at};
ghost use Rattle.run_model.specs.Views.{starts_of, view_of};
ghost use Rattle.run_states.specs.Codes.{code_of_made, code_of_origin};
ghost use Rattle.run_states.specs.inside.Origins.{colour_origins, enter_calls_on, if_entered, origins_made};

use crate::code::{StateCode, add_ints};
use comms::colours::colours_of;
use mpi_call::call::{Call, Comm, Kind};
use mpi_call::lists::{Inputs, Ints, Ranks};
use run_model::communicators::made_in;
use run_model::event::Event;
use run_model::lists::all_ranks;
use run_model::starts::is_start;
use std::alloc::{AllocError, Global};
use std::marker::Model;

/// Where a communicator comes from: the instance of a Split or Dup, and for a Split the colour.
#[derive(Drop)]
pub struct Origin {
    comm: Comm,
    instance: usize,
    colour: Ints,
}

impl Model for Origin {
    ghost use Rattle.run_model.specs.Numbers.{Origin};

    ghost Value = { Origin };

    ghost view = { λ s. record { comm = s.comm; instance = s.instance; colour = s.colour } };
}

/// Whether a call is an Enter on a communicator.
fn is_on(comm: Comm, call: &Call) -> bool
    ensures { result ≡ is_on comm call.now }
{
    match call {
        Call::Enter { comm: other, .. } => *other == comm,
        _ => false,
    }
}

/// Whether an event is an Enter of a rank on a communicator.
fn is_enter(event: &Event, rank: u8, comm: Comm) -> bool
    ensures { result ≡ is_enter_of rank comm event.now }
{
    is_start(&event.call, &event.reply) && is_on(comm, &event.call) && event.rank == rank
}

/// How many Enters a rank made on a communicator.
fn count_enters(events: &[Event], rank: u8, comm: Comm) -> usize
    ensures { result ≡ count_on comm (starts_of (view_of events.now rank)) }
{
    let mut count = 0;
    let mut rest = events;
    while let [event, after @ ..] = rest {
        if is_enter(event, rank, comm) {
            count += 1;
        }
        rest = after;
    }
    count
}

/// A rank's Enter of an instance of a communicator.
fn entered(events: &[Event], rank: u8, comm: Comm, instance: usize) -> Option<&Call>
    ensures { option_map (λ call. call.now) result ≡ slice_get (enter_calls_on comm (view_of events.now rank)) instance }
{
    let mut left = instance;
    let mut rest = events;
    while let [event, after @ ..] = rest {
        if is_enter(event, rank, comm) {
            if left == 0 {
                return Some(&event.call);
            }
            left -= 1;
        }
        rest = after;
    }
    None
}

/// The members that the first reply of a rank with this number gave.
fn known(events: &[Event], rank: u8, comm: Comm) -> Option<&Ranks>
    ensures { option_map (λ members. members.now) result ≡ known_after comm None (view_of events.now rank) }
{
    let mut rest = events;
    while let [event, after @ ..] = rest {
        if event.rank == rank {
            if let Some(members) = made_in(&event.reply, comm) {
                return Some(members);
            }
        }
        rest = after;
    }
    None
}

/// The ints that an Enter brings.
fn ints_of(alloc: Global, call: &Call) -> Result<Ints, AllocError>
    ensures { IfOk result (λ ints. ints ≡ ints_of call.now) }
{
    match call {
        Call::Send { ints, .. } | Call::Enter { ints, .. } => {
            Ints::from_slice(alloc, ints.as_slice())
        }
        _ => Ok(Ints::new(alloc)),
    }
}

/// What each of these ranks entered in an instance of a communicator, if all of them have.
fn inputs_of(
    alloc: Global,
    events: &[Event],
    members: &[u8],
    comm: Comm,
    instance: usize,
) -> Result<Option<Inputs>, AllocError>
    ensures { IfOk result (λ inputs. (n : ℕ) → inputs ≡ if_entered (entered_by_all n (view_of events.now) comm instance members.now)) }
{
    let mut inputs = Inputs::new(alloc);
    let mut rest = members;
    while let [member, after @ ..] = rest {
        let Some(call) = entered(events, *member, comm, instance) else {
            return Ok(None);
        };
        let ints = ints_of(alloc, call)?;
        inputs.push(ints)?;
        rest = after;
    }
    Ok(Some(inputs))
}

/// Adds an origin for each of these colours.
fn add_colours(
    alloc: Global,
    origins: &mut Vec<Origin>,
    comm: Comm,
    instance: usize,
    colours: &[i32],
) -> Result<(), AllocError>
    ensures { OnOk result (origins.new.items ≡ origins.old.items ++ colour_origins comm instance colours.now) }
{
    let mut rest = colours;
    while let [colour, after @ ..] = rest {
        origins.push(Origin {
            comm,
            instance,
            colour: Ints::from_slice(alloc, &[*colour])?,
        })?;
        rest = after;
    }
    Ok(())
}

/// Adds what an instance makes, by what each member entered.
fn add_made(
    alloc: Global,
    origins: &mut Vec<Origin>,
    kind: Kind,
    comm: Comm,
    instance: usize,
    inputs: &Inputs,
) -> Result<(), AllocError>
    ensures { OnOk result (origins.new.items ≡ origins.old.items ++ origins_made kind comm instance inputs.now) }
{
    match kind {
        Kind::Split => {
            let colours = colours_of(alloc, inputs.as_slice())?;
            add_colours(alloc, origins, comm, instance, colours.as_slice())
        }
        Kind::Dup => {
            origins.push(Origin {
                comm,
                instance,
                colour: Ints::new(alloc),
            })?;
            Ok(())
        }
        _ => Ok(()),
    }
}

/// The members of a communicator for a rank; `all` are all ranks.
fn members_of<'a>(all: &'a Ranks, before: &'a [Event], rank: u8, comm: Comm) -> &'a [u8]
    ensures { (n : ℕ) → all.now ≡ world n 0 → result.now ≡ members_for_rank n (view_of before.now rank) comm }
{
    if comm == 0 {
        return all.as_slice();
    }
    match known(before, rank, comm) {
        Some(members) => members.as_slice(),
        None => &[],
    }
}

/// Adds the communicators that an event makes, which is the last of these events.
fn add_at(
    alloc: Global,
    origins: &mut Vec<Origin>,
    all: &Ranks,
    before: &[Event],
    events: &[Event],
    event: &Event,
) -> Result<(), AllocError>
    requires { events.now ≡ before.now ++ event.now ∷ [] }
    ensures { OnOk result ((n : ℕ) → all.now ≡ world n 0 → origins.new.items ≡ origins.old.items ++ made_at n before.now event.now) }
{
    if !is_start(&event.call, &event.reply) {
        return Ok(());
    }
    let Call::Enter { comm, kind, .. } = &event.call else {
        return Ok(());
    };
    let instance = count_enters(before, event.rank, *comm);
    let members = members_of(all, before, event.rank, *comm);
    match inputs_of(alloc, events, members, *comm, instance)? {
        Some(inputs) => {
            add_made(alloc, origins, *kind, *comm, instance, &inputs)?;
            Ok(())
        }
        None => Ok(()),
    }
}

/// The communicators that events of n ranks made, in order.
pub fn origins_of(alloc: Global, n: u8, events: &[Event]) -> Result<Vec<Origin>, AllocError>
    ensures { IfOk result (λ origins. origins.items ≡ communicators_of n events.now) }
{
    let all = all_ranks(alloc, n)?;
    let mut origins = Vec::new(alloc);
    for (at, event) in events.iter().enumerate() {
        add_at(
            alloc,
            &mut origins,
            &all,
            &events[..at],
            &events[..at + 1],
            event,
        )?;
    }
    Ok(origins)
}

/// Adds where a communicator comes from.
fn add_origin(code: &mut StateCode, origin: &Origin) -> Result<(), AllocError>
    ensures { OnOk result (code.new.numbers.items ≡ code.old.numbers.items ++ code_of_origin origin.now) }
{
    code.push(origin.comm)?;
    code.push_len(origin.instance)?;
    add_ints(code, origin.colour.as_slice())
}

/// Adds how many communicators there are, and where each comes from.
pub fn add_origins(code: &mut StateCode, origins: &[Origin]) -> Result<(), AllocError>
    ensures { OnOk result (code.new.numbers.items ≡ code.old.numbers.items ++ code_of_made origins.now) }
{
    code.push_len(origins.len())?;
    let mut rest = origins;
    while let [origin, after @ ..] = rest {
        add_origin(code, origin)?;
        rest = after;
    }
    Ok(())
}
