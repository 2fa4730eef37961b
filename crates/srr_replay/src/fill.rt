//! The reply that an entry represents, where it fits, and all that it rests on is there and agrees.
ghost use Rattle.std.specs.Prelude.{◌≡◌, ◌<◌, [], ℕ, List, None, Ok, Some, IfOk, true, false};
ghost use Rattle.mpi_call.specs.declared.call.Call.{Call};
ghost use Rattle.mpi_call.specs.declared.reply.Got.TheVariants.{Joined, Made, Message};
ghost use Rattle.mpi_call.specs.Calls.{comm_of, ints_of, is_enter, makes};
ghost use Rattle.mpi_call.specs.Collectives.{IsEnterOf, is_member, needs};
ghost use Rattle.run_model.specs.Communicators.{enter_at};
ghost use Rattle.run_model.specs.Forms.{AreInOrder};
ghost use Rattle.run_model.specs.Inputs.{gather, inputs_of};
ghost use Rattle.run_model.specs.Views.{start_at, view_of};
ghost use Rattle.replay_model.specs.Breaks.{break_inner, break_mark, break_marks, broken};
ghost use Rattle.replay_model.specs.Filling.{absent_of, asker_of, fill_inner, fill_made, fill_mark, fill_marks, filled_message, filled_reply, joined_result, made_new, missing_of, peeked_from};
ghost use Rattle.srr_replay.specs.inside.Collectives.{IsCollective};
ghost use Rattle.replay_model.specs.Fits.{entry_fits, mark_fits, marks_fit};

use crate::fit::comm_of;
use crate::indexed_history::IndexedHistory;
use crate::next_call::NextCall;
use mpi_call::call::{Call, Comm};
use mpi_call::lists::{Inputs, Ints, Ranks};
use mpi_call::needs::needs;
use mpi_call::reply::{Got, Item, Items, Reply};
use mpi_call::results::result;
use mpi_call::splits::made;
use srr_entry::entry::{Entry, Mark, Marked};
use std::alloc::{AllocError, Global};

/// The reply.
#[tactic(auto, unfolding(replay_model::specs::Fits::entry_fits))]
pub fn reply(
    alloc: Global,
    seen: &IndexedHistory,
    asked: &NextCall<'_>,
    entry: &Entry,
) -> Result<Reply, AllocError>
    requires rank { asked.now.rank < seen.now.ranks }
    requires order { AreInOrder seen.now.ranks seen.now.events }
    requires fits { (group : List ℕ) × (entry_fits seen.now.ranks group asked.now.rank (view_of seen.now.events asked.now.rank) asked.now.call.now entry.now ≡ true) }
    requires there { missing_of (filled_reply seen.now.ranks (view_of seen.now.events) asked.now.rank (view_of seen.now.events asked.now.rank) asked.now.call.now entry.now) ≡ None }
    requires agrees { broken seen.now.ranks (view_of seen.now.events) asked.now.rank (view_of seen.now.events asked.now.rank) asked.now.call.now entry.now ≡ None }
    ensures { IfOk result (λ reply. filled_reply seen.now.ranks (view_of seen.now.events) asked.now.rank (view_of seen.now.events asked.now.rank) asked.now.call.now entry.now ≡ Ok reply) }
{
    match entry {
        Entry::Sent | Entry::Posted | Entry::Entered | Entry::Ended => Ok(Reply::Done),
        Entry::NotYet => Ok(Reply::NotYet),
        Entry::Stopped(halt) => Ok(Reply::Stopped(*halt)),
        Entry::PeekedInside { source, start } => Ok(probed(seen, *source, *start)),
        Entry::PeekedOutside {
            source,
            start,
            tag,
            count,
        } => Ok(Reply::Peeked {
            source: *source,
            start: *start,
            tag: *tag,
            count: *count,
        }),
        Entry::Took(marks) => match asked.call {
            Call::Take { starts, mode: _ } => {
                let items = items(alloc, seen, asked.rank, starts.as_slice(), marks.as_slice())?;
                Ok(Reply::Took(items))
            }
            _ => unreachable!(),
        },
    }
}

/// What a probe found.
fn probed(seen: &IndexedHistory, source: u8, start: u32) -> Reply
    requires order { AreInOrder seen.now.ranks seen.now.events }
    requires there { missing_of (peeked_from source start (start_at (view_of seen.now.events source) start)) ≡ None }
    ensures { peeked_from source start (start_at (view_of seen.now.events source) start) ≡ Ok result }
{
    match seen.start(source, start) {
        Some(Call::Send { tag, ints, .. }) => Reply::Peeked {
            source,
            start,
            tag: *tag,
            count: ints.as_slice().len() as u32,
        },
        Some(_) => Reply::NotYet,
        None => unreachable!(),
    }
}

/// What the marks of completed starts represent. An index past the list reads start 0.
fn items(
    alloc: Global,
    seen: &IndexedHistory,
    rank: u8,
    starts: &[u32],
    marks: &[Marked],
) -> Result<Items, AllocError>
    requires rank { rank < seen.now.ranks }
    requires order { AreInOrder seen.now.ranks seen.now.events }
    requires fits { (group : List ℕ) × (marks_fit seen.now.ranks group rank (view_of seen.now.events rank) starts.now marks.now ≡ true) }
    requires there { missing_of (fill_marks seen.now.ranks (view_of seen.now.events) rank (view_of seen.now.events rank) starts.now marks.now) ≡ None }
    requires agrees { break_marks seen.now.ranks (view_of seen.now.events) rank (view_of seen.now.events rank) starts.now marks.now ≡ None }
    ensures { IfOk result (λ items. fill_marks seen.now.ranks (view_of seen.now.events) rank (view_of seen.now.events rank) starts.now marks.now ≡ Ok items) }
{
    let mut found = Items::new(alloc);
    let mut rest = marks;
    while let [marked, after @ ..] = rest {
        let start = starts.get(marked.index as usize).copied().unwrap_or(0);
        let got = got(alloc, seen, rank, start, &marked.mark)?;
        found.push(Item {
            index: marked.index,
            got,
        })?;
        rest = after;
    }
    Ok(found)
}

/// What the mark of the rank's start represents.
fn got(
    alloc: Global,
    seen: &IndexedHistory,
    rank: u8,
    start: u32,
    mark: &Mark,
) -> Result<Got, AllocError>
    requires rank { rank < seen.now.ranks }
    requires order { AreInOrder seen.now.ranks seen.now.events }
    requires fits { (group : List ℕ) × (mark_fits seen.now.ranks group rank (view_of seen.now.events rank) (start_at (view_of seen.now.events rank) start) mark.now ≡ true) }
    requires there { missing_of (fill_mark seen.now.ranks (view_of seen.now.events) rank (view_of seen.now.events rank) start mark.now) ≡ None }
    requires agrees { break_mark seen.now.ranks (view_of seen.now.events) rank (view_of seen.now.events rank) start mark.now ≡ None }
    ensures { IfOk result (λ got. fill_mark seen.now.ranks (view_of seen.now.events) rank (view_of seen.now.events rank) start mark.now ≡ Ok got) }
{
    match mark {
        Mark::Sent => Ok(Got::Sent),
        Mark::Nothing => Ok(Got::Nothing),
        Mark::Inside {
            source,
            start: named,
        } => message(seen, *source, *named),
        Mark::Outside {
            source,
            start: named,
            tag,
            ints,
        } => copy_message(*source, *named, *tag, ints),
        Mark::Inner => result_of(alloc, seen, rank, start),
        Mark::Outer { ints } => copy_result(ints),
        Mark::Made { comm } => {
            if *comm == 0 {
                return Ok(made_none(alloc));
            }
            made_of(alloc, seen, rank, start, *comm)
        }
        Mark::MadeOutside { comm, members } => copy_made(*comm, members),
    }
}

/// A message with these contents.
fn copy_message(source: u8, start: u32, tag: u32, ints: &Ints) -> Result<Got, AllocError>
    ensures { IfOk result (λ got. got ≡ Message source start tag ints.now) }
{
    let ints = ints.clone()?;
    Ok(Got::Message {
        source,
        start,
        tag,
        ints,
    })
}

/// A collective's result with these contents.
fn copy_result(ints: &Ints) -> Result<Got, AllocError>
    ensures { IfOk result (λ got. got ≡ Joined ints.now) }
{
    let ints = ints.clone()?;
    Ok(Got::Joined { ints })
}

/// A communicator with these members.
fn copy_made(comm: Comm, members: &Ranks) -> Result<Got, AllocError>
    ensures { IfOk result (λ got. got ≡ Made comm members.now) }
{
    let members = members.clone()?;
    Ok(Got::Made { comm, members })
}

/// What a rank without a colour gets.
fn made_none(alloc: Global) -> Got
    ensures { result ≡ Made 0 [] }
{
    Got::Made {
        comm: 0,
        members: Ranks::new(alloc),
    }
}

/// The message of a named Send.
fn message(seen: &IndexedHistory, source: u8, start: u32) -> Result<Got, AllocError>
    requires there { missing_of (filled_message source start (start_at (view_of seen.now.events source) start)) ≡ None }
    ensures { IfOk result (λ got. filled_message source start (start_at (view_of seen.now.events source) start) ≡ Ok got) }
{
    match seen.start(source, start) {
        Some(Call::Send { tag, ints, .. }) => copy_message(source, start, *tag, ints),
        Some(_) => Ok(Got::Nothing),
        None => unreachable!(),
    }
}

/// The result of the rank's collective, from what the needed members entered.
fn result_of(alloc: Global, seen: &IndexedHistory, rank: u8, start: u32) -> Result<Got, AllocError>
    requires rank { rank < seen.now.ranks }
    requires order { AreInOrder seen.now.ranks seen.now.events }
    requires enter { (call : Call) → start_at (view_of seen.now.events rank) start ≡ Some call → (is_enter call ≡ true) × (makes call ≡ false) }
    requires there { missing_of (fill_inner seen.now.ranks (view_of seen.now.events) rank (view_of seen.now.events rank) start (start_at (view_of seen.now.events rank) start)) ≡ None }
    requires agrees { break_inner seen.now.ranks (view_of seen.now.events) rank (view_of seen.now.events rank) start (start_at (view_of seen.now.events rank) start) ≡ None }
    ensures { IfOk result (λ got. fill_inner seen.now.ranks (view_of seen.now.events) rank (view_of seen.now.events rank) start (start_at (view_of seen.now.events rank) start) ≡ Ok got) }
{
    match seen.start(rank, start) {
        Some(call) => {
            let ints = result_for(alloc, seen, rank, start, call)?;
            Ok(Got::Joined { ints })
        }
        None => Ok(Got::Nothing),
    }
}

/// The result, where that start is this Enter.
fn result_for(
    alloc: Global,
    seen: &IndexedHistory,
    rank: u8,
    start: u32,
    call: &Call,
) -> Result<Ints, AllocError>
    requires collective { IsCollective seen.now.ranks seen.now.events rank start call.now }
    requires kind { makes call.now ≡ false }
    ensures { IfOk result (λ ints. joined_result seen.now.ranks rank (view_of seen.now.events rank) start call.now (inputs_of seen.now.ranks (view_of seen.now.events) rank (view_of seen.now.events rank) start call.now) ≡ Ok (Joined ints)) }
{
    let comm = comm_of(call);
    let instance = seen.instance(rank, start, comm);
    let members = seen.members(rank, comm);
    let inputs = inputs(alloc, seen, call, members, rank, instance)?;
    result(alloc, call, members, &inputs, rank)
}

/// The communicator that the rank's collective makes.
fn made_of(
    alloc: Global,
    seen: &IndexedHistory,
    rank: u8,
    start: u32,
    comm: Comm,
) -> Result<Got, AllocError>
    requires rank { rank < seen.now.ranks }
    requires order { AreInOrder seen.now.ranks seen.now.events }
    requires enter { (call : Call) → start_at (view_of seen.now.events rank) start ≡ Some call → (is_enter call ≡ true) × (makes call ≡ true) }
    requires there { missing_of (fill_made comm (view_of seen.now.events) (asker_of seen.now.ranks rank (view_of seen.now.events rank)) start (start_at (view_of seen.now.events rank) start)) ≡ None }
    requires agrees { break_inner seen.now.ranks (view_of seen.now.events) rank (view_of seen.now.events rank) start (start_at (view_of seen.now.events rank) start) ≡ None }
    ensures { IfOk result (λ got. fill_made comm (view_of seen.now.events) (asker_of seen.now.ranks rank (view_of seen.now.events rank)) start (start_at (view_of seen.now.events rank) start) ≡ Ok got) }
{
    match seen.start(rank, start) {
        Some(call) => {
            let members = members_for(alloc, seen, rank, start, call)?;
            Ok(Got::Made { comm, members })
        }
        None => Ok(Got::Nothing),
    }
}

/// Its members, where that start is this Enter.
fn members_for(
    alloc: Global,
    seen: &IndexedHistory,
    rank: u8,
    start: u32,
    call: &Call,
) -> Result<Ranks, AllocError>
    requires collective { IsCollective seen.now.ranks seen.now.events rank start call.now }
    requires kind { makes call.now ≡ true }
    ensures { IfOk result (λ members. (comm : ℕ) → made_new comm (asker_of seen.now.ranks rank (view_of seen.now.events rank)) start call.now (inputs_of seen.now.ranks (view_of seen.now.events) rank (view_of seen.now.events rank) start call.now) ≡ Ok (Made comm members)) }
{
    let comm = comm_of(call);
    let instance = seen.instance(rank, start, comm);
    let members = seen.members(rank, comm);
    let inputs = inputs(alloc, seen, call, members, rank, instance)?;
    made(alloc, call, members, &inputs, rank)
}

/// What each member that is needed entered, in member order, and nothing for the others.
fn inputs(
    alloc: Global,
    seen: &IndexedHistory,
    call: &Call,
    members: &Ranks,
    rank: u8,
    instance: u32,
) -> Result<Inputs, AllocError>
    requires form { IsEnterOf call.now members.now rank }
    requires member { is_member members.now rank ≡ true }
    requires there { absent_of (gather (needs call.now members.now rank) (λ m. enter_at seen.now.ranks (view_of seen.now.events m) (comm_of call.now) instance) members.now) ≡ None }
    ensures { IfOk result (λ inputs. gather (needs call.now members.now rank) (λ m. enter_at seen.now.ranks (view_of seen.now.events m) (comm_of call.now) instance) members.now ≡ Ok inputs) }
{
    let mut found = Inputs::new(alloc);
    let mut rest = members.as_slice();
    while let [member, after @ ..] = rest {
        if needs(call, members, rank, *member) {
            match seen.entered(*member, comm_of(call), instance) {
                Some(entered) => found.push(copy_ints(alloc, entered.call)?)?,
                None => unreachable!(),
            }
        } else {
            found.push(Ints::new(alloc))?;
        }
        rest = after;
    }
    Ok(found)
}

fn copy_ints(alloc: Global, call: &Call) -> Result<Ints, AllocError>
    ensures { IfOk result (λ ints. ints ≡ ints_of call.now) }
{
    match call {
        Call::Enter { ints, .. } | Call::Send { ints, .. } => ints.clone(),
        _ => Ok(Ints::new(alloc)),
    }
}
