//! For whom a rank waits with a start.
ghost use Rattle.std.specs.Prelude.{◌≡◌, ◌<◌, ◌++◌, ◌∷◌, ◌&&◌, ◌==◌, [], ℕ, List, IfOk, OnOk, if◌then◌else◌, filter, is_some, length, not, option_map};
ghost use Rattle.mpi_call.specs.Needs.{needs};
ghost use Rattle.run_model.specs.declared.event.Event.{Event as EventSpec};
ghost use Rattle.run_model.specs.Communicators.{enter_at, or_none};
ghost use Rattle.run_model.specs.Views.{view_of};
ghost use Rattle.wait_graph.specs.Register.{IsRegister};
ghost use Rattle.wait_graph.specs.Waits.{absent_for, awaited_by, senders};

use crate::register::Register;
use mpi_call::call::{Call, Comm, Source};
use mpi_call::lists::Ranks;
use mpi_call::needs::needs;
use std::alloc::{AllocError, Global};

/// For whom a rank waits with a start, or with a probe.
pub fn awaited_by(
    alloc: Global,
    register: &Register,
    me: u8,
    start: u32,
    call: &Call,
) -> Result<Ranks, AllocError>
    requires { me < length register.now.ranks.items }
    ensures { IfOk result (λ ranks. (n : ℕ) (events : List EventSpec) → IsRegister n events register.now → ranks ≡ awaited_by n events me start call.now) }
{
    match call {
        Call::Send { dest, .. } => one_rank(alloc, *dest),
        Call::Post { comm, source, .. } => senders(alloc, register.members(me, *comm), me, source),
        Call::Peek { comm, source, .. } => senders(alloc, register.members(me, *comm), me, source),
        Call::Enter { comm, .. } => absent_for(alloc, register, me, start, *comm, call),
        _ => Ok(Ranks::new(alloc)),
    }
}

fn one_rank(alloc: Global, rank: u8) -> Result<Ranks, AllocError>
    ensures { IfOk result (λ ranks. ranks ≡ rank ∷ []) }
{
    let mut ranks = Ranks::new(alloc);
    ranks.push(rank)?;
    Ok(ranks)
}

/// Whose message a rank can get.
fn senders(
    alloc: Global,
    members: Option<&Ranks>,
    me: u8,
    source: &Source,
) -> Result<Ranks, AllocError>
    ensures { IfOk result (λ ranks. ranks ≡ senders (or_none (option_map (λ members. members.now) members.entry)) me source.now) }
{
    match source {
        Source::Any => match members {
            Some(members) => others(alloc, members, me),
            None => Ok(Ranks::new(alloc)),
        },
        Source::From(rank) => one_rank(alloc, *rank),
        Source::Null => Ok(Ranks::new(alloc)),
    }
}

/// The members but one.
fn others(alloc: Global, members: &Ranks, me: u8) -> Result<Ranks, AllocError>
    ensures { IfOk result (λ ranks. ranks ≡ filter (λ member. not (member == me)) members.now) }
{
    let mut ranks = Ranks::new(alloc);
    let mut rest = members.as_slice();
    while let [member, after @ ..] = rest {
        push_if(&mut ranks, *member, *member != me)?;
        rest = after;
    }
    Ok(ranks)
}

pub fn push_if(ranks: &mut Ranks, rank: u8, is_one: bool) -> Result<(), AllocError>
    ensures { OnOk result (ranks.new ≡ ranks.old ++ (if is_one then rank ∷ [] else [])) }
{
    if is_one {
        ranks.push(rank)?;
    }
    Ok(())
}

/// The members that a rank's Enter needs and that have not entered its instance.
fn absent_for(
    alloc: Global,
    register: &Register,
    me: u8,
    start: u32,
    comm: Comm,
    enter: &Call,
) -> Result<Ranks, AllocError>
    requires { me < length register.now.ranks.items }
    ensures { IfOk result (λ ranks. (n : ℕ) (events : List EventSpec) → IsRegister n events register.now → ranks ≡ absent_for n events me start comm enter.now) }
{
    let instance = register.count_enters(me, comm, start);
    match register.members(me, comm) {
        Some(members) => absent(alloc, register, me, comm, instance, enter, members),
        None => Ok(Ranks::new(alloc)),
    }
}

/// Those of the members.
fn absent(
    alloc: Global,
    register: &Register,
    me: u8,
    comm: Comm,
    instance: u32,
    enter: &Call,
    members: &Ranks,
) -> Result<Ranks, AllocError>
    ensures { IfOk result (λ ranks. (n : ℕ) (events : List EventSpec) → IsRegister n events register.now
        → ranks ≡ filter (λ member. needs enter.now members.now me member && not (is_some (enter_at n (view_of events member) comm instance))) members.now) }
{
    let mut ranks = Ranks::new(alloc);
    let mut rest = members.as_slice();
    while let [member, after @ ..] = rest {
        let is_one = is_absent(register, me, comm, instance, enter, members, *member);
        push_if(&mut ranks, *member, is_one)?;
        rest = after;
    }
    Ok(ranks)
}

/// Whether a member is one of them.
fn is_absent(
    register: &Register,
    me: u8,
    comm: Comm,
    instance: u32,
    enter: &Call,
    members: &Ranks,
    member: u8,
) -> bool
    ensures { (n : ℕ) (events : List EventSpec) → IsRegister n events register.now
        → result ≡ (needs enter.now members.now me member && not (is_some (enter_at n (view_of events member) comm instance))) }
{
    needs(enter, members, me, member) && !has_entered(register, member, comm, instance)
}

/// Whether a rank has entered an instance.
fn has_entered(register: &Register, rank: u8, comm: Comm, instance: u32) -> bool
    ensures { (n : ℕ) (events : List EventSpec) → IsRegister n events register.now → result ≡ is_some (enter_at n (view_of events rank) comm instance) }
{
    instance < register.count_all_enters(rank, comm)
}
