//! What a rank waits for at a call.
ghost use Rattle.std.specs.Prelude.{◌≡◌, ◌<◌, ◌++◌, ◌∷◌, [], ℕ, List, IfOk, None, OnOk, Some, length};
ghost use Rattle.run_model.specs.declared.event.Event.{Event as EventSpec};
ghost use Rattle.run_model.specs.Readiness.{is_ready};
ghost use Rattle.run_model.specs.Views.{moment_at, start_at, view_of};
ghost use Rattle.wait_graph.specs.Register.{IsRegister};
ghost use Rattle.wait_graph.specs.Waits.{awaited_by, wait_at, waits_at, waits_in};

use crate::awaited::awaited_by;
use crate::register::Register;
use crate::wait::{Wait, Waits};
use mpi_call::call::{self, Call, Source};
use mpi_call::lists::Ranks;
use std::alloc::{AllocError, Global};

/// What a rank waits for at a call.
pub fn waits_at(
    alloc: Global,
    register: &Register,
    me: u8,
    call: &Call,
) -> Result<Waits, AllocError>
    requires { me < length register.now.ranks.items }
    ensures { IfOk result (λ waits. (n : ℕ) (events : List EventSpec) → IsRegister n events register.now → waits ≡ waits_at n events me call.now) }
{
    match call {
        Call::Take { starts, .. } => waits_in(alloc, register, me, starts.as_slice()),
        Call::Peek { .. } => wait_with_probe(alloc, register, me, call),
        _ => Ok(Waits::new(alloc)),
    }
}

/// The probe itself.
fn wait_with_probe(
    alloc: Global,
    register: &Register,
    me: u8,
    call: &Call,
) -> Result<Waits, AllocError>
    requires { me < length register.now.ranks.items }
    ensures { IfOk result (λ waits. (n : ℕ) (events : List EventSpec) → IsRegister n events register.now
        → waits ≡ (record { start = None; call = call.now; awaited = awaited_by n events me 0 call.now }) ∷ []) }
{
    let mut waits = Waits::new(alloc);
    waits.push(Wait {
        start: None,
        call: call::copy_of(call)?,
        awaited: awaited_by(alloc, register, me, 0, call)?,
    })?;
    Ok(waits)
}

/// The listed starts that are not ready.
fn waits_in(alloc: Global, register: &Register, me: u8, starts: &[u32]) -> Result<Waits, AllocError>
    requires { me < length register.now.ranks.items }
    ensures { IfOk result (λ waits. (n : ℕ) (events : List EventSpec) → IsRegister n events register.now → waits ≡ waits_in n events me starts.now) }
{
    let mut waits = Waits::new(alloc);
    let mut rest = starts;
    while let [start, after @ ..] = rest {
        push_wait(&mut waits, alloc, register, me, *start)?;
        rest = after;
    }
    Ok(waits)
}

/// Adds one, where it is there and not ready.
fn push_wait(
    waits: &mut Waits,
    alloc: Global,
    register: &Register,
    me: u8,
    start: u32,
) -> Result<(), AllocError>
    requires { me < length register.now.ranks.items }
    ensures { OnOk result ((n : ℕ) (events : List EventSpec) → IsRegister n events register.now → waits.new ≡ waits.old ++ wait_at n events me start (start_at (view_of events me) start)) }
{
    match register.start(me, start) {
        Some(call) => push_unready(waits, alloc, register, me, start, call),
        None => Ok(()),
    }
}

fn push_unready(
    waits: &mut Waits,
    alloc: Global,
    register: &Register,
    me: u8,
    start: u32,
    call: &Call,
) -> Result<(), AllocError>
    requires { me < length register.now.ranks.items }
    ensures { OnOk result ((n : ℕ) (events : List EventSpec) → IsRegister n events register.now → waits.new ≡ waits.old ++ wait_at n events me start (Some call.now)) }
{
    let awaited = awaited_by(alloc, register, me, start, call)?;
    if is_ready(register, me, start, call, &awaited) {
        return Ok(());
    }
    waits.push(Wait {
        start: Some(start),
        call: call::copy_of(call)?,
        awaited,
    })?;
    Ok(())
}

/// Whether a start of a rank is ready, by for whom the rank waits with it.
fn is_ready(register: &Register, me: u8, start: u32, call: &Call, awaited: &Ranks) -> bool
    ensures { (n : ℕ) (events : List EventSpec) → IsRegister n events register.now → awaited.now ≡ awaited_by n events me start call.now
        → result ≡ is_ready (moment_at n events me) start (Some call.now) }
{
    match call {
        Call::Send { sync, .. } => !*sync || register.is_paired(me, start),
        Call::Post {
            source: Source::Null,
            ..
        } => true,
        Call::Post { .. } => register.is_paired(me, start),
        Call::Enter { .. } => awaited.as_slice().is_empty(),
        _ => false,
    }
}
