//! The ranks of a run that are stuck, and who of them waits for whom.
ghost use Rattle.std.specs.Prelude.{◌≡◌, ◌<◌, ◌++◌, ◌&&◌, ℕ, List, IfOk, None, OnOk, Some, find, length, not};
ghost use Rattle.std.specs.List.{list_all};
ghost use Rattle.causes.specs.Clocks.{AreOfRanks};
ghost use Rattle.run_model.specs.declared.event.Event.{Event as EventSpec};
ghost use Rattle.run_model.specs.Lists.{world};
ghost use Rattle.wait_graph.specs.Register.{IsRegister};
ghost use Rattle.wait_graph.specs.Graph.{graph_of, has_no_hope, is_live, waits_for};
ghost use Rattle.wait_graph.specs.inside.Found.{IsRankFinding, IsFoundAt, listed_blocked};
ghost use Rattle.wait_graph.specs.Reading.{IsRunRead};

use crate::awaited::push_if;
use crate::cycle::cycles_in;
use crate::graph::{Blocked, BlockedRanks, Graph};
use crate::reading::{Run, first_call, read};
use crate::register::Register;
use crate::wait::Wait;
use crate::waits::waits_at;
use mpi_call::call::{self, Call};
use mpi_call::lists::Ranks;
use mpi_call::members::is_member;
use run_model::history::History;
use run_model::lists::all_ranks;
use std::alloc::{AllocError, Global};

/// What is found of a rank.
#[derive(Drop)]
pub struct RankFinding {
    pub blocked: Option<Blocked>,
    pub next: Option<u8>,
    pub is_hopeless: bool,
}

/// The ranks of a run of n that are stuck, the cycles of those that wait for each other, and the ranks that wait in vain: in one pass over
/// the events, and for each rank that is stuck over its starts and those of the members of its communicator.
pub fn graph(alloc: Global, n: u8, history: &History) -> Result<Graph, AllocError>
    requires { AreOfRanks n history.now.events }
    ensures { IfOk result (λ graph. graph ≡ graph_of n history.now.events) }
{
    let ranks = all_ranks(alloc, n)?;
    let run = read(alloc, n, history.as_slice())?;
    let mut blocked = BlockedRanks::new(alloc);
    let mut nexts = Vec::new(alloc);
    let mut hopeless = Ranks::new(alloc);
    let mut rest = ranks.as_slice();
    while let [rank, after @ ..] = rest {
        let found = find(alloc, ranks.as_slice(), &run, *rank)?;
        nexts.push(found.next)?;
        push_if(&mut hopeless, *rank, found.is_hopeless)?;
        push_some(&mut blocked, found.blocked)?;
        rest = after;
    }
    let cycles = cycles_in(alloc, nexts.as_slice(), n, ranks.as_slice())?;
    Ok(Graph {
        blocked,
        cycles,
        hopeless,
    })
}

fn push_some(all: &mut BlockedRanks, found: Option<Blocked>) -> Result<(), AllocError>
    ensures { OnOk result (all.new ≡ all.old ++ listed_blocked found) }
{
    if let Some(blocked) = found {
        all.push(blocked)?;
    }
    Ok(())
}

/// What is found of a rank.
fn find(alloc: Global, ranks: &[u8], run: &Run, rank: u8) -> Result<RankFinding, AllocError>
    requires { rank < length run.now.register.ranks.items }
    ensures { IfOk result (λ found. (n : ℕ) (events : List EventSpec) → IsRunRead n events run.now → ranks.now ≡ world n 0 → IsRankFinding n events rank found) }
{
    match first_call(run.stopped, rank) {
        Some(call) => find_at(alloc, ranks, &run.register, rank, call),
        None => Ok(RankFinding {
            blocked: None,
            next: None,
            is_hopeless: false,
        }),
    }
}

/// What is found of a rank that was stopped at a call.
fn find_at(
    alloc: Global,
    ranks: &[u8],
    register: &Register,
    rank: u8,
    call: &Call,
) -> Result<RankFinding, AllocError>
    requires { rank < length register.now.ranks.items }
    ensures { IfOk result (λ found. (n : ℕ) (events : List EventSpec) → IsRegister n events register.now → ranks.now ≡ world n 0 → IsFoundAt n events rank (Some call.now) found) }
{
    let waits = waits_at(alloc, register, rank, call)?;
    let next = next_in(register, ranks, waits.as_slice());
    let is_hopeless = has_no_hope(register, waits.as_slice());
    let number = register.calls(rank);
    let call = call::copy_of(call)?;
    Ok(RankFinding {
        blocked: Some(Blocked {
            rank,
            number,
            call,
            waits,
        }),
        next,
        is_hopeless,
    })
}

/// The first of these ranks that has not ended and that is waited for.
fn next_in(register: &Register, ranks: &[u8], waits: &[Wait]) -> Option<u8>
    ensures { (n : ℕ) (events : List EventSpec) → IsRegister n events register.now → result ≡ find (λ rank. is_live n events rank && waits_for waits.now rank) ranks.now }
{
    let mut rest = ranks;
    while let [rank, after @ ..] = rest {
        if is_next(register, *rank, waits) {
            return Some(*rank);
        }
        rest = after;
    }
    None
}

/// Whether a rank has not ended and is waited for.
fn is_next(register: &Register, rank: u8, waits: &[Wait]) -> bool
    ensures { (n : ℕ) (events : List EventSpec) → IsRegister n events register.now → result ≡ (is_live n events rank && waits_for waits.now rank) }
{
    register.is_live(rank) && is_waited_for(waits, rank)
}

/// Whether a rank is waited for with one of these.
fn is_waited_for(waits: &[Wait], rank: u8) -> bool
    ensures { result ≡ waits_for waits.now rank }
{
    let mut rest = waits;
    while let [wait, after @ ..] = rest {
        if is_member(wait.awaited.as_slice(), rank) {
            return true;
        }
        rest = after;
    }
    false
}

/// Whether with one of these all ranks that are waited for have ended.
fn has_no_hope(register: &Register, waits: &[Wait]) -> bool
    ensures { (n : ℕ) (events : List EventSpec) → IsRegister n events register.now → result ≡ has_no_hope n events waits.now }
{
    let mut rest = waits;
    while let [wait, after @ ..] = rest {
        if have_ended(register, wait.awaited.as_slice()) {
            return true;
        }
        rest = after;
    }
    false
}

/// Whether all these ranks have ended.
fn have_ended(register: &Register, ranks: &[u8]) -> bool
    ensures { (n : ℕ) (events : List EventSpec) → IsRegister n events register.now → result ≡ list_all (λ rank. not (is_live n events rank)) ranks.now }
{
    let mut rest = ranks;
    while let [rank, after @ ..] = rest {
        if register.is_live(*rank) {
            return false;
        }
        rest = after;
    }
    true
}
