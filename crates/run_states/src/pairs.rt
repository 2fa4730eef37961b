//! The pairs of a history, and the partners of its starts.
ghost use Rattle.std.specs.Prelude.{◌≡◌, ◌++◌, IfOk, OnOk, map};
ghost use Rattle.run_model.specs.Lists.{world};
ghost use Rattle.run_model.specs.Pairs.{mated, pairs_of, partner_of};
ghost use Rattle.run_states.specs.Codes.{code_of_partner, code_of_partners, codes_of};
ghost use Rattle.run_states.specs.Keys.{partners_in};

use crate::code::StateCode;
use crate::starts::{RankAndNumber, mate_in, starts_in};
use run_model::event::{Event, StartName};
use std::alloc::{AllocError, Global};

/// Adds the pair that an event makes with its mate, if it has one.
fn add_mated(
    pairs: &mut Vec<(RankAndNumber, RankAndNumber)>,
    before: &[Event],
    event: &Event,
) -> Result<(), AllocError>
    ensures { OnOk result (pairs.new.items ≡ pairs.old.items ++ mated before.now event.now) }
{
    let Some(earlier) = mate_in(before, event.mate) else {
        return Ok(());
    };
    let later = (event.rank, starts_in(before, event.rank));
    pairs.push((earlier, later))?;
    Ok(())
}

/// Adds the pairs that meet after an event.
fn add_met(
    pairs: &mut Vec<(RankAndNumber, RankAndNumber)>,
    met: &[(StartName, StartName)],
) -> Result<(), AllocError>
    ensures { OnOk result (pairs.new.items ≡ pairs.old.items ++ met.now) }
{
    for (one, other) in met.iter() {
        pairs.push(((one.0, one.1 as usize), (other.0, other.1 as usize)))?;
    }
    Ok(())
}

/// The pairs of these events, in the order in which they were made.
pub fn pairs_of(
    alloc: Global,
    events: &[Event],
) -> Result<Vec<(RankAndNumber, RankAndNumber)>, AllocError>
    ensures { IfOk result (λ pairs. pairs.items ≡ pairs_of events.now) }
{
    let mut pairs = Vec::new(alloc);
    for (at, event) in events.iter().enumerate() {
        add_mated(&mut pairs, &events[..at], event)?;
        add_met(&mut pairs, event.met.as_slice())?;
    }
    Ok(pairs)
}

/// The other start of the pair that a start is in.
fn partner_of(
    pairs: &[(RankAndNumber, RankAndNumber)],
    name: RankAndNumber,
) -> Option<RankAndNumber>
    ensures { result ≡ partner_of pairs.now name }
{
    let mut rest = pairs;
    while let [pair, after @ ..] = rest {
        if pair.0 == name {
            return Some(pair.1);
        }
        if pair.1 == name {
            return Some(pair.0);
        }
        rest = after;
    }
    None
}

/// Adds a partner, if there is one.
fn add_partner(code: &mut StateCode, partner: Option<RankAndNumber>) -> Result<(), AllocError>
    ensures { OnOk result (code.new.numbers.items ≡ code.old.numbers.items ++ code_of_partner partner) }
{
    match partner {
        None => code.push(0),
        Some(name) => {
            code.push(1)?;
            code.push(name.0 as u32)?;
            code.push_len(name.1)
        }
    }
}

/// Adds the partners of the starts of a rank, of which there are so many.
fn add_rank(
    code: &mut StateCode,
    pairs: &[(RankAndNumber, RankAndNumber)],
    rank: u8,
    count: usize,
) -> Result<(), AllocError>
    ensures { OnOk result (code.new.numbers.items ≡ code.old.numbers.items ++ codes_of code_of_partner (map (λ k. partner_of pairs.now (rank, k)) (world count 0))) }
{
    for start in 0..count {
        add_partner(code, partner_of(pairs, (rank, start)))?;
    }
    Ok(())
}

/// Adds the partners of each start of each of n ranks.
pub fn add_partners(
    code: &mut StateCode,
    events: &[Event],
    pairs: &[(RankAndNumber, RankAndNumber)],
    n: u8,
) -> Result<(), AllocError>
    requires { pairs.now ≡ pairs_of events.now }
    ensures { OnOk result (code.new.numbers.items ≡ code.old.numbers.items ++ code_of_partners (map (partners_in events.now) (world n 0))) }
{
    code.push(n as u32)?;
    for rank in 0..n {
        let count = starts_in(events, rank);
        code.push_len(count)?;
        add_rank(code, pairs, rank, count)?;
    }
    Ok(())
}
