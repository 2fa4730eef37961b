//! Lists within a line, a mark between each two elements.
ghost use Rattle.std.specs.Prelude.{◌≡◌};
ghost use Rattle.mpi_call.specs.Lists.{rises};
ghost use Rattle.srr_log.specs.inside.EntryReading.{few_ints_in, ints_in, ranks_in};
ghost use Rattle.srr_log.specs.inside.Pieces.{Adds, GivesPiece, int_in, rank_in};

use crate::pieces::{int, rank, split_once};
use crate::read_error::Unread;
use mpi_call::lists::{Ints, Ranks};
use std::alloc::Global;

/// Ints with commas between, at most this many; none is no byte.
#[tactic(auto, unfolding(crate::specs::inside::EntryReading::few_ints_in))]
pub fn few_ints(alloc: Global, text: &[u8], most: usize) -> Result<Ints, Unread>
    ensures { GivesPiece result (few_ints_in most text.now) }
{
    if text.is_empty() {
        return Ok(Ints::new(alloc));
    }
    let found = ints(alloc, text)?;
    if found.as_slice().len() <= most {
        Ok(found)
    } else {
        Err(Unread::NotAllowed)
    }
}

fn ints(alloc: Global, text: &[u8]) -> Result<Ints, Unread>
    ensures { GivesPiece result (ints_in text.now) }
{
    let mut found = Ints::new(alloc);
    let mut rest = text;
    while let Some((piece, after)) = split_once(rest, b',') {
        add_int(&mut found, piece)?;
        rest = after;
    }
    add_int(&mut found, rest)?;
    Ok(found)
}

fn add_int(found: &mut Ints, piece: &[u8]) -> Result<(), Unread>
    ensures { Adds found.old found.new result (int_in piece.now) }
{
    let Some(value) = int(piece) else {
        return Err(Unread::NotAllowed);
    };
    match found.push(value) {
        Ok(()) => Ok(()),
        Err(_) => Err(Unread::NoMemory),
    }
}

/// Ranks of the run with such marks between.
pub fn ranks(alloc: Global, text: &[u8], mark: u8, ranks: u8) -> Result<Ranks, Unread>
    ensures { GivesPiece result (ranks_in mark ranks text.now) }
{
    let mut found = Ranks::new(alloc);
    let mut rest = text;
    while let Some((piece, after)) = split_once(rest, mark) {
        add_rank(&mut found, piece, ranks)?;
        rest = after;
    }
    add_rank(&mut found, rest, ranks)?;
    Ok(found)
}

fn add_rank(found: &mut Ranks, piece: &[u8], ranks: u8) -> Result<(), Unread>
    ensures { Adds found.old found.new result (rank_in ranks piece.now) }
{
    let Some(value) = rank(piece, ranks) else {
        return Err(Unread::NotAllowed);
    };
    match found.push(value) {
        Ok(()) => Ok(()),
        Err(_) => Err(Unread::NoMemory),
    }
}

/// Whether each rank is above the one before it.
pub fn rise(ranks: &[u8]) -> bool
    ensures { result ≡ rises 0 ranks.now }
{
    ranks.is_sorted_by(|one, next| one < next)
}
