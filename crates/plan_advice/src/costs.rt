//! What the blocks of a run's ranks cost.
ghost use Rattle.std.specs.Prelude.{◌≡◌, ◌≤◌, ◌<◌, ◌*◌, ◌-◌, ◌^◌, IfOk, length};
ghost use Rattle.run_model.specs.Lists.{world};
ghost use Rattle.srr_entry.specs.Seen.{AreRanksViews};
ghost use Rattle.plan_advice.specs.Costs.{block_cost};
ghost use Rattle.plan_advice.specs.inside.Pieces.{AreCosts, AreFew, block_ranks, ints_given, ints_in_pieces, kept_by, kept_in, kept_ints};

use crate::pieces::{Piece, Pieces, pieces_of};
use crate::span::RunRank;
use run_model::history::History;
use std::alloc::{AllocError, Global};
use std::marker::Model;

/// The costs of all blocks of a run's ranks; contracts see the number of ranks and the run's events.
#[derive(Drop)]
pub struct Costs<'a> {
    ranks: u8,
    history: &'a History,
    lists: Vec<Pieces>,
}

impl<'a> Model for Costs<'a> {
    ghost use Rattle.plan_advice.specs.inside.Pieces.{AreCosts, Costed};

    ghost Value = { Costed };

    ghost view = { λ s. record { ranks = s.ranks; events = s.history.now.events } };

    ghost invariant = { λ s. AreCosts s.ranks s.history.now.events s.lists.items };
}

impl<'a> Costs<'a> {
    /// Reads a run once for each rank.
    pub fn new(alloc: Global, n: u8, history: &'a History) -> Result<Costs<'a>, AllocError>
        requires views { AreRanksViews n (world n 0) history.now.events }
        requires few { ints_given history.now.events < 2 ^ 32 }
        ensures ranks { IfOk result (λ costs. costs.ranks ≡ n) }
        ensures events { IfOk result (λ costs. costs.events ≡ history.now.events) }
    {
        let mut lists = Vec::new(alloc);
        for rank in 0..n {
            let owner = RunRank { ranks: n, rank };
            let pieces = pieces_of(alloc, &owner, history.as_slice())?;
            lists.push(pieces)?;
        }
        Ok(Costs {
            ranks: n,
            history,
            lists,
        })
    }

    /// What the block of the ranks from `begin` to the one before `end` costs. Takes no memory.
    pub fn block(&self, begin: u8, end: u8) -> u64
        requires some { begin < end }
        requires within { end ≤ self.now.ranks }
        ensures cost { result ≡ block_cost self.now.ranks self.now.events begin end }
        ensures few { result ≤ (end - begin) * 2 ^ 32 }
    {
        kept_by(&self.lists, begin, end)
    }
}

/// The ints that a block's log keeps of some pieces.
fn kept_in(pieces: &[Piece], begin: u8, end: u8) -> u64
    requires { ints_in_pieces pieces.now < 2 ^ 32 }
    ensures kept { result ≡ kept_in begin end pieces.now }
    ensures few { result < 2 ^ 32 }
{
    let mut total = 0;
    for piece in pieces {
        total += kept_of(*piece, begin, end);
    }
    total
}

/// The ints that a block's log keeps of a piece.
fn kept_of(piece: Piece, begin: u8, end: u8) -> u64
    ensures kept { result ≡ kept_ints begin end piece }
    ensures few { result ≤ piece.ints }
{
    if begin <= piece.least && piece.greatest < end {
        return 0;
    }
    piece.ints
}

/// The ints that a block's log keeps of the lists of its ranks.
fn kept_by(lists: &[Pieces], begin: u8, end: u8) -> u64
    requires order { begin ≤ end }
    requires within { end ≤ length lists.now }
    requires few { AreFew lists.now }
    ensures kept { result ≡ kept_by begin end lists.now (block_ranks begin end) }
    ensures few { result ≤ (end - begin) * 2 ^ 32 }
{
    let mut total = 0;
    for rank in begin..end {
        total += kept_in(lists[rank as usize].as_slice(), begin, end);
    }
    total
}
