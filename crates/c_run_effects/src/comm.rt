//! Communicators, and ranks in them.
ghost use Rattle.std.specs.Prelude.{◌≡◌, ◌≤◌, ◌<◌, ◌==◌, IfSome, length};
ghost use Rattle.std.specs.List.{position};
ghost use Rattle.c_program.specs.Effects.{communicator_of, is_me};

use c_program::constants::{ANY_SOURCE, NULL};
use c_program::effect::Rank;
use c_run_cells::state::RankState;
use mpi_call::call::{Fault, Source};
use mpi_call::limits::MOST_RANKS;
use mpi_call::needs::UNDEFINED;
use std::marker::Model;

/// A communicator's number, and its members as ranks of the world.
#[derive(Drop)]
pub struct Communicator<'a> {
    number: u32,
    members: &'a [u8],
}

impl<'a> Model for Communicator<'a> {
    ghost use Rattle.std.specs.Prelude.{◌<◌, ◌^◌, length};
    ghost use Rattle.c_program.specs.Effects as effects;

    ghost Value = { effects.Communicator };

    ghost view = { λ c. record { number = c.number; members = c.members.now } };

    ghost invariant = { λ c. length c.members.now < 2 ^ 31 };
}

/// BadComm for a number that no communicator of the rank has.
pub fn communicator_of<'a>(
    rank: Rank,
    state: &'a RankState,
    number: i32,
) -> Result<Communicator<'a>, Fault>
    requires { rank.ranks ≤ MOST_RANKS }
    ensures { result ≡ communicator_of rank state.now number }
{
    if number < 0 {
        return Err(Fault::BadComm);
    }
    let number = number as u32;
    match state.members(rank, number) {
        Some(members) => Ok(Communicator { number, members }),
        None => Err(Fault::BadComm),
    }
}

/// The first place of a rank of the world among members.
fn place_of(members: &[u8], rank: u8) -> Option<usize>
    ensures place { result ≡ position (λ member. member == rank) members.now }
    ensures bound { IfSome result (λ place. place < length members.now) }
{
    members.iter().position(|member| *member == rank)
}

/// Whether the rank that runs is this one.
pub fn is_me(rank: Rank, root: u8) -> bool
    ensures { result ≡ is_me rank root }
{
    root == rank.number
}

impl<'a> Communicator<'a> {
    ghost use Rattle.std.specs.Prelude.{◌≡◌, length, pos};
    ghost use Rattle.c_program.specs.Effects as effects;

    pub fn number(&self) -> u32
        ensures { result ≡ self.now.number }
    {
        self.number
    }

    /// How many members, fewer than 2^31.
    pub fn size(&self) -> i32
        ensures { result ≡ pos (length self.now.members) }
    {
        self.members.len() as i32
    }

    /// A rank of the world as one of the communicator; `MPI_UNDEFINED` where it is no member.
    pub fn rank_of(&self, world_rank: u8) -> i32
        ensures { result ≡ effects.rank_among self.now.members world_rank }
    {
        match place_of(self.members, world_rank) {
            Some(place) => place as i32,
            None => UNDEFINED,
        }
    }

    /// A member's rank in the world; BadRank where there is none.
    pub fn member(&self, rank: i32) -> Result<u8, Fault>
        ensures { result ≡ effects.member self.now rank }
    {
        if rank < 0 {
            return Err(Fault::BadRank);
        }
        match self.members.get(rank as usize) {
            Some(member) => Ok(*member),
            None => Err(Fault::BadRank),
        }
    }

    /// A destination's rank in the world, or `None` for `MPI_PROC_NULL`.
    pub fn destination(&self, rank: i32) -> Result<Option<u8>, Fault>
        ensures { result ≡ effects.destination self.now rank }
    {
        if rank == NULL {
            return Ok(None);
        }
        Ok(Some(self.member(rank)?))
    }

    /// A source: a member, `MPI_PROC_NULL` or `MPI_ANY_SOURCE`.
    pub fn source(&self, rank: i32) -> Result<Source, Fault>
        ensures { result ≡ effects.source_of self.now rank }
    {
        if rank == NULL {
            return Ok(Source::Null);
        }
        if rank == ANY_SOURCE {
            return Ok(Source::Any);
        }
        Ok(Source::From(self.member(rank)?))
    }

    /// Whether the rank that runs is this root, which isn't checked yet.
    pub fn is_root(&self, rank: Rank, root: i32) -> bool
        ensures { result ≡ effects.is_given_root rank self.now root }
    {
        if root < 0 {
            return false;
        }
        match self.members.get(root as usize) {
            Some(member) => is_me(rank, *member),
            None => false,
        }
    }

    /// So many elements for each member.
    pub fn pieces(&self, count: u32) -> usize
        ensures { result ≡ effects.ints_for_all_members self.now count }
    {
        self.members.len() * count as usize
    }
}
