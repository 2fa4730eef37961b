//! What a rank's entries need of what it has seen.
ghost use Rattle.std.specs.Prelude.{◌≡◌, ◌++◌, ◌∷◌, [], ℕ, IfOk, OnOk, option_map};
ghost use Rattle.run_model.specs.Communicators.{known_in};
ghost use Rattle.run_model.specs.Views.{View, start_at};
ghost use Rattle.srr_entry.specs.Known.{IsKnownOf};

use mpi_call::call::{Call, Comm};
use mpi_call::lists::Ranks;
use mpi_call::reply::Reply;
use run_model::lists::all_ranks;
use run_model::starts::is_start;
use std::alloc::{AllocError, Global};
use std::marker::Model;
use view_tables::member_table::Members;

/// A rank's starts by number, lent from what it has seen, and the members of the communicators that it knows.
#[derive(Drop)]
pub struct Known<'a> {
    /// All ranks.
    world: Ranks,
    starts: Vec<&'a Call>,
    members: Members,
}

impl<'a> Model for Known<'a> {
    ghost use Rattle.std.specs.Prelude.{map};
    ghost use Rattle.srr_entry.specs.Known.{KnownSoFar};

    ghost Value = { KnownSoFar };

    ghost view = { λ s. record { world = s.world; starts = map (λ call. call.now) s.starts.items; members = s.members } };
}

impl<'a> Known<'a> {
    /// What a rank of so many knows before its first call.
    pub fn new(alloc: Global, ranks: u8) -> Result<Self, AllocError>
        ensures { IfOk result (λ known. IsKnownOf ranks [] known) }
    {
        Ok(Known {
            world: all_ranks(alloc, ranks)?,
            starts: Vec::new(alloc),
            members: Members::new(alloc),
        })
    }

    /// What a rank of so many knows after these calls and replies.
    pub fn after(alloc: Global, ranks: u8, seen: &'a [(Call, Reply)]) -> Result<Self, AllocError>
        ensures { IfOk result (λ known. IsKnownOf ranks seen.now known) }
    {
        let mut known = Known::new(alloc, ranks)?;
        let mut rest = seen;
        while let [one, after @ ..] = rest {
            known.note(&one.0, &one.1)?;
            rest = after;
        }
        Ok(known)
    }

    /// The start with this number.
    pub fn start(&self, number: u32) -> Option<&Call>
        ensures { (n : ℕ) (own : View) → IsKnownOf n own self.now → option_map (λ call. call.now) result ≡ start_at own number }
    {
        match self.starts.get(number as usize) {
            Some(call) => Some(*call),
            None => None,
        }
    }

    /// The members of a communicator, where the rank knows it.
    pub fn members(&self, comm: Comm) -> Option<&Ranks>
        ensures { (n : ℕ) (own : View) → IsKnownOf n own self.now → option_map (λ members. members.now) result ≡ known_in n own comm }
    {
        if comm == 0 {
            return Some(&self.world);
        }
        self.members.get(comm)
    }

    /// Notes the next call and its reply.
    pub fn note(&mut self, call: &'a Call, reply: &Reply) -> Result<(), AllocError>
        ensures { OnOk result ((n : ℕ) (own : View) → IsKnownOf n own self.old → IsKnownOf n (own ++ (call.now, reply.now) ∷ []) self.new) }
    {
        self.members.add_reply(reply)?;
        if is_start(call, reply) {
            self.starts.push(call)?;
        }
        Ok(())
    }
}
