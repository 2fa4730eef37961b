//! What is kept of a rank.
ghost use Rattle.std.specs.Prelude.{◌≡◌, ◌||◌, ◌+◌, ◌<◌, ◌^◌, ◌++◌, ◌∷◌, [], IfOk, OnOk, ℕ};
ghost use Rattle.run_model.specs.Program.{ends};
ghost use Rattle.run_model.specs.Views.{View};
ghost use Rattle.wait_graph.specs.Register.{IsRankRecord, count_start};

use crate::taken::LastTaken;
use mpi_call::call::Call;
use mpi_call::reply::Reply;
use run_model::starts::is_start;
use srr_entry::known::Known;
use std::alloc::{AllocError, Global};

/// What is kept of a rank: its starts and communicators, what it took, how many calls and starts it made, and whether it has ended.
#[derive(Drop)]
pub struct RankRecord<'a> {
    pub known: Known<'a>,
    pub taken: LastTaken,
    pub calls: u32,
    pub starts: u32,
    pub has_ended: bool,
}

impl<'a> RankRecord<'a> {
    /// A rank of n before its first call.
    pub fn new(alloc: Global, n: u8) -> Result<Self, AllocError>
        ensures { IfOk result (IsRankRecord n []) }
    {
        Ok(RankRecord {
            known: Known::new(alloc, n)?,
            taken: LastTaken::new(alloc),
            calls: 0,
            starts: 0,
            has_ended: false,
        })
    }

    /// Notes the next call and its reply.
    pub fn note(&mut self, call: &'a Call, reply: &Reply) -> Result<(), AllocError>
        requires calls { self.old.calls + 1 < 2 ^ 32 }
        requires starts { self.old.starts + 1 < 2 ^ 32 }
        ensures { OnOk result ((n : ℕ) (view : View) → IsRankRecord n view self.old → IsRankRecord n (view ++ (call.now, reply.now) ∷ []) self.new) }
    {
        self.taken.note(&self.known, self.calls, call, reply)?;
        self.known.note(call, reply)?;
        self.calls += 1;
        self.starts += count_start(call, reply);
        self.has_ended = or_ends(self.has_ended, call, reply);
        Ok(())
    }
}

/// 1 for a start.
fn count_start(call: &Call, reply: &Reply) -> u32
    ensures { result ≡ count_start (call.now, reply.now) }
{
    if is_start(call, reply) { 1 } else { 0 }
}

/// Whether the reply ends the rank.
fn ends(call: &Call, reply: &Reply) -> bool
    ensures { result ≡ ends (call.now, reply.now) }
{
    match reply {
        Reply::Stopped(_) => true,
        Reply::Done => matches!(call, Call::End),
        _ => false,
    }
}

/// Whether the rank had ended, or the reply ends it.
fn or_ends(has_ended: bool, call: &Call, reply: &Reply) -> bool
    ensures { result ≡ (has_ended || ends (call.now, reply.now)) }
{
    has_ended || ends(call, reply)
}
