//! A rank of the script.
ghost use Rattle.std.specs.Prelude.{◌≡◌, ◌<◌, ◌++◌, ◌∷◌, [], IfOk, OnErr, OnOk, false, true};
ghost use Rattle.bench_replay.specs.Script.{call_at, calls_of, is_stopped};

use crate::script::Script;
use mpi_call::call::{Call, Source, Tag, TakeMode};
use mpi_call::lists::{Ints, Starts};
use mpi_call::reply;
use mpi_call::reply::Reply;
use run_model::lists::Variables;
use run_model::program::{RankRun, Want};
use std::alloc::{AllocError, Global};
use std::marker::Model;

/// A rank that runs the script. Contracts see what it stands for.
#[derive(Drop)]
pub struct ScriptRank<'a> {
    alloc: Global,
    script: &'a Script,
    ranks: u8,
    rank: u8,
    replies: Vec<Reply>,
    stopped: bool,
    asked: bool,
}

impl<'a> Model for ScriptRank<'a> {
    ghost use Rattle.std.specs.Prelude.{◌≡◌};
    ghost use Rattle.std.specs.List.{list_any};
    ghost use Rattle.run_model.specs.Program.{Standing};
    ghost use Rattle.bench_replay.specs.Script.{is_stopped};
    ghost use Rattle.bench_replay.specs.declared.script.Script.{Script};

    ghost Value = { Standing Script };

    ghost view = { λ r. record { program = r.script.now; ranks = r.ranks; rank = r.rank; replies = r.replies.items; asked = r.asked } };

    ghost invariant = { λ r. r.stopped ≡ list_any is_stopped r.replies.items };
}

impl<'a> ScriptRank<'a> {
    /// A rank that has got no reply yet.
    pub fn start(alloc: Global, script: &'a Script, ranks: u8, rank: u8) -> Self
        ensures { result ≡ record { program = script.now; ranks = ranks; rank = rank; replies = []; asked = false } }
    {
        ScriptRank {
            alloc,
            script,
            ranks,
            rank,
            replies: Vec::new(alloc),
            stopped: false,
            asked: false,
        }
    }
}

impl<'a> RankRun for ScriptRank<'a> {
    type Of = Script;

    ghost standing = { λ r. r };

    fn want(&mut self) -> Result<Want, AllocError> {
        let calls = calls_of(self.script.messages, self.ranks, self.rank);
        let count = self.replies.len();
        if self.stopped || count > calls {
            self.asked = true;
            return Ok(Want::Ended);
        }
        let call = call_at(
            self.alloc,
            self.script.messages,
            self.ranks,
            self.rank,
            count,
        )?;
        self.asked = true;
        Ok(Want::Ask(call))
    }

    // Any reply may be given.
    fn give(&mut self, reply: &Reply) -> Result<(), AllocError>
        requires { self.old.asked ≡ true }
        ensures ok { OnOk result (self.new ≡ record self.old { replies = self.old.replies ++ reply.now ∷ []; asked = false }) }
        ensures err { OnErr result (self.new ≡ self.old) }
    {
        let kept = reply::copy_of(reply)?;
        let stopped = self.stopped || is_stopped(reply);
        self.replies.push(kept)?;
        self.stopped = stopped;
        self.asked = false;
        Ok(())
    }

    fn printed(&self) -> &[u8] {
        &[]
    }

    fn variables(&self) -> Result<Variables, AllocError>
        requires { self.now.asked ≡ true }
        ensures { IfOk result (λ found. found ≡ []) }
    {
        Ok(Variables::new(self.alloc))
    }
}

/// How many calls a rank makes before its End.
fn calls_of(messages: u32, ranks: u8, rank: u8) -> usize
    ensures { result ≡ calls_of messages ranks rank }
{
    if ranks < 2 {
        return 0;
    }
    match rank {
        0 => messages as usize,
        1 => 2 * messages as usize,
        _ => 0,
    }
}

/// A rank's call with this number.
fn call_at(
    alloc: Global,
    messages: u32,
    ranks: u8,
    rank: u8,
    number: usize,
) -> Result<Call, AllocError>
    ensures { IfOk result (λ call. call ≡ call_at messages ranks rank number) }
{
    if number >= calls_of(messages, ranks, rank) {
        return Ok(Call::End);
    }
    if rank == 0 {
        return Ok(Call::Send {
            comm: 0,
            dest: 1,
            tag: 0,
            ints: Ints::from_slice(alloc, &[7])?,
            sync: false,
        });
    }
    if number % 2 == 0 {
        return Ok(Call::Post {
            comm: 0,
            source: Source::From(0),
            tag: Tag::Is(0),
            room: 1,
        });
    }
    Ok(Call::Take {
        starts: Starts::from_slice(alloc, &[(number / 2) as u32])?,
        mode: TakeMode::All,
    })
}

fn is_stopped(reply: &Reply) -> bool
    ensures { result ≡ is_stopped reply.now }
{
    matches!(reply, Reply::Stopped(_))
}
