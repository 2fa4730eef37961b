//! How evaluation stops, and the replies that it uses up.
ghost use Rattle.std.specs.Prelude.{◌≡◌, option_map};
ghost use Rattle.c_eval.specs.Evaluated.{stop_of};
ghost use Rattle.c_eval.specs.Replies.{IsNextReply};
ghost use Rattle.c_eval.specs.declared.outcome.Stop.TheVariants.{Memory, Trapped};

use c_run_cells::fail::Fail;
use mpi_call::call::{Call, Fault};
use mpi_call::reply::Reply;
use std::alloc::{AllocError, AllocFailed};
use std::marker::Model;

/// Why evaluation goes no further.
#[derive(Drop)]
pub enum Stop {
    /// Out of memory.
    Memory,
    Trapped(Fault),
    /// The replies are used up: the rank asks this.
    Waits(Call),
    /// The rank has ended.
    Over,
}

impl From<AllocError> for Stop {
    ghost from_gives = { λ _ stop. stop ≡ Memory };

    fn from(_error: AllocError) -> Stop {
        Stop::Memory
    }
}

impl<T: Drop> From<AllocFailed<T>> for Stop {
    ghost from_gives = { λ _ stop. stop ≡ Memory };

    fn from(_error: AllocFailed<T>) -> Stop {
        Stop::Memory
    }
}

impl From<Fault> for Stop {
    ghost from_gives = { λ fault stop. stop ≡ Trapped fault };

    fn from(fault: Fault) -> Stop {
        Stop::Trapped(fault)
    }
}

impl From<Fail> for Stop {
    ghost from_gives = { λ fail stop. stop ≡ stop_of fail };

    fn from(fail: Fail) -> Stop {
        match fail {
            Fail::Memory => Stop::Memory,
            Fail::Trapped(fault) => Stop::Trapped(fault),
        }
    }
}

/// The replies that are not used yet; contracts see them as a list.
#[derive(Drop)]
pub struct Replies<'a> {
    rest: &'a [Reply],
}

impl<'a> Model for Replies<'a> {
    ghost use Rattle.std.specs.Prelude.{List};
    ghost use Rattle.mpi_call.specs.declared.reply.Reply.{Reply};

    ghost Value = { List Reply };

    ghost view = { λ r. r.rest.now };
}

impl<'a> Replies<'a> {
    pub fn of(rest: &'a [Reply]) -> Self
        ensures { result ≡ rest.now }
    {
        Replies { rest }
    }

    /// The next reply, which is then used up.
    pub fn next(&mut self) -> Option<&'a Reply>
        ensures { IsNextReply (option_map (λ reply. reply.now) result) self.old self.new }
    {
        match self.rest {
            [] => None,
            [first, rest @ ..] => {
                self.rest = rest;
                Some(first)
            }
        }
    }
}
