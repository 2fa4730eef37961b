//! The names of lists of positions.
ghost use Rattle.std.specs.Prelude.{◌≡◌};
ghost use Rattle.causes.specs.Keys.{enters_key, events_key, starts_key};

use mpi_call::call::Comm;

/// The events of a rank.
pub const EVENTS: u8 = 0;
/// The starts of a rank.
pub const STARTS: u8 = 1;
/// The Enters of a rank on a communicator.
pub const ENTERS: u8 = 2;

/// The name of a list of positions.
#[derive(Clone, Copy, Hash)]
pub struct Key {
    /// Which kind of list.
    pub kind: u8,
    /// The rank whose events stand in it.
    pub rank: u8,
    /// The communicator of `ENTERS`, else 0.
    pub number: u32,
}

impl PartialEq for Key {
    ghost use Rattle.causes.specs.Keys.{same_key};
    ghost use Rattle.std.proofs.Common.{rules};
    ghost use Rattle.std.specs.Cmp.Rules.{comparing};

    ghost eq = { same_key };

    ghost laws = { Prim.search (comparing, rules) depth 12 };

    fn eq(&self, other: &Key) -> bool {
        self.kind == other.kind && self.number == other.number && self.rank == other.rank
    }
}

impl Eq for Key {
    ghost use Rattle.std.proofs.Common.{rules};
    ghost use Rattle.std.specs.Cmp.Rules.{comparing};

    ghost laws = { Prim.search (comparing, rules) depth 12 };
}

pub fn events_key(rank: u8) -> Key
    ensures { result ≡ events_key rank }
{
    Key {
        kind: EVENTS,
        rank,
        number: 0,
    }
}

pub fn starts_key(rank: u8) -> Key
    ensures { result ≡ starts_key rank }
{
    Key {
        kind: STARTS,
        rank,
        number: 0,
    }
}

pub fn enters_key(rank: u8, comm: Comm) -> Key
    ensures { result ≡ enters_key rank comm }
{
    Key {
        kind: ENTERS,
        rank,
        number: comm,
    }
}
