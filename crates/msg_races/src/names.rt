//! Names of starts.
use listed::Listed;

/// The name of a start: its rank and its number there.
#[derive(Clone, Copy, Debug, Hash)]
pub struct Name {
    pub rank: u8,
    pub start: u32,
}

impl PartialEq for Name {
    ghost use Rattle.msg_races.specs.Names.{same_start};
    ghost use Rattle.std.proofs.Common.{rules};
    ghost use Rattle.std.specs.Cmp.Rules.{comparing};

    ghost eq = { same_start };

    ghost laws = { Prim.search (comparing, rules) depth 12 };

    fn eq(&self, other: &Name) -> bool {
        self.rank == other.rank && self.start == other.start
    }
}

impl Eq for Name {
    ghost use Rattle.std.proofs.Common.{rules};
    ghost use Rattle.std.specs.Cmp.Rules.{comparing};

    ghost laws = { Prim.search (comparing, rules) depth 12 };
}

/// Names of starts, which contracts see as a list.
pub type Names = Listed<Name>;
