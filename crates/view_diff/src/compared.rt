//! What is told of each rank.
ghost use Rattle.std.specs.Prelude.{◌≡◌};
ghost use Rattle.std.specs.List.{list_any};
ghost use Rattle.view_diff.specs.Compared.{comes_first};

use listed::Listed;

/// How two views of a rank compare.
#[derive(Clone, Copy, Debug, PartialEq, Eq)]
pub enum ViewRelation {
    /// They are alike.
    Alike,
    /// They part, and no other parting comes before this one.
    First,
    /// They part after others.
    Follows,
}

/// How the views of a rank compare.
#[derive(Clone, Copy, Debug)]
pub struct Compared {
    pub rank: u8,
    /// How many calls are alike: the number of the call at which the views part, if they do.
    pub same: u32,
    pub way: ViewRelation,
}

impl Compared {
    /// Whether the views part here first.
    pub fn comes_first(&self) -> bool
        ensures { result ≡ comes_first self.now }
    {
        match self.way {
            ViewRelation::First => true,
            ViewRelation::Alike | ViewRelation::Follows => false,
        }
    }
}

/// One for each rank of a group, which contracts see as a list.
pub type Comparison = Listed<Compared>;

/// Whether the histories part: the views of some rank part first then.
pub fn parts(ranks: &Comparison) -> bool
    ensures { result ≡ list_any comes_first ranks.now }
{
    ranks.as_slice().iter().any(|rank| rank.comes_first())
}
