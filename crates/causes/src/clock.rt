//! Vector clocks.
ghost use Rattle.std.specs.Prelude.{◌∷◌, []};
ghost use Rattle.causes.specs.inside.Joins.{AreAsWide, IsJoinOfAll};

use rank_counts::RankCounts;

/// A vector clock.
pub type Clock = RankCounts;

/// For each rank the greatest number of a clock and of the one at a position, if there is one.
fn join_at(clock: &mut Clock, clocks: &[Clock], at: u32)
    requires { AreAsWide clocks.now clock.old }
    ensures { IsJoinOfAll clock.old clocks.now (at ∷ []) clock.new }
{
    match clocks.get(at as usize) {
        Some(other) => clock.take_greater(other),
        None => {}
    }
}

/// For each rank the greatest number of a clock and of those at these positions.
pub fn join_all(clock: &mut Clock, clocks: &[Clock], places: &[u32])
    requires { AreAsWide clocks.now clock.old }
    ensures { IsJoinOfAll clock.old clocks.now places.now clock.new }
{
    let mut rest = places;
    while let [at, after @ ..] = rest {
        join_at(clock, clocks, *at);
        rest = after;
    }
}
