//! The starts of a history, by their names.
ghost use Rattle.std.specs.Prelude.{◌≡◌, ◌∷◌, [], length};
ghost use Rattle.run_model.specs.Pairs.{name_at};
ghost use Rattle.run_model.specs.Views.{starts_of, view_of};
ghost use Rattle.run_states.specs.Futures.{mate_name};

use run_model::event::Event;
use run_model::starts::is_start;

/// A start: its rank, and its number there.
pub type RankAndNumber = (u8, usize);

/// 1 for a start of a rank.
fn count_start(event: &Event, rank: u8) -> usize
    ensures { result ≡ length (starts_of (view_of (event.now ∷ []) rank)) }
{
    if event.rank == rank && is_start(&event.call, &event.reply) {
        1
    } else {
        0
    }
}

/// How many starts a rank made in these events.
pub fn starts_in(events: &[Event], rank: u8) -> usize
    ensures { result ≡ length (starts_of (view_of events.now rank)) }
{
    let mut count = 0;
    let mut rest = events;
    while let [event, after @ ..] = rest {
        count += count_start(event, rank);
        rest = after;
    }
    count
}

/// The name of the start at a position.
pub fn name_at(events: &[Event], at: usize) -> Option<RankAndNumber>
    ensures { result ≡ name_at events.now at }
{
    match events.get(at) {
        Some(event) => {
            if is_start(&event.call, &event.reply) {
                Some((event.rank, starts_in(&events[..at], event.rank)))
            } else {
                None
            }
        }
        None => None,
    }
}

/// The start that a mate names.
pub fn mate_in(before: &[Event], mate: Option<u32>) -> Option<RankAndNumber>
    ensures { result ≡ mate_name before.now mate }
{
    match mate {
        Some(at) => name_at(before, at as usize),
        None => None,
    }
}
