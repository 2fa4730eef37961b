//! The races of a run.
ghost use Rattle.std.specs.Prelude.{◌≡◌, ◌<◌, ◌≤◌, ◌++◌, Err, IfOk, List, OnOk};
ghost use Rattle.causes.specs.Clocks.{AreOfRanks};
ghost use Rattle.msg_races.specs.declared.fault.RaceFault.TheVariants.{TooMany};
ghost use Rattle.msg_races.specs.declared.receives.WildcardReceive.{WildcardReceive as ReceiveSpec};
ghost use Rattle.msg_races.specs.Listing.{arrival_at, raced_receive, received, receives_of};
ghost use Rattle.msg_races.specs.Names.{count_racing, most_racing};
ghost use Rattle.msg_races.specs.Races.{AreRaces};
ghost use Rattle.msg_races.specs.inside.Seen.{IsSeenByRaces};

use crate::arrival::Arrival;
use crate::fault::RaceFault;
use crate::listing::Listing;
use crate::names::Name;
use crate::receives::{Receives, WildcardReceive};
use crate::seen::{SeenHistory, see};
use run_model::history::History;
use std::alloc::{AllocError, Global};

/// For each wildcard receive of a run that was completed the other messages that could have reached it: the Sends that it
/// accepts, and that its completion does not come before.
pub fn races(alloc: Global, n: u8, history: &History) -> Result<Receives, RaceFault>
    requires ranks { AreOfRanks n history.now.events }
    ensures races { IfOk result (λ receives. AreRaces n history.now.events receives) }
    ensures few { IfOk result (λ receives. count_racing receives ≤ most_racing) }
    ensures many { result ≡ Err TooMany → (receives : List ReceiveSpec) × AreRaces n history.now.events receives × (most_racing < count_racing receives) }
{
    let seen = see(alloc, n, history.as_slice())?;
    seen.causes.tells();
    let mut listing = Listing::new(alloc);
    for rank in 0..n {
        add_rank(alloc, &mut listing, &seen, rank)?;
    }
    Ok(listing.into_receives())
}

/// Adds the wildcard receives of a rank that were completed.
fn add_rank(
    alloc: Global,
    listing: &mut Listing,
    seen: &SeenHistory<'_>,
    rank: u8,
) -> Result<(), RaceFault>
    requires seen { IsSeenByRaces seen.now }
    ensures ok { OnOk result (listing.new ≡ listing.old ++ receives_of seen.now.causes rank) }
    ensures many { result ≡ Err TooMany → most_racing < count_racing (listing.old ++ receives_of seen.now.causes rank) }
{
    let starts = seen.causes.starts(rank);
    let mut rest = starts;
    let mut start = 0;
    while let [place, after @ ..] = rest {
        add_start(alloc, listing, seen, Name { rank, start }, *place)?;
        start += 1;
        rest = after;
    }
    Ok(())
}

/// Adds the start with this name, which stands at a position, if it is a wildcard receive that was completed.
fn add_start(
    alloc: Global,
    listing: &mut Listing,
    seen: &SeenHistory<'_>,
    name: Name,
    place: u32,
) -> Result<(), RaceFault>
    requires seen { IsSeenByRaces seen.now }
    ensures ok { OnOk result (listing.new ≡ listing.old ++ received seen.now.causes (arrival_at seen.now.causes.events name place)) }
    ensures many { result ≡ Err TooMany → most_racing < count_racing (listing.old ++ received seen.now.causes (arrival_at seen.now.causes.events name place)) }
{
    match seen.arrival(name, place) {
        Some(arrival) => listing.push(receive_of(alloc, seen, &arrival)?),
        None => Ok(()),
    }
}

/// A wildcard receive with its others.
fn receive_of(
    alloc: Global,
    seen: &SeenHistory<'_>,
    arrival: &Arrival,
) -> Result<WildcardReceive, AllocError>
    requires seen { IsSeenByRaces seen.now }
    ensures { IfOk result (λ receive. receive ≡ raced_receive seen.now.causes arrival.now) }
{
    Ok(WildcardReceive {
        rank: arrival.rank,
        start: arrival.start,
        took: arrival.took,
        others: seen.others_of(alloc, arrival)?,
    })
}
