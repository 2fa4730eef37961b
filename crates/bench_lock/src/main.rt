//! Times a turn lock: some seats, each on a thread of its own, take some turns, and each turn adds an entry.
//!
//! Usage: `bench_lock SEATS TURNS`. The one line that it prints doesn't depend on the order of the turns.
#![tactic(auto)]

mod players;
mod size;
mod tally;

use anyhow::Result;
use size::Size;
use std::env;

fn main(rt: HostRuntime) -> Result<()> {
    let mut arguments = env::args(&rt)?.skip(1);
    let Size { seats, turns } = Size::read(arguments.next(), arguments.next(), arguments.next())?;
    let tally = players::run(&rt, rt.alloc(), seats, turns)?;
    println!(rt;
        "{seats} seats {turns} turns {} entries",
        tally.entries.len()
    )?;
    Ok(())
}
