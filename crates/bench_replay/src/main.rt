//! Times a replay: rank 0 sends a number of messages to rank 1, and both ranks are replayed on one thread from their log,
//! which the program makes first.
//!
//! Usage: `bench_replay MESSAGES`.
#![tactic(auto)]

mod script;
mod script_log;
mod script_rank;
mod size;
mod whole;

use anyhow::Result;
use size::Size;
use std::env;

fn main(rt: HostRuntime) -> Result<()> {
    let mut arguments = env::args(&rt)?.skip(1);
    let Size { messages } = Size::read(arguments.next(), arguments.next())?;
    let replayed = whole::replay(rt.alloc(), messages)?;
    let events = replayed.events.len();
    let ended = whole::count_ended(replayed.ends.as_slice());
    println!(rt; "{messages} messages {events} events {ended} ranks ended")?;
    Ok(())
}
