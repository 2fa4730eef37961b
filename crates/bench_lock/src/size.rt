//! The size of a run, from the command line arguments.
ghost use Rattle.std.specs.Prelude.{◌≡◌, ◌<◌, ◌≤◌, Some, IfOk, string_bytes, option_map};
ghost use Rattle.std.specs.Result.{OkIff};
ghost use Rattle.bench_lock.specs.Words.{IsBetween, number_of};

use anyhow::{Result, bail, ensure};

const MOST_SEATS: u32 = 64;

const MOST_TURNS: u32 = 1_000_000;

/// How many seats there are, and how many turns each of them takes.
pub struct Size {
    pub seats: u32,
    pub turns: u32,
    pub ghost few: { (0 < seats) × (seats ≤ 64) },
}

impl Size {
    /// Two arguments give a size, and a third is one too many.
    pub fn read(seats: Option<String>, turns: Option<String>, more: Option<String>) -> Result<Size>
        ensures seats { IfOk result (λ s. option_map (λ w. number_of (string_bytes w)) seats ≡ Some s.seats) }
        ensures turns { IfOk result (λ s. option_map (λ w. number_of (string_bytes w)) turns ≡ Some s.turns) }
    {
        let (Some(seats), Some(turns), None) = (seats, turns, more) else {
            bail!("usage: bench_lock SEATS TURNS");
        };
        Ok(Size {
            seats: number("SEATS", seats.as_str(), 1, MOST_SEATS)?,
            turns: number("TURNS", turns.as_str(), 0, MOST_TURNS)?,
        })
    }
}

/// The number that stands in a word, if it is one from low to high.
fn number(name: &str, word: &str, low: u32, high: u32) -> Result<u32>
    ensures { OkIff result (IsBetween low high word.now) (number_of word.now) }
{
    let Ok(n) = word.parse::<u32>() else {
        bail!("{name} is a number from {low} to {high}, not {word:?}");
    };
    ensure!(
        low <= n && n <= high,
        "{name} is a number from {low} to {high}, not {n}"
    );
    Ok(n)
}
