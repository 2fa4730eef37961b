//! The size of a replay, from the command line arguments.
ghost use Rattle.std.specs.Prelude.{◌≡◌, ◌≤◌, Some, IfOk, string_bytes, option_map};
ghost use Rattle.std.specs.Result.{OkIff};
ghost use Rattle.bench_replay.specs.Words.{IsBetween, number_of};

use anyhow::{Result, bail, ensure};

const MOST_MESSAGES: u32 = 400_000;

/// How many messages are replayed.
pub struct Size {
    pub messages: u32,
    pub ghost few: { messages ≤ 400000 },
}

impl Size {
    /// One word gives a size, and a second is one too many.
    pub fn read(messages: Option<String>, more: Option<String>) -> Result<Size>
        ensures { IfOk result (λ s. option_map (λ w. number_of (string_bytes w)) messages ≡ Some s.messages) }
    {
        let (Some(messages), None) = (messages, more) else {
            bail!("usage: bench_replay MESSAGES");
        };
        Ok(Size {
            messages: number(messages.as_str())?,
        })
    }
}

/// The number of messages that stands in a word, if it is one from 0 to 400,000.
fn number(word: &str) -> Result<u32>
    ensures { OkIff result (IsBetween 0 400000 word.now) (number_of word.now) }
{
    let Ok(n) = word.parse::<u32>() else {
        bail!("MESSAGES is a number from 0 to {MOST_MESSAGES}, not {word:?}");
    };
    ensure!(
        n <= MOST_MESSAGES,
        "MESSAGES is a number from 0 to {MOST_MESSAGES}, not {n}"
    );
    Ok(n)
}
