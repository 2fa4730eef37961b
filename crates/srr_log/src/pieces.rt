//! The pieces of a line, and the numbers that they spell.
ghost use Rattle.std.specs.Prelude.{◌≡◌, ◌≢◌, ◌<◌, ⊤, All, MatchOption, slice_index, take, length};
ghost use Rattle.srr_log.specs.inside.Pieces.{GivesText, GivesSplit, after_word, split_once, int_in, number_in, rank_in};

use wiz_base::{decimal, number_i64};

/// What comes after a word.
pub fn behind<'a>(text: &'a [u8], word: &[u8]) -> Option<&'a [u8]>
    ensures { GivesText result (after_word word.now text.now) }
{
    text.strip_prefix(word)
}

/// What comes before the first such mark, and what comes after it.
pub fn split_once(text: &[u8], mark: u8) -> Option<(&[u8], &[u8])>
    ensures { GivesSplit result (split_once mark text.now) }
{
    let at = place_of(text, mark)?;
    Some((&text[..at], &text[at + 1..]))
}

/// The place of the first such byte.
fn place_of(text: &[u8], mark: u8) -> Option<usize>
    ensures none { MatchOption result (All (λ byte. byte ≢ mark) text.now)
        (λ at. All (λ byte. byte ≢ mark) (take at text.now)) }
    ensures within { MatchOption result ⊤ (λ at. at < length text.now) }
    ensures here { MatchOption result ⊤ (λ at. slice_index text.now at ≡ mark) }
{
    text.iter().position(|byte| *byte == mark)
}

/// A number from 0 to `most`.
pub fn number(text: &[u8], most: u32) -> Option<u32>
    ensures { result ≡ number_in most text.now }
{
    let number = decimal(text, most as u64)?;
    Some(number as u32)
}

/// A number of 32 bits that may be below 0.
pub fn int(text: &[u8]) -> Option<i32>
    ensures { result ≡ int_in text.now }
{
    match number_i64(text) {
        Ok(number) => i32::try_from(number).ok(),
        Err(_) => None,
    }
}

/// A rank of the run.
#[tactic(auto, unfolding(crate::specs::inside::Pieces::rank_in))]
pub fn rank(text: &[u8], ranks: u8) -> Option<u8>
    ensures { result ≡ rank_in ranks text.now }
{
    let rank = number(text, 255)?;
    if rank < ranks as u32 {
        Some(rank as u8)
    } else {
        None
    }
}
