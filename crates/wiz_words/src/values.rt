//! What clap finds in the arguments, and the values that it gives.
ghost use Rattle.std.specs.Prelude.{◌≡◌, ℕ, IfOk, MatchOption, true};
ghost use Rattle.std.specs.Option.{option_map};
ghost use Rattle.clap.specs.Words.{app_of, is_simple_and_free};
ghost use Rattle.wiz_words.specs.Texts.{texts};
ghost use Rattle.wiz_words.specs.Values.{AreMatchesOf, IsBreakpointText, IsNameIn, IsNameText, IsNumberIn, IsNumberOr, flag_in, rows_found, value_in};

use crate::limits::{GREATEST_CALL, GREATEST_RANK, GREATEST_START};
use clap::error::ErrorKind;
use clap::{ArgMatches, Command};
use std::alloc::AllocError;
use wiz_base::number::decimal;

/// What clap finds in the arguments; nothing where the form refuses them.
pub fn matches_of<'a>(
    form: Command<'a>,
    words: &'a [&'a str],
) -> Result<Option<ArgMatches<'a>>, AllocError>
    requires { is_simple_and_free (app_of form) ≡ true }
    ensures { IfOk result (λ found. AreMatchesOf (app_of form.entry) (texts words.entry.now) found) }
{
    match form.try_get_matches_from(words) {
        Ok(matches) => Ok(Some(matches)),
        Err(error) => match error.kind() {
            ErrorKind::OutOfMemory => Err(AllocError),
            _ => Ok(None),
        },
    }
}

/// The value of an argument, where one is given.
pub fn value_in<'a>(matches: &ArgMatches<'a>, name: &str) -> Option<&'a str>
    ensures { option_map (λ text. text.now) result ≡ value_in (rows_found matches.now) name.now }
{
    matches.get_str(name)
}

/// Whether a flag is given.
pub fn flag_in(matches: &ArgMatches<'_>, name: &str) -> bool
    ensures { result ≡ flag_in (rows_found matches.now) name.now }
{
    match value_in(matches, name) {
        Some(text) => text == "true",
        None => false,
    }
}

/// The number from `least` to `most` that the value of an argument spells.
pub fn number_in(matches: &ArgMatches<'_>, name: &str, least: u32, most: u32) -> Option<u32>
    ensures { MatchOption result ((value : ℕ) → IsNumberIn (rows_found matches.now) name.now least most value → ⊥)
        (λ value. IsNumberIn (rows_found matches.now) name.now least most value) }
{
    let text = value_in(matches, name)?;
    let value = decimal(text.as_bytes(), most as u64)?;
    if value < least as u64 {
        return None;
    }
    Some(value as u32)
}

/// The same, or this one where the argument has no value.
pub fn number_or(
    matches: &ArgMatches<'_>,
    name: &str,
    least: u32,
    most: u32,
    usual: u32,
) -> Option<u32>
    ensures { MatchOption result ((value : ℕ) → IsNumberOr (rows_found matches.now) name.now least most usual value → ⊥)
        (λ value. IsNumberOr (rows_found matches.now) name.now least most usual value) }
{
    match value_in(matches, name) {
        Some(_) => number_in(matches, name, least, most),
        None => Some(usual),
    }
}

/// The breakpoint that `R:C` spells.
pub fn breakpoint(text: &str) -> Option<(u8, u32)>
    ensures { MatchOption result ((stop : ℕ × ℕ) → IsBreakpointText text.now stop → ⊥)
        (λ stop. IsBreakpointText text.now stop) }
{
    let (rank, call) = text.split_once(':')?;
    let rank = decimal(rank.as_bytes(), GREATEST_RANK as u64)?;
    let call = decimal(call.as_bytes(), GREATEST_CALL as u64)?;
    Some((rank as u8, call as u32))
}

/// The name of a message that the value of an argument spells.
pub fn name_in(matches: &ArgMatches<'_>, argument: &str) -> Option<(u8, u32)>
    ensures { MatchOption result ((name : ℕ × ℕ) → IsNameIn (rows_found matches.now) argument.now name → ⊥)
        (λ name. IsNameIn (rows_found matches.now) argument.now name) }
{
    let text = value_in(matches, argument)?;
    message_name(text)
}

/// The name of a message that `S.K` spells.
fn message_name(text: &str) -> Option<(u8, u32)>
    ensures { MatchOption result ((name : ℕ × ℕ) → IsNameText text.now name → ⊥)
        (λ name. IsNameText text.now name) }
{
    let (rank, start) = text.split_once('.')?;
    let rank = decimal(rank.as_bytes(), GREATEST_RANK as u64)?;
    let start = decimal(start.as_bytes(), GREATEST_START as u64)?;
    Some((rank as u8, start as u32))
}
