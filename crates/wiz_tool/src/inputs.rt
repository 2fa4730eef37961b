//! The input files of a command.
ghost use Rattle.std.specs.Prelude.{◌≡◌, ◌≤◌, IfErr, IfOk};
ghost use Rattle.std.specs.Option.{option_map, option_to_list};
ghost use Rattle.wiz_tool.specs.Inputs.{AreHeld, FileHolds, IsFirstUnread, IsUnreadInput, input, option_input};
ghost use Rattle.wiz_tool.specs.inside.Told.{IsFailureBy};

use crate::failure::Failure;
use crate::refusal::Refusal;
use wiz_base::Bytes;
use wiz_io::{ReadFault, Store};

/// The most bytes of a program file and of a plan file.
pub const TEXT_LIMIT: u64 = 65_536;

/// The most bytes of an order file.
pub const ORDER_LIMIT: u64 = 8_388_608;

/// Reads an input file.
pub fn read_input<'a, S: Store>(
    name: &'a str,
    limit: u64,
    store: &mut S,
) -> Result<Bytes, Failure<'a>>
    ensures held { IfOk result (λ text. FileHolds (S.observed store.old).files (input limit name.now) text) }
    ensures unread { IfErr result (λ failure. IsFailureBy (IsUnreadInput (S.observed store.old) (S.observed store.new) (input limit name.now)) failure) }
    ensures files { (S.observed store.new).files ≡ (S.observed store.old).files }
    ensures writes { (S.observed store.new).writes ≡ (S.observed store.old).writes }
    ensures later { (S.observed store.old).reads ≤ (S.observed store.new).reads }
{
    match store.read(name, limit) {
        Ok(text) => Ok(text),
        Err(ReadFault::Missing) => Err(Failure::Refused {
            refusal: Refusal::Missing,
            name,
        }),
        Err(ReadFault::Failed) => Err(Failure::Refused {
            refusal: Refusal::ReadFault,
            name,
        }),
        Err(ReadFault::TooLong) => Err(Failure::Refused {
            refusal: Refusal::TooLong,
            name,
        }),
        Err(ReadFault::NoMemory) => Err(Failure::OutOfMemory),
    }
}

/// Reads an input file that may be left out.
pub fn read_option<'a, S: Store>(
    name: Option<&'a str>,
    limit: u64,
    store: &mut S,
) -> Result<Option<Bytes>, Failure<'a>>
    ensures held { IfOk result (λ text. AreHeld (S.observed store.old).files (option_input limit (option_map (λ text. text.now) name.entry)) (option_to_list text)) }
    ensures unread { IfErr result (λ failure. IsFailureBy (IsFirstUnread (S.observed store.old) (S.observed store.new) (option_input limit (option_map (λ text. text.now) name.entry))) failure) }
    ensures files { (S.observed store.new).files ≡ (S.observed store.old).files }
    ensures writes { (S.observed store.new).writes ≡ (S.observed store.old).writes }
    ensures later { (S.observed store.old).reads ≤ (S.observed store.new).reads }
{
    match name {
        None => Ok(None),
        Some(name) => match read_input(name, limit, store) {
            Ok(text) => Ok(Some(text)),
            Err(failure) => Err(failure),
        },
    }
}
