//! The order files of a search.
ghost use Rattle.std.specs.Prelude.{◌≡◌, ◌<◌, ◌≤◌, ◌∷◌, [], IfErr, IfOk, OnOk};
ghost use Rattle.std.specs.String.{string_bytes};
ghost use Rattle.wiz_tool.specs.Files.{AreWritten};
ghost use Rattle.wiz_tool.specs.inside.Told.{IsStopped};
ghost use Rattle.wiz_searches.specs.Explorations.{found_turns, left_prefix, numbered_file, numbered_files, numbered_name, search_files};

use explanation_text::order::turns_text;
use explore::found::{Explored, FoundOutcome};
use picked_runs::turn::{Turn, Turns};
use std::alloc::{AllocError, Global};
use wiz_io::Store;
use wiz_tool::writing::{Unwritten, write_file};

/// Writes the order of each outcome, and then that of each state that is left.
pub fn write_orders<S: Store>(
    alloc: Global,
    prefix: &str,
    explored: &Explored,
    store: &mut S,
) -> Result<(), Unwritten>
    ensures ok { OnOk result (AreWritten (S.observed store.old).files (S.observed store.new).files (search_files prefix.now explored.now) []) }
    ensures stopped { IfErr result (λ why. IsStopped (S.observed store.old) (S.observed store.new) (search_files prefix.now explored.now) why) }
    ensures reads { (S.observed store.new).reads ≡ (S.observed store.old).reads }
{
    write_found(alloc, prefix, explored.found.as_slice(), store)?;
    let left = left_prefix(alloc, prefix)?;
    write_left(alloc, &left, explored.left.as_slice(), store)
}

/// Writes the order of each outcome.
fn write_found<S: Store>(
    alloc: Global,
    prefix: &str,
    listed: &[FoundOutcome],
    store: &mut S,
) -> Result<(), Unwritten>
    ensures ok { OnOk result (AreWritten (S.observed store.old).files (S.observed store.new).files (numbered_files prefix.now 0 (found_turns listed.now)) []) }
    ensures stopped { IfErr result (λ why. IsStopped (S.observed store.old) (S.observed store.new) (numbered_files prefix.now 0 (found_turns listed.now)) why) }
    ensures reads { (S.observed store.new).reads ≡ (S.observed store.old).reads }
    ensures later { (S.observed store.old).writes ≤ (S.observed store.new).writes }
{
    for number in 0..listed.len() {
        let turns = &listed[number].turns;
        write_turns(alloc, prefix, number as u64, turns.as_slice(), store)?;
    }
    Ok(())
}

/// Writes the order of each state.
fn write_left<S: Store>(
    alloc: Global,
    prefix: &str,
    left: &[Turns],
    store: &mut S,
) -> Result<(), Unwritten>
    ensures ok { OnOk result (AreWritten (S.observed store.old).files (S.observed store.new).files (numbered_files prefix.now 0 left.now) []) }
    ensures stopped { IfErr result (λ why. IsStopped (S.observed store.old) (S.observed store.new) (numbered_files prefix.now 0 left.now) why) }
    ensures reads { (S.observed store.new).reads ≡ (S.observed store.old).reads }
    ensures later { (S.observed store.old).writes ≤ (S.observed store.new).writes }
{
    for number in 0..left.len() {
        write_turns(alloc, prefix, number as u64, left[number].as_slice(), store)?;
    }
    Ok(())
}

/// Writes one.
fn write_turns<S: Store>(
    alloc: Global,
    prefix: &str,
    number: u64,
    turns: &[Turn],
    store: &mut S,
) -> Result<(), Unwritten>
    ensures ok { OnOk result (AreWritten (S.observed store.old).files (S.observed store.new).files (numbered_file prefix.now number turns.now ∷ []) []) }
    ensures stopped { IfErr result (λ why. IsStopped (S.observed store.old) (S.observed store.new) (numbered_file prefix.now number turns.now ∷ []) why) }
    ensures reads { (S.observed store.new).reads ≡ (S.observed store.old).reads }
    ensures later { (S.observed store.old).writes ≤ (S.observed store.new).writes }
{
    let name = numbered_name(alloc, prefix, number)?;
    let text = turns_text(alloc, turns)?;
    write_file(alloc, &name, text.as_slice(), store)
}

/// The name of its file.
fn numbered_name(alloc: Global, prefix: &str, number: u64) -> Result<String, AllocError>
    ensures { IfOk result (λ name. string_bytes name ≡ numbered_name prefix.now number) }
{
    format!(in alloc; "{prefix}.{number}.order")
}

/// What the names of the files of states begin with.
fn left_prefix(alloc: Global, prefix: &str) -> Result<String, AllocError>
    ensures { IfOk result (λ left. string_bytes left ≡ left_prefix prefix.now) }
{
    format!(in alloc; "{prefix}.left")
}
