//! The order files of races.
ghost use Rattle.std.specs.Prelude.{◌≡◌, ◌≤◌, ◌∷◌, [], IfErr, IfOk, List, OnOk, map, option_map};
ghost use Rattle.std.specs.String.{string_bytes};
ghost use Rattle.other_picks.specs.Others.{AreApart};
ghost use Rattle.picked_runs.specs.declared.turn.Pick.{Pick};
ghost use Rattle.picked_runs.specs.Picked.{ArePicked};
ghost use Rattle.wiz_tool.specs.Files.{AreWritten};
ghost use Rattle.wiz_tool.specs.inside.Told.{IsStopped};
ghost use Rattle.wiz_runs.specs.RaceOrders.{order_files, other_file, other_name};

use explanation_text::order::other_order_text;
use other_picks::listing::other_picks;
use other_picks::other::OtherPick;
use srr_record::Recording;
use std::alloc::{AllocError, Global};
use wiz_io::Store;
use wiz_tool::writing::{Unwritten, write_file};

/// Writes the order files of the other picks of a run of n ranks, where a prefix is given.
pub fn write_orders<S: Store>(
    alloc: Global,
    orders: Option<&str>,
    n: u8,
    recording: &Recording,
    store: &mut S,
) -> Result<(), Unwritten>
    requires { (picks : List Pick) × ArePicked n [] picks recording.now.history.events }
    ensures ok { OnOk result (AreWritten (S.observed store.old).files (S.observed store.new).files (order_files (option_map (λ text. text.now) orders.entry) n recording.now) []) }
    ensures stopped { IfErr result (λ why. IsStopped (S.observed store.old) (S.observed store.new) (order_files (option_map (λ text. text.now) orders.entry) n recording.now) why) }
    ensures reads { (S.observed store.new).reads ≡ (S.observed store.old).reads }
{
    let Some(prefix) = orders else {
        return Ok(());
    };
    let others = other_picks(alloc, n, &recording.history)?;
    write_each(alloc, prefix, recording, others.as_slice(), store)
}

/// Writes the order file of each of these.
fn write_each<S: Store>(
    alloc: Global,
    prefix: &str,
    recording: &Recording,
    others: &[OtherPick],
    store: &mut S,
) -> Result<(), Unwritten>
    requires { AreApart others.now }
    ensures ok { OnOk result (AreWritten (S.observed store.old).files (S.observed store.new).files (map (other_file prefix.now recording.now) others.now) []) }
    ensures stopped { IfErr result (λ why. IsStopped (S.observed store.old) (S.observed store.new) (map (other_file prefix.now recording.now) others.now) why) }
    ensures reads { (S.observed store.new).reads ≡ (S.observed store.old).reads }
{
    for other in others {
        write_order(alloc, prefix, recording, other, store)?;
    }
    Ok(())
}

/// Writes one.
fn write_order<S: Store>(
    alloc: Global,
    prefix: &str,
    recording: &Recording,
    other: &OtherPick,
    store: &mut S,
) -> Result<(), Unwritten>
    ensures ok { OnOk result (AreWritten (S.observed store.old).files (S.observed store.new).files (other_file prefix.now recording.now other.now ∷ []) []) }
    ensures stopped { IfErr result (λ why. IsStopped (S.observed store.old) (S.observed store.new) (other_file prefix.now recording.now other.now ∷ []) why) }
    ensures reads { (S.observed store.new).reads ≡ (S.observed store.old).reads }
    ensures later { (S.observed store.old).writes ≤ (S.observed store.new).writes }
{
    let name = other_name(alloc, prefix, other)?;
    let text = other_order_text(alloc, &recording.history, &recording.picks, other)?;
    write_file(alloc, &name, text.as_slice(), store)
}

/// The name of its file.
fn other_name(alloc: Global, prefix: &str, other: &OtherPick) -> Result<String, AllocError>
    ensures { IfOk result (λ name. string_bytes name ≡ other_name prefix.now other.now) }
{
    let rank = other.rank;
    let start = other.start;
    let sender = other.sender;
    format!(in alloc; "{prefix}.{rank}.{start}.{sender}.order")
}
