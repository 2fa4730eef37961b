//! Looking entries up.
ghost use Rattle.std.specs.Prelude.{◌≡◌};
ghost use Rattle.srr_entry.specs.Entries.{entries_for};

use srr_entry::entry::Entry;
use srr_entry::log::Entries;

/// The entries of a rank of the group.
pub fn find_entries<'l>(group: &[u8], lists: &'l [Entries], rank: u8) -> &'l [Entry]
    ensures { result.now ≡ entries_for group.now lists.now rank }
{
    match group {
        [] => &[],
        [member, group @ ..] => match lists {
            [] => &[],
            [list, lists @ ..] => {
                if *member == rank {
                    list.as_slice()
                } else {
                    find_entries(group, lists, rank)
                }
            }
        },
    }
}
